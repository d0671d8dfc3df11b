// The seed of the sample maker: it goes on by a fixed rule, and each of its numbers chooses one of several.
//
// In: the seed, which is lent, or one of its numbers. Out: the next number, or what a number chooses among n.
#![tactic(auto)]

ghost use Rattle.std.specs.Prelude.{◌≡◌, ◌*◌, ◌%◌};
ghost use Rattle.sample_seed.specs.Numbers.{next_of, choice_of};

// The seed as it is lent.
#[repr(C)]
#[derive(Clone, Copy)]
pub struct Seed {
    pub x: u32,
}

impl Seed {
    // The seed goes on to its next number, which is the answer.
    #[tactic(auto, using(crate::proofs::Product::next_is))]
    pub fn draw(&mut self) -> u32
        ensures { (result ≡ next_of self.old.x) × (self.new.x ≡ next_of self.old.x) }
    {
        self.x = wrapping_mul(self.x, 1664525).wrapping_add(1013904223);
        self.x
    }
}

// a times b, modulo two to the thirty-second. An own product stands here for the library's: the rules name it so.
fn wrapping_mul(a: u32, b: u32) -> u32
    ensures { result ≡ (a * b) % 4294967296 }
{
    (u64::from(a) * u64::from(b) % 4294967296) as u32
}

// Which of n the number x chooses, from 0 on; 0 if there is none to choose from.
pub fn choice(x: u32, n: u32) -> u32
    ensures { result ≡ choice_of x n }
{
    if n == 0 { 0 } else { x / 65536 % n }
}
