// Texts cut, and searched for a byte.
ghost use Rattle.std.specs.Prelude.{◌≡◌, ◌≤◌, length, take, drop};
ghost use Rattle.base_lists.specs.Cuts.{up_to};
ghost use Rattle.base_text.specs.Words.{ends_at};

// How many bytes stand before the first c.
pub fn find(s: &[u8], c: u8) -> usize
    ensures { result ≡ length (up_to c s.now) }
{
    s.iter().take_while(|x| **x != c).count()
}

// The len bytes from at, as far as the table has them.
pub fn part(t: &[u8], at: usize, len: usize) -> &[u8]
    ensures { result.now ≡ take len (drop at t.now) }
{
    let rest = &t[at.min(t.len())..];
    &rest[..len.min(rest.len())]
}

// A text that is held as a place and a length.
pub fn text_in(t: &[u8], at: u16, len: u8) -> &[u8]
    ensures result_value { result.now ≡ take len (drop at t.now) }
    ensures short { length result.now ≤ 255 }
{
    part(t, usize::from(at), usize::from(len))
}

// A part of the text ends before the byte at n: with the text, or at a colon.
#[tactic(auto, unfolding(crate::specs::Words::ends_at), using(std::proofs::lemmas::Bool::Decides::nat_tests))]
pub fn ends_at(w: &[u8], n: usize) -> bool
    ensures { result ≡ ends_at w.now n }
{
    w.len() <= n || w[n] == b':'
}
