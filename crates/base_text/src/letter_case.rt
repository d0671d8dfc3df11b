// Texts compared without regard to letter case: the letters of one of them are taken as small ones.
ghost use Rattle.std.specs.Prelude.{◌≡◌, ◌↔◌, ◌<◌, ℕ, IsTrue, cond, get_or, length};
ghost use Rattle.theory_resolution.specs.Names.{same_name};
ghost use Rattle.base_text.specs.Text.{lower, lowered};
ghost use Rattle.base_text.specs.Words.{lower_byte, common_next, differ_at};

use crate::compare::{Taking, common_from, common_taken};

// A letter as a small one.
pub fn lower_of(x: u8) -> u8
    ensures { result ≡ lower x }
{
    if x.is_ascii_uppercase() { x + 32 } else { x }
}

// Letters as small ones.
struct Lowered;

impl Taking for Lowered {
    ghost taken = { lower };

    ghost a_byte = { lower_byte };

    fn take(x: u8) -> u8 {
        lower_of(x)
    }
}

// The text has no capital letter: with its letters taken as small ones it is as it is.
pub fn is_lowered(s: &[u8]) -> bool
    ensures { result ≡ same_name (lowered s.now) s.now }
{
    !s.iter().any(|x| x.is_ascii_uppercase())
}

// How many bytes p has in common with w, where another text has k in common with w and l with p. The letters of w are taken as
// small ones, unless it is said that they are small: then it is compared as it is.
pub fn common_lowered_next(p: &[u8], w: &[u8], small: bool, k: usize, l: usize) -> usize
    ensures { result ≡ common_next p.now (cond small w.now (lowered w.now)) k l }
{
    if k != l {
        k.min(l)
    } else if small {
        common_from(p, w, k)
    } else {
        common_taken::<Lowered>(p, w, k)
    }
}

// Both texts have a byte at n, and w's, taken as a small letter, is another than p's.
#[tactic(auto, unfolding(crate::specs::Words::differ_at), using(crate::proofs::Cases::at_places))]
pub fn differ_at(p: &[u8], w: &[u8], n: usize) -> bool
    ensures { result ≡ differ_at p.now (lowered w.now) n }
{
    n < p.len() && n < w.len() && p[n] != lower_of(w[n])
}

// Two texts of one length are the same, byte by byte, where the letters of s are taken as small ones. Names of one length mostly
// differ at their end: it is compared first.
fn same_from_end(s: &[u8], p: &[u8]) -> bool
    requires { length p.now ≡ length s.now }
    ensures { IsTrue result ↔ ((k : ℕ) → k < length p.now → get_or p.now k 0 ≡ lower (get_or s.now k 0)) }
{
    (0..p.len()).rev().all(|k| p[k] == lower_of(s[k]))
}

// The text s, its letters taken as small ones, is p.
pub fn same_lowered(s: &[u8], p: &[u8]) -> bool
    ensures { result ≡ same_name (lowered s.now) p.now }
{
    p.len() == s.len() && same_from_end(s, p)
}
