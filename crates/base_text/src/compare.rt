// Texts compared byte by byte, eight bytes at once where there are eight.
ghost use Rattle.std.specs.Prelude.{◌≡◌, ◌≤◌, ◌<◌, ◌+◌, ℕ, length, drop, get_or, map};
ghost use Rattle.base_lists.specs.Numbers.{word_of};
ghost use Rattle.theory_resolution.specs.Names.{same_name};
ghost use Rattle.base_text.specs.Text.{common};
ghost use Rattle.base_text.specs.Words.{ends_differ, as_is};

// How a text's bytes are taken before they are compared.
pub(crate) trait Taking {
    ghost taken: { ℕ → ℕ };

    ghost a_byte: { (x : ℕ) → x < 256 → taken x < 256 };

    fn take(x: u8) -> u8
        ensures { result ≡ taken x };
}

// Each byte as it is.
pub(crate) struct AsIs;

impl Taking for AsIs {
    ghost taken = { as_is };

    ghost a_byte = { λ x h. h };

    fn take(x: u8) -> u8 {
        x
    }
}

// A byte as a wide number.
fn byte_at<T: Taking>(s: &[u8], i: usize) -> u64
    requires { i < length s.now }
    ensures { (result ≡ get_or (map T.taken s.now) i 0) × (result < 256) }
{
    u64::from(T::take(s[i]))
}

// Eight bytes from i on as one number: they are compared at once.
fn word_at<T: Taking>(s: &[u8], i: usize) -> u64
    requires { i + 8 ≤ length s.now }
    ensures { result ≡ word_of (map T.taken s.now) i 8 }
{
    let a = byte_at::<T>(s, i);
    let b = byte_at::<T>(s, i + 1);
    let c = byte_at::<T>(s, i + 2);
    let d = byte_at::<T>(s, i + 3);
    let e = byte_at::<T>(s, i + 4);
    let f = byte_at::<T>(s, i + 5);
    let g = byte_at::<T>(s, i + 6);
    let h = byte_at::<T>(s, i + 7);
    a + 256 * (b + 256 * (c + 256 * (d + 256 * (e + 256 * (f + 256 * (g + 256 * h))))))
}

// Two texts differ in their length or at their end, as those that are not equal often do: in their last eight bytes, or in the
// last one where they have fewer.
#[tactic(auto, unfolding(crate::specs::Words::ends_differ), using(crate::proofs::Turns::at_ends))]
pub fn ends_differ(a: &[u8], b: &[u8]) -> bool
    ensures { result ≡ ends_differ a.now b.now }
{
    let n = a.len();
    if n != b.len() {
        return true;
    }
    if n < 8 {
        return 0 < n && a[n - 1] != b[n - 1];
    }
    word_at::<AsIs>(a, n - 8) != word_at::<AsIs>(b, n - 8)
}

// Two texts are equal.
pub fn same(a: &[u8], b: &[u8]) -> bool
    ensures { result ≡ same_name a.now b.now }
{
    a == b
}

// From a byte on, up to which two texts agree, w as its bytes are taken: the first at which they do not, or that one of them
// lacks. One by one.
fn common_bytes<T: Taking>(p: &[u8], w: &[u8], from: usize) -> usize
    ensures { result ≡ from + common (drop from p.now) (drop from (map T.taken w.now)) }
{
    let n = p.len().min(w.len());
    for i in from..n {
        if p[i] != T::take(w[i]) {
            return i;
        }
    }
    from.max(n)
}

// The same, eight bytes at once.
pub(crate) fn common_taken<T: Taking>(p: &[u8], w: &[u8], from: usize) -> usize
    ensures { result ≡ from + common (drop from p.now) (drop from (map T.taken w.now)) }
{
    let n = p.len().min(w.len());
    // Two texts in steps of eight from a place that may be past their end: no chain over them is plainer.
    let mut i = from;
    while i < n && 8 <= n - i && word_at::<AsIs>(p, i) == word_at::<T>(w, i) {
        i += 8;
    }
    common_bytes::<T>(p, w, i)
}

// From a byte on, up to which two texts agree: the first at which they do not, or that one of them lacks.
pub fn common_from(p: &[u8], w: &[u8], from: usize) -> usize
    ensures { result ≡ from + common (drop from p.now) (drop from w.now) }
{
    common_taken::<AsIs>(p, w, from)
}
