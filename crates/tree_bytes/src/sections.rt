// The section of the categories written, and how many URNs a signal has.
ghost use Rattle.std.specs.Prelude.{◌≡◌, ◌≤◌};
ghost use Rattle.tree_bytes.specs.Laid.{spot, count_of, names_at};

use crate::put::Writer;
use base_bytes::numbers::small;
use base_numbers::{MOST_CATEGORIES, MOST_TABLE_URNS};
use node_search::texts::text_at;

// A buffer with the section of the categories at its front; with nothing for over 8.
pub fn names<'a>(
    t: &[u8],
    n: usize,
    name_at: &[u16; MOST_CATEGORIES],
    name_len: &[u8; MOST_CATEGORIES],
    buf: &'a mut [u8],
) -> Writer<'a>
    ensures same_reference { result.buf.ghost_name ≡ buf.entry.ghost_name }
    ensures result_after { spot result.buf.now result.at ≡ names_at t.now name_at.now name_len.now n buf.old }
    ensures few { result.at ≤ 4000 }
{
    let mut w = Writer { buf, at: 0 };
    if n <= MOST_CATEGORIES {
        w.byte(small(n));
        for i in 0..n {
            w.text(text_at(t, name_at, name_len, i));
        }
    }
    w
}

// How many of the first m are of signal s; 0 for over 256. The numbers themselves stand in the contract alone.
pub fn count_of(
    m: usize,
    signal: &[u8; MOST_TABLE_URNS],
    s: usize,
    number: &[u8; MOST_TABLE_URNS],
) -> usize
    ensures { result ≡ count_of signal.now number.now m s }
{
    if MOST_TABLE_URNS < m {
        return 0;
    }
    let mut n: usize = 0;
    // By the index and not by a filter: so the compiler looks at many at once.
    for i in 0..m {
        if usize::from(signal[i]) == s {
            n += 1;
        }
    }
    n
}
