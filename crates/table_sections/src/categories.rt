// The section of the categories: where each name stands.
ghost use Rattle.std.specs.Prelude.{◌≤◌};
ghost use Rattle.base_numbers.specs.Numbers.{most_categories, most_name_bytes};
ghost use Rattle.table_sections.specs.Stored.{text, times, categories};
ghost use Rattle.table_sections.specs.Held.{NamesRead, read_up_to, read_at_most};

use crate::bytes::{Reading, byte_in, read_text};
use base_bytes::numbers::{short, small};
use base_numbers::{MOST_CATEGORIES, MOST_NAME_BYTES};

// The names of n categories, from a position on.
fn read_names(
    t: &[u8],
    from: usize,
    n: usize,
    at: &mut [u16; MOST_CATEGORIES],
    len: &mut [u8; MOST_CATEGORIES],
) -> Reading
    requires { n ≤ most_categories }
    ensures names_read { NamesRead t.now at.old len.old at.new len.new (times (text most_name_bytes t.now) n from) result }
    ensures few { read_up_to result n }
{
    let mut p = from;
    for i in 0..n {
        let (m, next) = read_text(t, p, MOST_NAME_BYTES)?;
        at[i] = short(next - m);
        len[i] = small(m);
        p = next;
    }
    Ok((n, p))
}

// 1 to 8 categories, at the beginning of a table: how many, and the position after them.
// Promised for a table of at most 8,192 bytes and arrays that are lent clear. What these hold where a fault is met is left open.
pub fn read_categories(
    t: &[u8],
    at: &mut [u16; MOST_CATEGORIES],
    len: &mut [u8; MOST_CATEGORIES],
) -> Reading
    ensures names_read { NamesRead t.now at.old len.old at.new len.new (categories t.now 0) result }
    ensures few { read_at_most result most_categories }
{
    let (n, p) = byte_in(t, 0, 1, MOST_CATEGORIES)?;
    read_names(t, p, n, at, len)
}
