// The section of the signals, read from the left: node numbers, and whose they are.
ghost use Rattle.std.specs.Prelude.{◌≡◌, ◌++◌, map, ◌≤◌, ◌+◌, ◌-◌};
ghost use Rattle.base_numbers.specs.Numbers.{most_signals, most_table_urns, most_urns};
ghost use Rattle.base_lists.specs.Lists.{tabulate};
ghost use Rattle.table_sections.specs.Stored.{times, counted};
ghost use Rattle.table_sections.specs.Held.{tag, tagged_from, map_read, held_read, read_up_to, read_at_most};
ghost use Rattle.tree_sections.specs.Tree.{any_byte};
ghost use Rattle.tree_sections.specs.Held.{number_at};

use base_bytes::numbers::small;
use base_numbers::{MOST_TABLE_URNS, MOST_URNS};
use table_sections::bytes::{Reading, byte_in};

// The node numbers of signal s, from a position on, put at `start` and up to before `end`.
fn read_numbers(
    t: &[u8],
    from: usize,
    s: u8,
    start: usize,
    end: usize,
    number: &mut [u8; MOST_TABLE_URNS],
    signal: &mut [u8; MOST_TABLE_URNS],
) -> Reading
    requires { (start ≤ end) × (end ≤ most_table_urns) }
    ensures result_after { held_read (number_at signal.new number.new) result
        ≡ map_read (λ ks. tabulate (number_at signal.old number.old) start ++ map (tag s) ks)
        (times (any_byte t.now) (end - start) from) }
    ensures few { read_up_to result end }
{
    let mut p = from;
    for i in start..end {
        let (b, next) = byte_in(t, p, 0, 255)?;
        number[i] = small(b);
        signal[i] = s;
        p = next;
    }
    Ok((end, p))
}

// Signal s: a count of nodes, and their numbers.
fn read_signal(
    t: &[u8],
    from: usize,
    s: u8,
    start: usize,
    number: &mut [u8; MOST_TABLE_URNS],
    signal: &mut [u8; MOST_TABLE_URNS],
) -> Reading
    requires { start + most_urns ≤ most_table_urns }
    ensures result_after { held_read (number_at signal.new number.new) result
        ≡ map_read (λ ks. tabulate (number_at signal.old number.old) start ++ map (tag s) ks)
        (counted 0 most_urns (any_byte t.now) t.now from) }
    ensures few { read_at_most result (start + most_urns) }
{
    let (k, p) = byte_in(t, from, 0, MOST_URNS)?;
    read_numbers(t, p, s, start, start + k, number, signal)
}

// n signals: how many numbers they have, and the position after them.
pub(crate) fn read_signals(
    t: &[u8],
    from: usize,
    n: usize,
    number: &mut [u8; MOST_TABLE_URNS],
    signal: &mut [u8; MOST_TABLE_URNS],
) -> Reading
    requires { n ≤ most_signals }
    ensures result_after { held_read (number_at signal.new number.new) result ≡ map_read (tagged_from 0) (times (counted 0 most_urns (any_byte t.now) t.now) n from) }
    ensures few { read_at_most result most_table_urns }
{
    let mut m = 0;
    let mut p = from;
    for s in 0..n {
        (m, p) = read_signal(t, p, small(s), m, number, signal)?;
    }
    Ok((m, p))
}
