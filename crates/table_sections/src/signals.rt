// The section of the signals: where each URN stands, and whose it is.
ghost use Rattle.std.specs.Prelude.{◌≡◌, ◌++◌, map, ◌≤◌, ◌+◌, ◌-◌, length};
ghost use Rattle.base_numbers.specs.Numbers.{most_signals, most_table_bytes, most_table_urns, most_urn_bytes, most_urns};
ghost use Rattle.base_lists.specs.Lists.{tabulate};
ghost use Rattle.table_sections.specs.Stored.{text, times, counted};
ghost use Rattle.table_sections.specs.Held.{tag, tagged_from, urn_at, Room, map_read, held_read, read_up_to, read_at_most};

use crate::bytes::{Reading, byte_in, read_text};
use base_bytes::numbers::{short, small};
use base_numbers::{MOST_TABLE_URNS, MOST_URN_BYTES, MOST_URNS};

// The URNs of signal s, from a position on, put at `start` and up to before `end`.
fn read_urns(
    t: &[u8],
    from: usize,
    s: u8,
    start: usize,
    end: usize,
    at: &mut [u16; MOST_TABLE_URNS],
    len: &mut [u8; MOST_TABLE_URNS],
    signal: &mut [u8; MOST_TABLE_URNS],
) -> Reading
    requires { (start ≤ end) × (end ≤ most_table_urns) × (length t.now ≤ most_table_bytes) }
    ensures result_after { Room at.old len.old signal.old → held_read (urn_at t.now signal.new at.new len.new) result
        ≡ map_read (λ us. tabulate (urn_at t.now signal.old at.old len.old) start ++ map (tag s) us)
        (times (text most_urn_bytes t.now) (end - start) from) }
    ensures few { read_up_to result end × (Room at.old len.old signal.old → Room at.new len.new signal.new) }
{
    let mut p = from;
    for i in start..end {
        let (m, next) = read_text(t, p, MOST_URN_BYTES)?;
        at[i] = short(next - m);
        len[i] = small(m);
        signal[i] = s;
        p = next;
    }
    Ok((end, p))
}

// Signal s: a count of URNs, and the URNs.
fn read_signal(
    t: &[u8],
    from: usize,
    s: u8,
    start: usize,
    at: &mut [u16; MOST_TABLE_URNS],
    len: &mut [u8; MOST_TABLE_URNS],
    signal: &mut [u8; MOST_TABLE_URNS],
) -> Reading
    requires { (start + most_urns ≤ most_table_urns) × (length t.now ≤ most_table_bytes) }
    ensures result_after { Room at.old len.old signal.old → held_read (urn_at t.now signal.new at.new len.new) result
        ≡ map_read (λ us. tabulate (urn_at t.now signal.old at.old len.old) start ++ map (tag s) us)
        (counted 0 most_urns (text most_urn_bytes t.now) t.now from) }
    ensures few { read_at_most result (start + most_urns) × (Room at.old len.old signal.old → Room at.new len.new signal.new) }
{
    let (k, p) = byte_in(t, from, 0, MOST_URNS)?;
    read_urns(t, p, s, start, start + k, at, len, signal)
}

// n signals: the number of their URNs, and the position after them.
pub(crate) fn read_signals(
    t: &[u8],
    from: usize,
    n: usize,
    at: &mut [u16; MOST_TABLE_URNS],
    len: &mut [u8; MOST_TABLE_URNS],
    signal: &mut [u8; MOST_TABLE_URNS],
) -> Reading
    requires { (n ≤ most_signals) × (length t.now ≤ most_table_bytes) }
    ensures result_after { Room at.old len.old signal.old → held_read (urn_at t.now signal.new at.new len.new) result ≡ map_read (tagged_from 0) (times (counted 0 most_urns (text most_urn_bytes t.now) t.now) n from) }
    ensures few { read_at_most result most_table_urns }
{
    let mut m = 0;
    let mut p = from;
    for s in 0..n {
        (m, p) = read_signal(t, p, small(s), m, at, len, signal)?;
    }
    Ok((m, p))
}
