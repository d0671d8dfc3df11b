// The sections of a stored table: where the categories' names and the signals' URNs stand, and refusals 4 to 6.
//
// In: any bytes. Out: 4 to 6, or where everything stands.
//
//   bytes.rt       bytes, and positions in them
//   categories.rt  the section of the categories
//   signals.rt     the section of the signals
#![tactic(auto)]

pub mod bytes;
pub mod categories;
mod signals;

ghost use Rattle.std.specs.Prelude.{◌≤◌, length};
ghost use Rattle.base_numbers.specs.Numbers.{most_categories, most_table_bytes};
ghost use Rattle.table_sections.specs.Held.{Padded, Room, ReadFrom, CountsOf, Reads};

use crate::bytes::byte_in;
use base_numbers::{MOST_CATEGORIES, MOST_SIGNALS, MOST_TABLE_BYTES, MOST_TABLE_URNS, Refusal};

// How many categories, signals and URNs there are.
#[derive(Clone, Copy)]
pub struct Counts {
    pub categories: usize,
    pub signals: usize,
    pub urns: usize,
}

// The section of the signals, with nothing behind it.
fn read_rest(
    t: &[u8],
    from: usize,
    categories: usize,
    at: &mut [u16; MOST_TABLE_URNS],
    len: &mut [u8; MOST_TABLE_URNS],
    signal: &mut [u8; MOST_TABLE_URNS],
) -> Result<Counts, Refusal>
    requires { length t.now ≤ most_table_bytes }
    ensures read_from { Room at.old len.old signal.old → ReadFrom t.now at.new len.new signal.new from result }
    ensures names { CountsOf categories result }
{
    let (signals, p) = byte_in(t, from, 1, MOST_SIGNALS)?;
    let (urns, q) = signals::read_signals(t, p, signals, at, len, signal)?;
    if q < t.len() {
        return Err(Refusal::TableWrongEnd);
    }
    Ok(Counts {
        categories,
        signals,
        urns,
    })
}

// The whole table: the names of its categories and the URNs of its signals, as places in the bytes, and each URN's signal.
// Promised for arrays of names that are lent clear; the three others have room for every URN in any case. What the arrays hold where
// a fault is met is left open: they are filled up to it.
pub fn read(
    t: &[u8],
    name_at: &mut [u16; MOST_CATEGORIES],
    name_len: &mut [u8; MOST_CATEGORIES],
    at: &mut [u16; MOST_TABLE_URNS],
    len: &mut [u8; MOST_TABLE_URNS],
    signal: &mut [u8; MOST_TABLE_URNS],
) -> Result<Counts, Refusal>
    ensures { Padded most_categories 0 name_at.old → Padded most_categories 0 name_len.old → Room at.old len.old signal.old
        → Reads t.now name_at.new name_len.new at.new len.new signal.new result }
{
    if MOST_TABLE_BYTES < t.len() {
        return Err(Refusal::TableTooLong);
    }
    let (n, p) = categories::read_categories(t, name_at, name_len)?;
    read_rest(t, p, n, at, len, signal)
}
