// The signal of an Alert-Info value, chosen among those signals of the table that are available.
//
// In: a table, a set of its signals and a value. Out: a refusal number, or the signal with the numbers of used and skipped
// entries.
//
//   rows.rt  the places of the available signals
#![tactic(auto)]

mod rows;

ghost use Rattle.std.specs.Prelude.{min, ◌≡◌};
ghost use Rattle.base_numbers.specs.Numbers.{most_signals};
ghost use Rattle.table_decode.specs.Decoded.{DecodedAs};
ghost use Rattle.resolve_available.specs.Available.{has_bit, known, available_of};
ghost use Rattle.resolve_available.specs.Rows.{rows_among, among as among_of};

use base_numbers::{MOST_SIGNALS, Refusal};
use resolve_run::Resolution;
use resolve_run::answer::{direct, value_first};
use resolve_run::run::at_start;
use table_decode::Decoded;

// Each bit of the set is one of so many signals, of which there are at most 32.
pub fn is_known(set: u32, signals: usize) -> bool
    ensures { result ≡ known set (min signals most_signals) }
{
    u64::from(set) >> signals.min(MOST_SIGNALS) == 0
}

// The decoded table with the rows of the available signals.
pub fn among(d: Decoded, set: u32) -> Decoded
    ensures { result ≡ among_of (rows_among (has_bit set) d.rows) d }
{
    Decoded {
        rows: rows::only(&d.rows, set),
        ..d
    }
}

// The value v with the table t, decoded as d, and the signals of the set, bit s for signal s.
fn by(t: &[u8], d: Decoded, set: u32, v: &[u8]) -> Resolution
    ensures { DecodedAs t.now d → result ≡ available_of t.now set v.now }
{
    if !is_known(set, d.signals) {
        return value_first(v, u8::from(Refusal::UnknownAvailable));
    }
    direct(t, &among(d, set), at_start(), v).answer
}

// The value v with the table t and the signals of the set, bit s for signal s.
pub fn resolve(t: &[u8], set: u32, v: &[u8]) -> Resolution
    ensures { result ≡ available_of t.now set v.now }
{
    match table_decode::decode(t) {
        Ok(d) => by(t, d, set, v),
        Err(r) => value_first(v, u8::from(r)),
    }
}
