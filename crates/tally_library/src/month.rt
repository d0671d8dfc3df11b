// The monthly count on records that are handed over by value, for programs in Rattle.
ghost use Rattle.std.specs.Prelude.{◌≡◌, take, drop};
ghost use Rattle.tally_library.specs.Tally.{needed as needed_of, Tallied};

use crate::{Tally, tally_value};
use base_numbers::MOST_SIGNALS;
use resolve_run::Resolution;

// The answer to a value, and the records after it. A well-formed table has at most 32 signals.
#[derive(Clone, Copy)]
pub struct Counted {
    pub answer: Resolution,
    pub records: [Tally; MOST_SIGNALS],
}

// How many records the table t needs: one for each signal if it is well-formed, else none.
pub fn needed(t: &[u8]) -> usize
    ensures { result ≡ needed_of t.now }
{
    match table_decode::decode(t) {
        Ok(d) => d.signals,
        Err(_) => 0,
    }
}

// The value v on the first n records: answer, records and counts are those of `tally_value`, and the records past them stay.
pub fn value(
    t: &[u8],
    records: [Tally; MOST_SIGNALS],
    n: usize,
    refusals: &mut [u32],
    v: &[u8],
) -> Counted
    ensures { Tallied t.now (take n records) refusals.old v.now result.answer (take n result.records) refusals.new
        × (drop n result.records ≡ drop n records) }
{
    let mut after = records;
    let answer = tally_value(t, &mut after[..n.min(MOST_SIGNALS)], refusals, v);
    Counted {
        answer,
        records: after,
    }
}
