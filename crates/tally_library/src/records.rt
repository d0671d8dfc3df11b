// An accepted resolution is added to its signal's record.
ghost use Rattle.std.specs.Prelude.{◌≡◌};
ghost use Rattle.tally_library.specs.Steps.{place_of, added_of, answer_at, records_at};

use crate::Tally;
use base_numbers::Refusal;
use resolve_run::Resolution;
use resolve_run::answer::refused;

// Where the record of a resolution stands among n: past the last if it is refused.
#[tactic(auto, unfolding(crate::specs::Steps::place_of))]
pub(crate) fn place(r: Resolution, n: usize) -> usize
    ensures { result ≡ place_of r n }
{
    if r.refusal == 0 {
        usize::from(r.signal)
    } else {
        n
    }
}

// The record x with the resolution r added, unless a count would pass 4,294,967,295.
fn plus(x: Tally, r: Resolution) -> Option<Tally>
    ensures { result ≡ added_of x r }
{
    Some(Tally {
        chosen: x.chosen.checked_add(1)?,
        used: x.used.checked_add(u32::from(r.used))?,
        skipped: x.skipped.checked_add(u32::from(r.skipped))?,
    })
}

// The resolution r is added to record s, and all others are unchanged; with 20, or past the last record, all are.
pub(crate) fn add(records: &mut [Tally], s: usize, r: Resolution) -> Resolution
    ensures { (result ≡ answer_at records.old s r) × (records.new ≡ records_at records.old s r) }
{
    if records.len() <= s {
        return r;
    }
    match plus(records[s], r) {
        Some(after) => {
            records[s] = after;
            r
        }
        None => refused(u8::from(Refusal::NotCounted)),
    }
}
