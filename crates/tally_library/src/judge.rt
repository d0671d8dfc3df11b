// A value's resolution, with a refusal counted.
ghost use Rattle.std.specs.Prelude.{◌≡◌, cond, ◌≤◌, length, ltb, Some, None};
ghost use Rattle.base_numbers.specs.Numbers.{not_counted, tally_counts};
ghost use Rattle.resolve_library.specs.Resolve.{refused as refused_with, plain_of};
ghost use Rattle.tally_library.specs.Tally.{count_to, needed};
ghost use Rattle.tally_library.specs.Steps.{full_count, judged_of, judged_counts};

use base_numbers::{Refusal, TALLY_COUNTS};
use resolve_run::Resolution;
use resolve_run::answer::{refused, value_first};

// A resolution is counted if it is refused: the answer is itself, or 20 if its count is full.
fn counted(refusals: &mut [u32], r: Resolution) -> Resolution
    requires { (r.refusal ≤ tally_counts) × (tally_counts ≤ length refusals.old) }
    ensures { (result ≡ cond (full_count refusals.old r) (refused_with not_counted) r)
        × (refusals.new ≡ cond (full_count refusals.old r) refusals.old (count_to refusals.old r)) }
{
    if r.refusal == 0 {
        return r;
    }
    let place = usize::from(r.refusal) - 1;
    match refusals[place].checked_add(1) {
        Some(n) => {
            refusals[place] = n;
            r
        }
        None => refused(u8::from(Refusal::NotCounted)),
    }
}

// The plain resolution of the value v with the table t, unless it is well-formed and has more than n signals.
fn resolved(t: &[u8], n: usize, v: &[u8]) -> Option<Resolution>
    ensures { result ≡ cond (ltb n (needed t.now)) None (Some (plain_of t.now v.now)) }
{
    match table_decode::decode(t) {
        Ok(d) => {
            if n < d.signals {
                None
            } else {
                Some(resolve_library::by::accepted(t, &d, v))
            }
        }
        Err(r) => Some(value_first(v, u8::from(r))),
    }
}

// The plain resolution of the value v with the table t, counted if it is refused. 20 comes first: with too few counts, or
// fewer than n records for the signals of a well-formed table, the value is not looked at.
pub(crate) fn judge(t: &[u8], n: usize, refusals: &mut [u32], v: &[u8]) -> Resolution
    ensures { (result ≡ judged_of t.now n refusals.old v.now)
        × (refusals.new ≡ judged_counts t.now n refusals.old v.now) }
{
    if refusals.len() < TALLY_COUNTS {
        return refused(u8::from(Refusal::NotCounted));
    }
    match resolved(t, n, v) {
        Some(r) => counted(refusals, r),
        None => refused(u8::from(Refusal::NotCounted)),
    }
}
