// Answers: a refusal number, or the signal at the end of a value.
ghost use Rattle.std.specs.Prelude.{◌≡◌, cond, ◌+◌, ◌≤◌, suc, eqb};
ghost use Rattle.base_numbers.specs.Numbers.{most_value_bytes};
ghost use Rattle.value_reader.specs.Value.{refusal_of};
ghost use Rattle.resolve_run.specs.Answers.{refused as refused_with};
ghost use Rattle.resolve_run.specs.Run.{signal_now, answer_of, ended_from};

use crate::Resolution;
use crate::run::{Current, Point, begin_at, run};
use base_numbers::{MOST_ENTRIES, MOST_VALUE_BYTES, Refusal};
use table_decode::Decoded;

// Where a resolver ends: its answer, and where it is.
#[derive(Clone, Copy)]
pub struct Ended<'a> {
    pub answer: Resolution,
    pub last: Current<'a>,
}

// Refused: all zero but the number.
pub fn refused(k: u8) -> Resolution
    ensures { result ≡ refused_with k }
{
    Resolution {
        refusal: k,
        signal: 0,
        used: 0,
        skipped: 0,
    }
}

// The value's number if it is refused, else k.
pub fn first_number(v: &[u8], k: u8) -> u8
    ensures { result ≡ cond (eqb (refusal_of v.now) 0) k (refusal_of v.now) }
{
    let n = value_reader::refusal(v);
    if n == 0 { k } else { n }
}

// Refused with that number.
pub fn value_first(v: &[u8], k: u8) -> Resolution
    ensures { result ≡ refused_with (cond (eqb (refusal_of v.now) 0) k (refusal_of v.now)) }
{
    refused(first_number(v, k))
}

// The signal where a resolver is.
#[tactic(auto, unfolding(crate::specs::Run::signal_now))]
fn signal_at(x: Current) -> u8
    ensures { result ≡ signal_now x.entry }
{
    match x {
        Current::Direct { state, tries: _ } => state.signal,
        Current::Walking(walk, j) => walk.signal(j),
    }
}

// The answer at the end of a value.
#[tactic(auto, unfolding(crate::specs::Run::answer_of, base_numbers::specs::Refusals::refusal_number))]
fn answer(p: Point) -> Resolution
    requires { p.used + p.skipped ≤ suc most_value_bytes }
    ensures { result ≡ answer_of p.entry (signal_now p.entry.current) }
{
    if MOST_ENTRIES < p.used + p.skipped {
        return refused(u8::from(Refusal::TooManyEntries));
    }
    Resolution {
        refusal: 0,
        signal: signal_at(p.current),
        used: p.used as u8,
        skipped: p.skipped as u8,
    }
}

// A whole value, from where a resolver begins; no candidate is tried yet.
#[tactic(auto, unfolding(crate::specs::Run::ended_from, base_numbers::specs::Refusals::refusal_number))]
pub fn resolved<'a>(t: &[u8], d: &Decoded, from: Current<'a>, v: &[u8]) -> Ended<'a>
    ensures { result ≡ ended_from t.now d.now from.entry v.now }
{
    if MOST_VALUE_BYTES < v.len() {
        return Ended {
            answer: refused(u8::from(Refusal::ValueTooLong)),
            last: from,
        };
    }
    let first = begin_at(from);
    match run(t, d, first, v) {
        Some(p) => Ended {
            answer: answer(p),
            last: p.current,
        },
        None => Ended {
            answer: refused(u8::from(Refusal::ValueMisfit)),
            last: first.current,
        },
    }
}

// The same by direct resolution, from wherever it is.
pub fn direct<'a>(t: &[u8], d: &Decoded, from: Current<'a>, v: &[u8]) -> Ended<'a>
    ensures { result ≡ ended_from t.now d.now from.entry v.now }
{
    resolved(t, d, from, v)
}
