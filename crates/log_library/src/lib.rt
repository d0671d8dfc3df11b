// Logs of calls from other makers: whether every call agrees with direct resolution.
//
// In: a table and a log, each any bytes. Out: a refusal number, or that every call agrees, or the first that does not, with
// the right answer to it. The table is decoded once for all calls.
//
//   c.rt  the same as the crate log_library_c exports it for C
#![tactic(auto)]

pub mod c;

ghost use Rattle.std.specs.Prelude.{◌≡◌, ◌+◌, ◌<◌, get_or};
ghost use Rattle.table_decode.specs.Decoded.{DecodedAs};
ghost use Rattle.log_library.specs.Log.{word_at, calls_of, is_log};
ghost use Rattle.log_library.specs.Verdict.{same_answer, differs as differs_at, judged, verdict_of};

use base_numbers::{MOST_LOG_BYTES, Refusal};
use base_text::cut::part;
use resolve_run::Resolution;
use table_decode::Decoded;

// A refusal number; 1 if every call agrees; else 0, the first call that does not, counted from 0, and the right answer.
#[repr(C)]
#[derive(Clone, Copy)]
pub struct Verdict {
    pub refusal: u8,
    pub agrees: u8,
    pub call: u16,
    pub signal: u8,
    pub used: u8,
    pub skipped: u8,
}

// All zero but these two.
fn without_call(refusal: u8, agrees: u8) -> Verdict
    ensures { result ≡ record { refusal = refusal; agrees = agrees; call = 0; signal = 0; used = 0; skipped = 0 } }
{
    Verdict {
        refusal,
        agrees,
        call: 0,
        signal: 0,
        used: 0,
        skipped: 0,
    }
}

// Call k does not agree, and r is right.
fn differs(k: u16, r: Resolution) -> Verdict
    ensures { result ≡ differs_at k r }
{
    Verdict {
        refusal: 0,
        agrees: 0,
        call: k,
        signal: r.signal,
        used: r.used,
        skipped: r.skipped,
    }
}

// The number that two bytes say, low first.
fn word(log: &[u8], at: usize) -> usize
    requires { at < 18446744073709551615 }
    ensures { (result ≡ word_at log.now at) × (result < 65536) }
{
    let low = log.get(at).copied().unwrap_or(0);
    let high = log.get(at + 1).copied().unwrap_or(0);
    usize::from(low) + 256 * usize::from(high)
}

// Not too long, and it ends with its last call.
fn is_log(log: &[u8]) -> bool
    ensures { result ≡ is_log log.now }
{
    let n = log.len();
    if MOST_LOG_BYTES < n {
        return false;
    }
    let calls = word(log, 0);
    let mut at: usize = 2;
    for _call in 0..calls {
        let end = at + 2 + word(log, at);
        let next = end + 3;
        if n < next {
            return false;
        }
        at = next;
    }
    at == n
}

// The three bytes at a position are the resolution's.
#[tactic(auto, unfolding(crate::specs::Verdict::same_answer))]
fn says(log: &[u8], at: usize, r: Resolution) -> bool
    requires { at < 18446744073709551613 }
    ensures { result ≡ same_answer r (get_or log.now at 0) (get_or log.now (at + 1) 0) (get_or log.now (at + 2) 0) }
{
    r.signal == log.get(at).copied().unwrap_or(0)
        && r.used == log.get(at + 1).copied().unwrap_or(0)
        && r.skipped == log.get(at + 2).copied().unwrap_or(0)
}

// The calls in turn, by the table t, decoded as d.
fn judge(t: &[u8], d: &Decoded, log: &[u8]) -> Verdict
    requires { DecodedAs t.now d.now }
    ensures { result ≡ judged t.now 0 (calls_of log.now) }
{
    let calls = word(log, 0);
    let mut at: usize = 2;
    for k in 0..calls {
        let n = word(log, at);
        let end = at + 2 + n;
        let r = resolve_library::by::accepted(t, d, part(log, at + 2, n));
        if !says(log, end, r) {
            return differs(k as u16, r);
        }
        at = end + 3;
    }
    without_call(0, 1)
}

// The verdict on a log by the table t.
pub fn check(t: &[u8], log: &[u8]) -> Verdict
    ensures { result ≡ verdict_of t.now log.now }
{
    match table_decode::decode(t) {
        Ok(d) => {
            if is_log(log) {
                judge(t, &d, log)
            } else {
                without_call(u8::from(Refusal::BadLog), 0)
            }
        }
        Err(r) => without_call(u8::from(r), 0),
    }
}
