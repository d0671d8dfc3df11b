// The signal of an Alert-Info value, answered at the first entry after which none that follows can change it.
//
// In: a table and a value, each any bytes. Out: a refusal number, or the signal and how many entries were needed for it.
//
//   settled.rt  whether a state is settled: no URN leads from it to another signal
//   run.rt      going through a value from entry to entry, until the state is settled
#![tactic(auto)]

mod run;
mod settled;

ghost use Rattle.std.specs.Prelude.{◌≡◌, ◌≤◌, length};
ghost use Rattle.base_numbers.specs.Numbers.{most_value_bytes};
ghost use Rattle.table_decode.specs.Decoded.{DecodedAs};
ghost use Rattle.resolve_early.specs.Early.{refused as refused_with, early_of};

use base_numbers::{MOST_VALUE_BYTES, Refusal};
use resolve_run::answer::first_number;
use table_decode::Decoded;

// A refusal number, 0 if the question is answered; the signal; and how many entries were needed.
#[repr(C)]
#[derive(Clone, Copy)]
pub struct Early {
    pub refusal: u8,
    pub signal: u8,
    pub entries: u8,
}

// A refused question has signal 0 and no entries.
fn refused(k: u8) -> Early
    ensures { result ≡ refused_with k }
{
    Early {
        refusal: k,
        signal: 0,
        entries: 0,
    }
}

// The value v with the table t, decoded as d.
fn by(t: &[u8], d: &Decoded, v: &[u8]) -> Early
    requires { length v.now ≤ most_value_bytes }
    ensures { DecodedAs t.now d.now → result ≡ early_of t.now v.now }
{
    match run::run(t, d, v) {
        Some(r) => Early {
            refusal: 0,
            signal: r.signal,
            entries: r.entries,
        },
        None => refused(value_reader::refusal(v)),
    }
}

// The value v with the table t.
pub fn resolve(t: &[u8], v: &[u8]) -> Early
    ensures { result ≡ early_of t.now v.now }
{
    match table_decode::decode(t) {
        Ok(d) => {
            if MOST_VALUE_BYTES < v.len() {
                refused(u8::from(Refusal::ValueTooLong))
            } else {
                by(t, &d, v)
            }
        }
        Err(r) => refused(first_number(v, u8::from(r))),
    }
}
