// One value resolved by two tables without a common category: a signal of each, for ring and lamp.
//
// In: a ring table, a lamp table and a value, each any bytes. Out: a refusal number, or the two signals.
//
//   names.rt  whether the tables have a category in common
#![tactic(auto)]

mod names;

ghost use Rattle.std.specs.Prelude.{◌≡◌};
ghost use Rattle.value_reader.specs.Value.{refusal_of};
ghost use Rattle.table_decode.specs.Decoded.{DecodedAs};
ghost use Rattle.resolve_pair.specs.Pair.{refused as refused_with, signal_in, pair_of};
ghost use Rattle.resolve_pair.specs.Alone.{paired};

use base_numbers::Refusal;
use resolve_run::answer::direct;
use resolve_run::run::at_start;
use table_decode::Decoded;

// A refusal number, 0 if nothing is refused; the ring table's signal; and the lamp table's.
#[repr(C)]
#[derive(Clone, Copy)]
pub struct Pair {
    pub refusal: u8,
    pub ring: u8,
    pub lamp: u8,
}

// Refused: both signals are 0.
fn refused(k: u8) -> Pair
    ensures { result ≡ refused_with k }
{
    Pair {
        refusal: k,
        ring: 0,
        lamp: 0,
    }
}

// The signal of an accepted value with one table.
fn alone(t: &[u8], d: &Decoded, v: &[u8]) -> u8
    ensures { DecodedAs t.now d.now → refusal_of v.now ≡ 0 → result ≡ signal_in t.now v.now }
{
    direct(t, d, at_start(), v).answer.signal
}

// The signals of an accepted value with the ring table and with the lamp table.
fn both(ring: &[u8], lamp: &[u8], v: &[u8]) -> Result<(u8, u8), Refusal>
    ensures { refusal_of v.now ≡ 0 → paired result ≡ pair_of ring.now lamp.now v.now }
{
    let r = table_decode::decode(ring)?;
    let l = table_decode::decode(lamp)?;
    if !names::apart(ring, &r, lamp, &l) {
        return Err(Refusal::SharedCategory);
    }
    Ok((alone(ring, &r, v), alone(lamp, &l, v)))
}

// The value v with the ring table and with the lamp table.
pub fn resolve(ring: &[u8], lamp: &[u8], v: &[u8]) -> Pair
    ensures { result ≡ pair_of ring.now lamp.now v.now }
{
    let n = value_reader::refusal(v);
    if n != 0 {
        return refused(n);
    }
    match both(ring, lamp, v) {
        Ok((a, b)) => Pair {
            refusal: 0,
            ring: a,
            lamp: b,
        },
        Err(r) => refused(u8::from(r)),
    }
}
