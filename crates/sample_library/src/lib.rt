// Values to test with, made by a table and a seed: 1 to 8 entries, each a URI in angle brackets and nothing else.
//
// In: a table, the seed, which is lent, and a buffer. Out: a refusal number, or the length of the value in the buffer; the
// seed has gone on once for each choice.
//
//   entry.rt  one entry written
#![tactic(auto)]

mod entry;

ghost use Rattle.std.specs.Prelude.{◌≡◌, ◌≤◌, length};
ghost use Rattle.base_numbers.specs.Numbers.{sample_room};
ghost use Rattle.base_lists.specs.Lists.{over};
ghost use Rattle.sample_library.specs.Sample.{sample_of, made_of, buffer_of, told, answer_of};
ghost use Rattle.sample_library.specs.Written.{Ready};

use base_numbers::{Refusal, SAMPLE_ROOM};
use sample_seed::{Seed, choice};
use table_decode::Decoded;

// A refusal number, and the length of the value.
#[repr(C)]
#[derive(Clone, Copy)]
pub struct Answer {
    pub refusal: u8,
    pub len: usize,
}

// The entries by a well-formed table, into a buffer that has room for them. It answers the length of the value.
fn entries(t: &[u8], d: &Decoded, seed: &mut Seed, buf: &mut [u8]) -> usize
    requires { Ready t.now d.now × (sample_room ≤ length buf.old) }
    ensures { (result ≡ length (sample_of t.now seed.old.x).value) × (seed.new.x ≡ (sample_of t.now seed.old.x).seed)
        × (buf.new ≡ over (sample_of t.now seed.old.x).value buf.old) }
{
    let more = choice(seed.draw(), 8);
    let mut len = entry::entry(t, d, seed, buf, 0);
    for _ in 0..more {
        buf[len] = b',';
        len = entry::entry(t, d, seed, buf, len + 1);
    }
    len
}

// A value from the seed, which goes on: its length. Refused, neither the buffer nor the seed changes.
pub fn make(t: &[u8], seed: &mut Seed, buf: &mut [u8]) -> Result<usize, Refusal>
    ensures { (told result ≡ answer_of (made_of t.now seed.old.x (length buf.old)))
        × (seed.new.x ≡ (made_of t.now seed.old.x (length buf.old)).seed)
        × (buf.new ≡ buffer_of t.now seed.old.x buf.old) }
{
    let d = table_decode::decode(t)?;
    if buf.len() < SAMPLE_ROOM {
        return Err(Refusal::SampleNoRoom);
    }
    Ok(entries(t, &d, seed, buf))
}

// The same as numbers. The crate sample_library_c exports this for C.
pub fn sample_value_make(t: &[u8], seed: &mut Seed, buf: &mut [u8]) -> Answer
    ensures { (result ≡ answer_of (made_of t.now seed.old.x (length buf.old)))
        × (seed.new.x ≡ (made_of t.now seed.old.x (length buf.old)).seed)
        × (buf.new ≡ buffer_of t.now seed.old.x buf.old) }
{
    match make(t, seed, buf) {
        Ok(len) => Answer { refusal: 0, len },
        Err(k) => Answer {
            refusal: u8::from(k),
            len: 0,
        },
    }
}
