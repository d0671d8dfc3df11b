// The resolvers: which signal of a table an Alert-Info value asks for, or several values of one message.
//
// In: a value, a table and an image, each any bytes. Out: a refusal number, or the signal with the numbers of used and
// skipped entries.
//
//   fields.rt   one value of a message that has several Alert-Info fields
//   by.rt       the plain resolver by a decoded table
//   c.rt        all of it as the crate resolve_library_c exports it for C
#![tactic(auto)]

pub mod by;
pub mod c;
mod fields;

ghost use Rattle.std.specs.Prelude.{◌≡◌};
ghost use Rattle.resolve_library.specs.Resolve.{plain_with, machine_of};
ghost use Rattle.resolve_library.specs.Feed.{fed_as, feed_of};

use base_numbers::{MOST_VALUES, Refusal};
use resolve_record::Carried;
use resolve_run::Resolution;

// The plain resolver's answer: a resolution, and how many candidates its searches tried.
#[repr(C)]
#[derive(Clone, Copy)]
pub struct PlainResolution {
    pub refusal: u8,
    pub signal: u8,
    pub used: u8,
    pub skipped: u8,
    pub tries: u16,
}

// The answer to one value of several, and what is carried to the next.
#[derive(Clone, Copy)]
pub struct Fed {
    pub answer: Resolution,
    pub carried: Carried,
}

// The plain resolver: direct resolution of the value v with the table t.
pub fn plain(t: &[u8], v: &[u8]) -> PlainResolution
    ensures { result ≡ plain_with t.now v.now }
{
    match table_decode::decode(t) {
        Ok(d) => by::tried(t, &d, v),
        Err(r) => by::untried(v, r),
    }
}

// The machine resolver: the walk of the image, as it is stored, over the value v with the table t.
pub fn machine(t: &[u8], image: &[u8], v: &[u8]) -> Resolution
    ensures { result ≡ machine_of t.now image.now v.now }
{
    resolve_small::by_image(t, image, v)
}

// One value more from what is carried, unless the table is refused, or the record does not fit it or has no room.
fn read(t: &[u8], carried: Carried, v: &[u8]) -> Result<Fed, Refusal>
    ensures { fed_as carried result ≡ feed_of t.now carried v.now }
{
    let d = table_decode::decode(t)?;
    if !resolve_record::fits(&d, carried) {
        return Err(Refusal::BadRecord);
    }
    if carried.values == MOST_VALUES {
        return Err(Refusal::TooManyValues);
    }
    Ok(fields::read_from(t, &d, carried, v))
}

// One value of a message that has several: direct resolution goes on from what is carried.
pub fn feed(t: &[u8], carried: Carried, v: &[u8]) -> Fed
    ensures { result ≡ feed_of t.now carried v.now }
{
    match read(t, carried, v) {
        Ok(fed) => fed,
        Err(r) => fields::unchanged(r, carried),
    }
}
