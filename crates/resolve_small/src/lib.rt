// The resolvers by an image: the signal that an Alert-Info value asks for, by a machine as it is built or by one made smaller.
//
// In: a table, an image or a small image, and a value, each any bytes. Out: a refusal number, or the signal with the numbers of
// used and skipped entries.
#![tactic(auto)]

ghost use Rattle.std.specs.Prelude.{◌≡◌, ◌≤◌};
ghost use Rattle.table_decode.specs.Decoded.{DecodedAs};
ghost use Rattle.table_decode.specs.Tables.{table_of};
ghost use Rattle.resolve_small.specs.Resolve.{resolved_over, resolved_small};

use base_numbers::Refusal;
use resolve_run::Resolution;
use resolve_run::answer::{resolved, value_first};
use resolve_run::run::{Current, Walk};
use table_decode::Decoded;

// The walk of an image, as it is stored, over the value v with the table t, decoded as d. The image's states have a byte for each of
// so many categories (`cats`): the table's in an image, none in a small one.
fn walk(t: &[u8], d: &Decoded, cats: usize, image: &[u8], v: &[u8]) -> Resolution
    requires { DecodedAs t.now d.now × (cats ≤ d.now.categories) }
    ensures { result ≡ resolved_over cats t.now image.now v.now }
{
    let symbols = machine_symbols::list(d);
    if !machine_check::form::formed(d, &symbols, cats, image) {
        return value_first(v, u8::from(Refusal::ImageBadForm));
    }
    let by = Walk {
        index: &symbols.index,
        symbols: &symbols.bytes,
        count: symbols.count,
        categories: cats,
        image,
    };
    resolved(t, d, Current::Walking(by, 0), v).answer
}

// The walk of the image of a machine as it is built.
pub fn by_image(t: &[u8], image: &[u8], v: &[u8]) -> Resolution
    ensures { result ≡ resolved_over (table_of t.now).cats t.now image.now v.now }
{
    match table_decode::decode(t) {
        Ok(d) => walk(t, &d, d.categories, image, v),
        Err(r) => value_first(v, u8::from(r)),
    }
}

// The walk of the small image over the value v with the table t.
pub fn resolve(t: &[u8], small: &[u8], v: &[u8]) -> Resolution
    ensures { result ≡ resolved_small t.now small.now v.now }
{
    match table_decode::decode(t) {
        Ok(d) => walk(t, &d, 0, small, v),
        Err(r) => value_first(v, u8::from(r)),
    }
}
