// Signal tables and their machines: the builder and the checker, and what a URI is to a table.
//
// In: a table, an image, a URI, each any bytes, and a buffer. Out: a refusal number; the image's length, and the whole buffer; or the
// URI's category and node.
//
//   matching.rt  what a URI is to a table
//   c.rt         all of it as the crate machine_library_c exports it for C
#![tactic(auto)]

pub mod c;
mod matching;

ghost use Rattle.std.specs.Prelude.{◌≡◌, length, OnOk};
ghost use Rattle.table_decode.specs.Tables.{table_refusal};
ghost use Rattle.machine_build.specs.States.{answer_of};
ghost use Rattle.machine_check.specs.Checks.{check_number};
ghost use Rattle.machine_library.specs.Built.{built_from, buffer_from, check_from};
ghost use Rattle.machine_library.specs.Matching.{match_of};

pub use crate::matching::Match;
pub use base_bytes::Built;
use base_numbers::Refusal;
use table_decode::decode;

// 0 if the table is well-formed, else the number that refuses it.
pub fn refusal(t: &[u8]) -> u8
    ensures { result ≡ table_refusal t.now }
{
    table_decode::refusal(t)
}

// The table's machine, written to the buffer: its image and zeros after it; if it is refused, any bytes.
fn written(t: &[u8], buf: &mut [u8]) -> Result<usize, Refusal>
    ensures value { answer_of result ≡ built_from t.now (length buf.old) }
    ensures buf_after { OnOk result (buf.new ≡ buffer_from t.now (length buf.old)) }
{
    let d = decode(t)?;
    let s = machine_symbols::list(&d);
    machine_build::build_by(&d, &s, buf)
}

// The table's machine, written to the buffer: its image and zeros after it, or all zeros and the number of the refusal.
pub fn build(t: &[u8], buf: &mut [u8]) -> Built
    ensures value { result ≡ built_from t.now (length buf.old) }
    ensures buf_after { buf.new ≡ buffer_from t.now (length buf.old) }
{
    match written(t, buf) {
        Ok(len) => Built { refusal: 0, len },
        Err(r) => base_bytes::refuse(buf, u8::from(r)),
    }
}

// The image is a right machine of the table, or what is wrong with one of them.
fn checked(t: &[u8], image: &[u8]) -> Result<(), Refusal>
    ensures { check_number result ≡ check_from t.now image.now }
{
    let d = decode(t)?;
    let s = machine_symbols::list(&d);
    machine_check::check_by(&d, &s, image)
}

// 0 if the image is a right machine of the table, else the number of what is wrong.
pub fn check(t: &[u8], image: &[u8]) -> u8
    ensures { result ≡ check_from t.now image.now }
{
    match checked(t, image) {
        Ok(()) => 0,
        Err(r) => u8::from(r),
    }
}

// What a URI is to the table: its category, the deepest node that it is or lies under, whether it is that node, and the bytes
// compared to find it.
pub fn match_urn(t: &[u8], uri: &[u8]) -> Match
    ensures { result ≡ match_of t.now uri.now }
{
    match decode(t) {
        Ok(d) => matching::answer(node_search::uses::uses(t, &d, uri)),
        Err(r) => matching::unused(u8::from(r)),
    }
}
