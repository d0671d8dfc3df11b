// Smaller machines: one class is proposed for each state of an image.
//
// In: a table, an image and a proposal, each any bytes, and a buffer. Out: a refusal number; the length of the small image
// or of the proposal, and the whole buffer.
//
//   image.rt  what is answered for an image of right form
//   c.rt      all of it as the crate small_library_c exports it for C
#![tactic(auto)]

use base_numbers::{MOST_CATEGORIES, Refusal};

pub mod c;
mod image;

ghost use Rattle.std.specs.Prelude.{◌≡◌, length};
ghost use Rattle.small_library.specs.Smaller.{classes_refusal, small_from, small_buffer, proposed_from, proposed_buffer};
ghost use Rattle.small_library.specs.Rows.{Judges};
ghost use Rattle.machine_check.specs.Checks.{check_number};

pub use base_bytes::Built;

// How many bytes each state of the image has before its targets, or what the checker says of it.
fn judge(t: &[u8], im: &[u8]) -> Result<usize, Refusal>
    ensures { Judges t.now im.now result }
{
    let d = table_decode::decode(t)?;
    let s = machine_symbols::list(&d);
    machine_check::check_by(&d, &s, im)?;
    Ok(d.categories.min(MOST_CATEGORIES) + 1)
}

// The proposal fits the image's machine, or what is wrong.
fn checked(t: &[u8], im: &[u8], p: &[u8]) -> Result<(), Refusal>
    ensures { check_number result ≡ classes_refusal t.now im.now p.now }
{
    let head = judge(t, im)?;
    image::fit(im, p, head)
}

// 0 if the proposal fits the image's machine, else the number of what is wrong.
pub fn check(t: &[u8], im: &[u8], p: &[u8]) -> u8
    ensures { result ≡ classes_refusal t.now im.now p.now }
{
    match checked(t, im, p) {
        Ok(()) => 0,
        Err(r) => u8::from(r),
    }
}

// The small image of the proposal's classes, written to the buffer with zeros after it; or all zeros and the number of the
// refusal.
pub fn write(t: &[u8], im: &[u8], p: &[u8], buf: &mut [u8]) -> Built
    ensures value { result ≡ small_from t.now im.now p.now (length buf.old) }
    ensures buf_after { buf.new ≡ small_buffer t.now im.now p.now (length buf.old) }
{
    match judge(t, im) {
        Ok(head) => image::write(im, p, buf, head),
        Err(r) => base_bytes::refuse(buf, u8::from(r)),
    }
}

// The smallest machine's proposal, its classes numbered by their first states, written to the buffer in the same way.
pub fn propose(t: &[u8], im: &[u8], buf: &mut [u8]) -> Built
    ensures value { result ≡ proposed_from t.now im.now (length buf.old) }
    ensures buf_after { buf.new ≡ proposed_buffer t.now im.now (length buf.old) }
{
    match judge(t, im) {
        Ok(head) => image::propose(im, buf, head),
        Err(r) => base_bytes::refuse(buf, u8::from(r)),
    }
}
