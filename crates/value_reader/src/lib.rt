// The reader of the value of a SIP Alert-Info field (RFC 3261, section 20.4).
//
// In: any bytes. Out: a refusal number, the number of entries, and the URI of an entry as a part of the caller's bytes.
// One pass over the bytes; nothing is copied.
//
//   lib.rt    the four questions
//   value.rt  what is answered about a value, from one pass of the crate value_cursor over it
//   c.rt      the four questions as the crate value_reader_c exports them for C
#![tactic(auto)]

pub mod c;
mod value;

ghost use Rattle.std.specs.Prelude.{◌≡◌, ◌+◌};
ghost use Rattle.value_reader.specs.Value.{refusal_of, entries_of, entry_of, span_of, entry_refusal_of};

use crate::value::{judge, place};
use base_numbers::NO_ENTRY;

// The value's refusal number, 0 if it is accepted: 1 over 4,096 bytes, 2 not of the form, 3 over 64 entries.
pub fn refusal(v: &[u8]) -> u8
    ensures { result ≡ refusal_of v.now }
{
    match judge(v, 0) {
        Ok(_) => 0,
        Err(refusal) => u8::from(refusal),
    }
}

// The number of entries, 0 if the value is refused.
pub fn entries(v: &[u8]) -> usize
    ensures { result ≡ entries_of v.now }
{
    match judge(v, 0) {
        Ok(t) => t.entries,
        Err(_) => 0,
    }
}

// The URI of entry k, counted from 0, as a part of the value: it lies in the caller's bytes, where `span_of` has it. Empty
// if the value is refused or has no entry k.
pub fn entry(v: &[u8], k: usize) -> &[u8]
    ensures result_value { result.now ≡ entry_of v.now k }
    ensures ref_ptr_value { (result.ref_ptr.0 ≡ v.entry.ref_ptr.0) × (result.ref_ptr.1 ≡ v.entry.ref_ptr.1 + (span_of v.now k).start) }
{
    let p = place(v, k);
    &v[p.start..p.start + p.len]
}

// The refusal number of entry k: the value's, 18 if there is no entry k, else 0.
pub fn entry_refusal(v: &[u8], k: usize) -> u8
    ensures { result ≡ entry_refusal_of v.now k }
{
    match judge(v, k) {
        Ok(t) => if k < t.entries { 0 } else { NO_ENTRY },
        Err(of_value) => u8::from(of_value),
    }
}
