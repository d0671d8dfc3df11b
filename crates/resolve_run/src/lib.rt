// A value gone through from entry to entry, by direct resolution or by the walk of an image.
//
// In: a table as it is stored and decoded, a value, where a resolver begins, and what it goes by if it walks. Out: its answer,
// and where it is at the end.
//
//   entry.rt    one entry
//   run.rt      from entry to entry
//   answer.rt   the answer at a value's end
#![tactic(auto)]

pub mod answer;
pub mod entry;
pub mod run;

// A refusal number, 0 if neither value nor table is refused; the signal; and how many entries were used and skipped.
#[repr(C)]
#[derive(Clone, Copy)]
pub struct Resolution {
    pub refusal: u8,
    pub signal: u8,
    pub used: u8,
    pub skipped: u8,
}
