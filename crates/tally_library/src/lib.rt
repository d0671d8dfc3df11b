// The monthly count: how often each signal was chosen, with its used and skipped URNs, and how often each refusal was given.
//
// In: a table, a value, and the tally that the caller lends: records by signal and counts by refusal number. Out: the
// plain resolver's answer, counted; or 20, and nothing is.
//
//   judge.rt     a value's resolution, with a refusal counted
//   records.rt   an accepted resolution is added to its signal's record
//   month.rt     the same on records that are handed over by value
#![tactic(auto)]

mod judge;
pub mod month;
mod records;

ghost use Rattle.tally_library.specs.Tally.{Tallied};

use resolve_run::Resolution;

// One signal: how many values chose it, and what these used and skipped in all.
#[repr(C)]
#[derive(Clone, Copy)]
pub struct Tally {
    pub chosen: u32,
    pub used: u32,
    pub skipped: u32,
}

// The value v resolved by the table t, and counted. The crate tally_library_c exports this for C.
pub fn tally_value(t: &[u8], records: &mut [Tally], refusals: &mut [u32], v: &[u8]) -> Resolution
    ensures { Tallied t.now records.old refusals.old v.now result records.new refusals.new }
{
    let r = judge::judge(t, records.len(), refusals, v);
    let s = records::place(r, records.len());
    records::add(records, s, r)
}
