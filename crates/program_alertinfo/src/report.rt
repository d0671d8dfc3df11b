// A month as text: a line for each signal, one for each refusal number that occurred, and the total.
use crate::month::Month;
use crate::words;
use std::io;

// n of all as tenths of a percent, the nearest.
fn tenths(n: u32, all: u64) -> u64 {
    if all == 0 || 9007199254740992 < all {
        0
    } else {
        (u64::from(n) * 2000 + all) / (all * 2)
    }
}

// How often something occurred, and its share of all.
fn times(out: &impl Print, n: u32, all: u64) -> io::Result<()> {
    words::counted(out, u64::from(n), " time, ", " times, ")?;
    let share = tenths(n, all);
    words::count(out, share / 10, ".")?;
    words::count(out, share % 10, "%")
}

// How many values the month has.
fn total(m: &Month) -> u64 {
    let chosen = m
        .records
        .iter()
        .fold(0u64, |sum, r| sum.saturating_add(u64::from(r.chosen)));
    m.refusals
        .iter()
        .fold(chosen, |sum, n| sum.saturating_add(u64::from(*n)))
}

// A month by a table of n signals.
pub fn month(out: &impl Print, m: &Month, n: usize) -> io::Result<()> {
    let all = total(m);
    for (i, r) in m.records.iter().enumerate().take(n) {
        print!(out; "signal {i}: ")?;
        times(out, r.chosen, all)?;
        out.print(", ")?;
        words::used_skipped(out, u64::from(r.used), u64::from(r.skipped))?;
        out.print("\n")?;
    }
    for (i, n) in m.refusals.iter().enumerate() {
        if *n != 0 {
            let k = i + 1;
            print!(out; "refused {k}: ")?;
            times(out, *n, all)?;
            out.print(", ")?;
            words::reason(out, k)?;
            out.print("\n")?;
        }
    }
    words::counted(out, all, " value\n", " values\n")?;
    if 0 < m.left_out {
        words::counted(out, m.left_out, " more value, ", " more values, ")?;
        out.print("not counted: a count was full\n")?;
    }
    Ok(())
}
