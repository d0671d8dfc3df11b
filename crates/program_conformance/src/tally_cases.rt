// The command `tally T RECORDS REFUSALS V`: refusal number, and the records and refusal counts after the value. A record is
// `chosen:used:skipped`; `;` stands between records and between counts, `-` for none.
use crate::{numbers, print};
use program_system::room;
use std::io;
use tally_library::Tally;

// At most 32 records. The library takes them as an array and the number of those that count.
#[derive(Clone, Copy)]
struct Sheet {
    items: [Tally; 32],
    n: usize,
}

fn record(word: &[u8]) -> Tally {
    let rest = program_lines::after(word, b':');
    Tally {
        chosen: numbers::number(program_lines::before(word, b':')),
        used: numbers::number(program_lines::before(rest, b':')),
        skipped: numbers::number(program_lines::after(rest, b':')),
    }
}

// The first 32 records of a word.
fn records(text: &[u8]) -> Sheet {
    let zero = Tally {
        chosen: 0,
        used: 0,
        skipped: 0,
    };
    let mut items = [zero; 32];
    let mut n = 0;
    if program_lines::first(text) != b'-' {
        for part in text.split_inclusive(|b| *b == b';') {
            if n < 32 {
                items[n] = record(program_lines::before(part, b';'));
                n += 1;
            }
        }
    }
    Sheet { items, n }
}

// The counts of a word into the slice, as many as it holds; how many there are.
fn counts(text: &[u8], out: &mut [u32]) -> usize {
    let mut n = 0;
    if program_lines::first(text) != b'-' {
        for part in text.split_inclusive(|b| *b == b';') {
            if n < out.len() {
                out[n] = numbers::number(program_lines::before(part, b';'));
                n += 1;
            }
        }
    }
    n
}

// What stands before element i: a semicolon between elements.
fn between(out: &impl Print, i: usize) -> io::Result<()> {
    print::text(out, if i == 0 { " " } else { ";" })
}

fn print_records(out: &impl Print, records: &[Tally]) -> io::Result<()> {
    if records.is_empty() {
        print::text(out, " -")?;
    }
    for (i, x) in records.iter().enumerate() {
        between(out, i)?;
        let chosen = x.chosen;
        let used = x.used;
        let skipped = x.skipped;
        print!(out; "{chosen}:{used}:{skipped}")?;
    }
    Ok(())
}

fn print_counts(out: &impl Print, counts: &[u32]) -> io::Result<()> {
    if counts.is_empty() {
        print::text(out, " -")?;
    }
    for (i, x) in counts.iter().enumerate() {
        between(out, i)?;
        print!(out; "{x}")?;
    }
    Ok(())
}

fn answer(out: &impl Print, t: &[u8], r: Sheet, counts: &mut [u32], v: &[u8]) -> io::Result<()> {
    let c = tally_library::month::value(t, r.items, r.n, counts, v);
    let a = c.answer;
    let after = c.records;
    print::number(out, usize::from(a.refusal))?;
    print_records(out, after.get(..r.n).unwrap_or(&after))?;
    print_counts(out, counts)
}

pub fn tally(out: &impl Print, line: &[u8], t: &[u8]) -> io::Result<()> {
    let r = records(program_lines::word(line, 2));
    let mut c = [0u32; 16];
    let m = counts(program_lines::word(line, 3), &mut c);
    let mut v = room();
    let k = program_lines::decode(program_lines::word(line, 4), &mut v);
    match c.get_mut(..m) {
        Some(counts) => answer(out, t, r, counts, &v[..k]),
        None => Ok(()),
    }
}
