// The commands of a case: each prints its answer without the line's end.
//   value V          refusal number, number of entries, then start:length of each entry's URI
//   entry V k        refusal number, the URI's bytes
//   table T          refusal number
//   plain T V        refusal number, signal, used, skipped, tries
//   build T ROOM     refusal number, length, image; the bytes after it are told only if one is not 0
//   newtable N       refusal number of a table with the tree written once
//   tonew T ROOM     refusal number, length, tree form; the bytes after it as above
//   toold N ROOM     refusal number, length, table; the same
//   check T M        refusal number
//   walk T M V       refusal number, signal, used, skipped of the machine resolver
//   smallwalk T SM V refusal number, signal, used, skipped of the resolver of small images
//   early T V        refusal number, signal, entries needed
//   available T SET V  refusal number, signal, used, skipped; SET is a number, bit s for signal s
//   pair RINGS LAMPS V  refusal number, ring, lamp
//   keeps T SET NODE  refusal number, kept, what the list shown rings, the list's nodes
//   rings T SET SIGNAL  refusal number, whether some list rings it, the list's nodes
//   log T LOG        refusal number, agrees, call, signal, used, skipped
//   sample T SEED ROOM  refusal number, length, seed after it, the value; the bytes after it are told only if one has changed
//   match T URI      refusal number, category (-1 if the URI is skipped), node, whole, bytes compared
use crate::{numbers, print};
use resolve_run::Resolution;
use sample_seed::Seed;
use std::io;
use value_cursor::{Cursor, Found, Span};

fn span(out: &impl Print, p: Span) -> io::Result<()> {
    let start = p.start;
    let len = p.len;
    print!(out; " {start}:{len}")
}

// The entry at the cursor, and the cursor after it.
fn entry_at(out: &impl Print, v: &[u8], c: Cursor) -> io::Result<Cursor> {
    match c.entry(v) {
        Some(Found::More(p, next)) => {
            span(out, p)?;
            Ok(next)
        }
        Some(Found::Last(p)) => {
            span(out, p)?;
            Ok(c)
        }
        None => Ok(c),
    }
}

pub fn value(out: &impl Print, v: &[u8]) -> io::Result<()> {
    let n = value_reader::entries(v);
    print::number(out, usize::from(value_reader::refusal(v)))?;
    print::next(out, n)?;
    let mut c = Cursor { at: 0 };
    for _ in 0..n {
        c = entry_at(out, v, c)?;
    }
    Ok(())
}

pub fn entry(out: &impl Print, line: &[u8], v: &[u8]) -> io::Result<()> {
    let k = program_lines::number(program_lines::word(line, 2));
    print::number(out, usize::from(value_reader::entry_refusal(v, k)))?;
    print::bytes(out, value_reader::entry(v, k))
}

pub fn table(out: &impl Print, t: &[u8]) -> io::Result<()> {
    print::number(out, usize::from(machine_library::refusal(t)))
}

pub fn tree(out: &impl Print, t: &[u8]) -> io::Result<()> {
    print::number(out, usize::from(tree_library::refusal(t)))
}

pub fn match_urn(out: &impl Print, t: &[u8], uri: &[u8]) -> io::Result<()> {
    let m = machine_library::match_urn(t, uri);
    print::number(out, usize::from(m.refusal))?;
    if m.used == 0 {
        print::text(out, " -1")?;
    } else {
        print::next(out, usize::from(m.category))?;
    }
    print::next(out, usize::from(m.node))?;
    print::next(out, usize::from(m.whole))?;
    print::next(out, m.compared as usize)
}

pub fn resolution(out: &impl Print, r: Resolution) -> io::Result<()> {
    print::three(out, r.refusal, r.signal, r.used)?;
    print::next(out, usize::from(r.skipped))
}

pub fn plain(out: &impl Print, t: &[u8], v: &[u8]) -> io::Result<()> {
    let r = resolve_library::plain(t, v);
    print::three(out, r.refusal, r.signal, r.used)?;
    print::next(out, usize::from(r.skipped))?;
    print::next(out, usize::from(r.tries))
}

pub fn early(out: &impl Print, t: &[u8], v: &[u8]) -> io::Result<()> {
    let r = resolve_early::resolve(t, v);
    print::three(out, r.refusal, r.signal, r.entries)
}

pub fn available(out: &impl Print, line: &[u8], t: &[u8], v: &[u8]) -> io::Result<()> {
    let set = numbers::number(program_lines::word(line, 2));
    resolution(out, resolve_available::resolve(t, set, v))
}

// The number that a word says, at most 255.
fn small_number(line: &[u8], i: usize) -> u8 {
    (program_lines::number(program_lines::word(line, i)) % 256) as u8
}

pub fn keeps(out: &impl Print, line: &[u8], t: &[u8]) -> io::Result<()> {
    let set = numbers::number(program_lines::word(line, 2));
    let r = table_kept::kept::keeps(t, set, small_number(line, 3));
    print::three(out, r.refusal, r.kept, r.rings)?;
    let marks = r.marks;
    print::bytes(out, marks.get(..usize::from(r.len)).unwrap_or(&marks))
}

pub fn rings(out: &impl Print, line: &[u8], t: &[u8]) -> io::Result<()> {
    let set = numbers::number(program_lines::word(line, 2));
    let r = table_kept::rung::rings(t, set, small_number(line, 3));
    print::number(out, usize::from(r.refusal))?;
    print::next(out, usize::from(r.rings))?;
    let marks = r.marks;
    print::bytes(out, marks.get(..usize::from(r.len)).unwrap_or(&marks))
}

pub fn pair(out: &impl Print, rings: &[u8], lamps: &[u8], v: &[u8]) -> io::Result<()> {
    let r = resolve_pair::resolve(rings, lamps, v);
    print::three(out, r.refusal, r.ring, r.lamp)
}

pub fn log(out: &impl Print, t: &[u8], calls: &[u8]) -> io::Result<()> {
    let r = log_library::check(t, calls);
    print::number(out, usize::from(r.refusal))?;
    print::next(out, usize::from(r.agrees))?;
    print::next(out, r.call as usize)?;
    print::next(out, usize::from(r.signal))?;
    print::next(out, usize::from(r.used))?;
    print::next(out, usize::from(r.skipped))
}

pub fn walk(out: &impl Print, t: &[u8], m: &[u8], v: &[u8]) -> io::Result<()> {
    resolution(out, resolve_library::machine(t, m, v))
}

pub fn small_walk(out: &impl Print, t: &[u8], m: &[u8], v: &[u8]) -> io::Result<()> {
    resolution(out, resolve_small::resolve(t, m, v))
}

pub fn check(out: &impl Print, t: &[u8], m: &[u8]) -> io::Result<()> {
    print::number(out, usize::from(machine_library::check(t, m)))
}

// So many bytes of a buffer, and what is wrong if the others are not what stood there.
fn written(out: &impl Print, n: usize, buf: &[u8], before: u8, wrong: &str) -> io::Result<()> {
    let (Some(bytes), Some(rest)) = (buf.get(..n), buf.get(n..)) else {
        return print::text(out, " longer than the buffer");
    };
    print::bytes(out, bytes)?;
    if !rest.iter().all(|b| *b == before) {
        print::text(out, wrong)?;
    }
    Ok(())
}

// Room for any form or image, and not zero before.
fn room() -> [u8; 70000] {
    [170u8; 70000]
}

// What is written to a buffer with so much room as the word says: the refusal number, the length, so many bytes, and whether the
// others are 0.
pub fn fill<W: FnOnce(&mut [u8]) -> (u8, usize)>(
    out: &impl Print,
    word: &[u8],
    write: W,
) -> io::Result<()>
    requires { W.IsAlwaysCallable write }
{
    let mut buf = room();
    let Some(part) = buf.get_mut(..program_lines::number(word)) else {
        return print::text(out, "no such room");
    };
    let (refusal, n) = write(part);
    print::number(out, usize::from(refusal))?;
    print::next(out, n)?;
    written(out, n, part, 0, " and then not 0")
}

pub fn build(out: &impl Print, line: &[u8], t: &[u8]) -> io::Result<()> {
    fill(out, program_lines::word(line, 2), |buf| {
        let b = machine_library::build(t, buf);
        (b.refusal, b.len)
    })
}

pub fn to_new(out: &impl Print, line: &[u8], t: &[u8]) -> io::Result<()> {
    fill(out, program_lines::word(line, 2), |buf| {
        let c = tree_library::from_signal_table(t, buf);
        (c.refusal, c.len)
    })
}

pub fn to_old(out: &impl Print, line: &[u8], t: &[u8]) -> io::Result<()> {
    fill(out, program_lines::word(line, 2), |buf| {
        let c = tree_library::to_signal_table(t, buf);
        (c.refusal, c.len)
    })
}

// From the seed that the line's word 2 is, with so much room as its word 3 says: the refusal number, the length, the seed, so many
// bytes, and whether the others stayed.
pub fn sample(out: &impl Print, line: &[u8], t: &[u8]) -> io::Result<()> {
    let mut seed = Seed {
        x: numbers::number(program_lines::word(line, 2)),
    };
    let mut buf = room();
    let Some(part) = buf.get_mut(..program_lines::number(program_lines::word(line, 3))) else {
        return print::text(out, "no such room");
    };
    let (refusal, n) = match sample_library::make(t, &mut seed, part) {
        Ok(n) => (0, n),
        Err(r) => (u8::from(r), 0),
    };
    print::number(out, usize::from(refusal))?;
    print::next(out, n)?;
    print::next(out, seed.x as usize)?;
    written(out, n, part, 170, " and then changed")
}
