// The commands' answers, each for a table that was read and the words after it.
use crate::files::Call;
use crate::{fields, month, report, signals, words};
use program_system::{path_room, room};
use resolve_run::Resolution;
use std::io;
use std::rt::Runtime;

// The first n bytes, a form or an image, go to the file that word 3 names.
fn written<R: Runtime>(call: &Call<R>, refusal: u8, bytes: &[u8], n: usize) -> io::Result<()> {
    if refusal != 0 {
        return words::refused(&call.system.rt, refusal);
    }
    if let Some(form) = bytes.get(..n) {
        if call.write(3, form)? {
            words::count(&call.system.rt, n as u64, " bytes written\n")?;
        }
    }
    Ok(())
}

pub fn build<R: Runtime>(call: &Call<R>, t: &[u8]) -> io::Result<()> {
    let mut image = room();
    let b = machine_library::build(t, &mut image);
    written(call, b.refusal, &image, b.len)
}

// The table with its tree written once.
pub fn tree<R: Runtime>(call: &Call<R>, t: &[u8]) -> io::Result<()> {
    let mut form = room();
    let c = tree_library::from_signal_table(t, &mut form);
    written(call, c.refusal, &form, c.len)
}

// The table of such a tree.
pub fn untree<R: Runtime>(call: &Call<R>, t: &[u8]) -> io::Result<()> {
    let mut form = room();
    let c = tree_library::to_signal_table(t, &mut form);
    written(call, c.refusal, &form, c.len)
}

pub fn check<R: Runtime>(call: &Call<R>, t: &[u8]) -> io::Result<()> {
    let mut image = room();
    let Some(m) = call.file(3, &mut image) else {
        return Ok(());
    };
    let r = machine_library::check(t, m);
    if r != 0 {
        return words::refused(&call.system.rt, r);
    }
    call.system.rt.print("accepted\n")
}

// The plain resolver's answer, with its tries.
pub fn plain(out: &impl Print, t: &[u8], v: &[u8]) -> io::Result<()> {
    let r = resolve_library::plain(t, v);
    if r.refusal != 0 {
        return words::refused(out, r.refusal);
    }
    words::resolved(out, r.signal, u64::from(r.used), u64::from(r.skipped))?;
    out.print(", ")?;
    words::counted(out, u64::from(r.tries), " try\n", " tries\n")
}

fn resolution(out: &impl Print, r: Resolution) -> io::Result<()> {
    if r.refusal != 0 {
        return words::refused(out, r.refusal);
    }
    words::resolved(out, r.signal, u64::from(r.used), u64::from(r.skipped))?;
    out.print("\n")
}

// By the machine that word 4 names.
pub fn walk<R: Runtime>(call: &Call<R>, t: &[u8], v: &[u8]) -> io::Result<()> {
    let mut image = room();
    match call.file(4, &mut image) {
        Some(m) => resolution(&call.system.rt, resolve_library::machine(t, m, v)),
        None => Ok(()),
    }
}

// By the small machine that word 3 names.
pub fn small<R: Runtime>(call: &Call<R>, t: &[u8], v: &[u8]) -> io::Result<()> {
    let mut image = room();
    match call.file(3, &mut image) {
        Some(m) => resolution(&call.system.rt, resolve_small::resolve(t, m, v)),
        None => Ok(()),
    }
}

// With only the signals that word 3 lists.
pub fn available<R: Runtime>(call: &Call<R>, t: &[u8], v: &[u8]) -> io::Result<()> {
    let mut text = path_room();
    match signals::read(call.word(3, &mut text)) {
        Some(set) => resolution(&call.system.rt, resolve_available::resolve(t, set, v)),
        None => call
            .system
            .err
            .print("SIGNALS are numbers from 0 to 31 with commas between\n"),
    }
}

// A ring by this table, and a lamp by the one that word 3 names.
pub fn pair<R: Runtime>(call: &Call<R>, t: &[u8], v: &[u8]) -> io::Result<()> {
    let mut table = room();
    let Some(lamps) = call.file(3, &mut table) else {
        return Ok(());
    };
    let r = resolve_pair::resolve(t, lamps, v);
    if r.refusal != 0 {
        return words::refused(&call.system.rt, r.refusal);
    }
    let ring = r.ring;
    let lamp = r.lamp;
    print!(&call.system.rt; "ring {ring}, lamp {lamp}\n")
}

// The signal, and how many entries it needed.
pub fn early(out: &impl Print, t: &[u8], v: &[u8]) -> io::Result<()> {
    let r = resolve_early::resolve(t, v);
    if r.refusal != 0 {
        return words::refused(out, r.refusal);
    }
    out.print("signal ")?;
    words::count(out, u64::from(r.signal), " after ")?;
    words::counted(out, u64::from(r.entries), " entry\n", " entries\n")
}

fn found(out: &impl Print, m: machine_library::Match) -> io::Result<()> {
    let category = m.category;
    let node = m.node;
    let whole = if m.whole == 1 { "whole" } else { "not whole" };
    print!(out; "category {category}, node {node}, {whole}, ")?;
    words::counted(
        out,
        m.compared as u64,
        " byte compared\n",
        " bytes compared\n",
    )
}

// What the URI that word 3 is means to the table.
pub fn match_uri<R: Runtime>(call: &Call<R>, t: &[u8]) -> io::Result<()> {
    let mut uri = room();
    let m = machine_library::match_urn(t, call.word(3, &mut uri));
    if m.refusal != 0 {
        return words::refused(&call.system.rt, m.refusal);
    }
    if m.used == 0 {
        return call.system.rt.print("skipped\n");
    }
    found(&call.system.rt, m)
}

// The values of one message, from word 3 on: the signal at the end and the counts of all, or the last refusal if no
// value is accepted.
pub fn feed<R: Runtime>(call: &Call<R>, t: &[u8]) -> io::Result<()> {
    let Some(m) = fields::all_of(call, t)? else {
        return Ok(());
    };
    match m.counts {
        Ok(counts) => {
            words::resolved(
                &call.system.rt,
                m.carried.signal,
                counts.used as u64,
                counts.skipped as u64,
            )?;
            call.system.rt.print("\n")
        }
        Err(k) => words::refused(&call.system.rt, k),
    }
}

// The month of the values in the file that word 3 names, one a line.
pub fn tally_file<R: Runtime>(call: &Call<R>, t: &[u8]) -> io::Result<()> {
    let k = machine_library::refusal(t);
    if k != 0 {
        return words::refused(&call.system.rt, k);
    }
    let Some(mut from) = call.opened(3)? else {
        return Ok(());
    };
    match month::of_file(&mut from, t) {
        Ok(m) => report::month(&call.system.rt, &m, tally_library::month::needed(t)),
        Err(_) => call.complain(3, ": it cannot be read to its end\n"),
    }
}

// Whether each call of the log that word 3 names has the right answer.
pub fn log<R: Runtime>(call: &Call<R>, t: &[u8]) -> io::Result<()> {
    let mut calls = room();
    let Some(log) = call.file(3, &mut calls) else {
        return Ok(());
    };
    let r = log_library::check(t, log);
    if r.refusal != 0 {
        return words::refused(&call.system.rt, r.refusal);
    }
    if r.agrees == 1 {
        return call.system.rt.print("agrees\n");
    }
    call.system.rt.print("call ")?;
    words::count(&call.system.rt, r.call as u64, " does not agree: right is ")?;
    words::resolved(
        &call.system.rt,
        r.signal,
        u64::from(r.used),
        u64::from(r.skipped),
    )?;
    call.system.rt.print("\n")
}
