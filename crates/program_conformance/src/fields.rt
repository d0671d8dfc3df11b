// The command `feed T RECORD V`: refusal number, signal, used, skipped, and the record after the value. A record is
// `signal/status/values`, its 8 statuses with commas between.
use crate::{commands, print};
use resolve_record::Carried;
use std::io;

fn byte(s: &[u8]) -> u8 {
    u8::try_from(program_lines::number(s)).unwrap_or(255)
}

fn record(word: &[u8]) -> Carried {
    let rest = program_lines::after(word, b'/');
    let statuses = program_lines::before(rest, b'/');
    let mut status = [0u8; 8];
    for (c, place) in status.iter_mut().enumerate() {
        *place = byte(program_lines::part(statuses, b',', c));
    }
    Carried {
        signal: byte(program_lines::before(word, b'/')),
        status,
        values: byte(program_lines::after(rest, b'/')),
    }
}

fn print_record(out: &impl Print, r: Carried) -> io::Result<()> {
    print::next(out, usize::from(r.signal))?;
    for (c, status) in r.status.iter().enumerate() {
        print::text(out, if c == 0 { "/" } else { "," })?;
        print::number(out, usize::from(*status))?;
    }
    print::text(out, "/")?;
    print::number(out, usize::from(r.values))
}

pub fn feed(out: &impl Print, line: &[u8], t: &[u8], v: &[u8]) -> io::Result<()> {
    let f = resolve_library::feed(t, record(program_lines::word(line, 2)), v);
    commands::resolution(out, f.answer)?;
    print_record(out, f.carried)
}
