// Answers the cases of the files that are named on the command line, one line each. A case is a line `COMMAND = ANSWER`,
// bytes in hex, `-` for none; what stands after the equals sign is not read here. Lines that begin with `#`, and empty
// ones, are no cases.
#![tactic(auto)]

mod commands;
mod fields;
mod numbers;
mod print;
mod smaller;
mod tally_cases;

use program_system::{System, path_room, read_full};
use std::io;
use std::rt::Runtime;

// What a line asks.
#[derive(Clone, Copy)]
enum Command {
    Value,
    Entry,
    Table,
    Plain,
    Build,
    NewTable,
    ToNew,
    ToOld,
    Check,
    Walk,
    SmallWalk,
    Early,
    Available,
    Pair,
    Keeps,
    Rings,
    Log,
    Sample,
    Match,
    Feed,
    Tally,
    Classes,
    Small,
    Propose,
}

// The command of a line, told by the letters in which its name differs from those that begin like it.
fn command_of(line: &[u8]) -> Option<Command> {
    let after_a = program_lines::first(program_lines::after(line, b'a'));
    let after_l = program_lines::after(program_lines::after(line, b'l'), b'l');
    match line {
        [b'v', ..] => Some(Command::Value),
        [b'e', b'a', ..] => Some(Command::Early),
        [b'e', ..] => Some(Command::Entry),
        [b't', b'o', b'n', ..] => Some(Command::ToNew),
        [b't', b'o', b'b', ..] => Some(Command::Build),
        [b't', b'o', ..] => Some(Command::ToOld),
        [b't', ..] if after_a == b'l' => Some(Command::Tally),
        [b't', ..] => Some(Command::Table),
        [b'p', b'a', ..] => Some(Command::Pair),
        [b'p', b'r', ..] => Some(Command::Propose),
        [b'p', ..] => Some(Command::Plain),
        [b'b', ..] => Some(Command::Build),
        [b'n', ..] => Some(Command::NewTable),
        [b'c', b'l', ..] => Some(Command::Classes),
        [b'c', ..] => Some(Command::Check),
        [b'w', ..] => Some(Command::Walk),
        [b'm', ..] => Some(Command::Match),
        [b'l', ..] => Some(Command::Log),
        [b'a', ..] => Some(Command::Available),
        [b'f', ..] => Some(Command::Feed),
        [b'k', ..] => Some(Command::Keeps),
        [b'r', ..] => Some(Command::Rings),
        [b's', b'a', ..] => Some(Command::Sample),
        [b's', ..] if program_lines::first(after_l) == b'w' => Some(Command::SmallWalk),
        [b's', ..] => Some(Command::Small),
        _ => None,
    }
}

// The answer to one line, whose words after the first are these bytes where they are bytes.
fn answer(out: &impl Print, line: &[u8], a: &[u8], b: &[u8], c: &[u8]) -> io::Result<()> {
    let Some(command) = command_of(line) else {
        return Ok(());
    };
    match command {
        Command::Value => commands::value(out, a)?,
        Command::Entry => commands::entry(out, line, a)?,
        Command::Table => commands::table(out, a)?,
        Command::Plain => commands::plain(out, a, b)?,
        Command::Build => commands::build(out, line, a)?,
        Command::NewTable => commands::tree(out, a)?,
        Command::ToNew => commands::to_new(out, line, a)?,
        Command::ToOld => commands::to_old(out, line, a)?,
        Command::Check => commands::check(out, a, b)?,
        Command::Walk => commands::walk(out, a, b, c)?,
        Command::SmallWalk => commands::small_walk(out, a, b, c)?,
        Command::Early => commands::early(out, a, b)?,
        Command::Available => commands::available(out, line, a, c)?,
        Command::Pair => commands::pair(out, a, b, c)?,
        Command::Keeps => commands::keeps(out, line, a)?,
        Command::Rings => commands::rings(out, line, a)?,
        Command::Log => commands::log(out, a, b)?,
        Command::Sample => commands::sample(out, line, a)?,
        Command::Match => commands::match_urn(out, a, b)?,
        Command::Feed => fields::feed(out, line, a, c)?,
        Command::Tally => tally_cases::tally(out, line, a)?,
        Command::Classes => smaller::classes(out, a, b, c)?,
        Command::Small => smaller::small(out, line, a, b, c)?,
        Command::Propose => smaller::propose(out, line, a, b)?,
    }
    print::text(out, "\n")
}

fn decoded(out: &impl Print, line: &[u8]) -> io::Result<()> {
    let mut a = program_system::room();
    let n = program_lines::decode(program_lines::word(line, 1), &mut a);
    let mut b = program_system::room();
    let k = program_lines::decode(program_lines::word(line, 2), &mut b);
    let mut c = program_system::room();
    let m = program_lines::decode(program_lines::word(line, 3), &mut c);
    answer(out, line, &a[..n], &b[..k], &c[..m])
}

// The answers to all lines of a text.
fn answer_all(out: &impl Print, text: &[u8]) -> io::Result<()> {
    for line in text.split_inclusive(|b| *b == b'\n') {
        decoded(out, program_lines::before(line, b'\n'))?;
    }
    Ok(())
}

// Room for the longest file.
fn room() -> [u8; 524288] {
    [0u8; 524288]
}

// The file that argument i names. One that cannot be read has no cases.
fn answer_file<R: Runtime>(system: &System<R>, i: usize) -> io::Result<()> {
    let mut name = path_room();
    let k = system.arg(i, &mut name);
    let mut file = match system.open(&name[..k]) {
        Ok(file) => file,
        Err(error) => return system.fail(&name[..k], error),
    };
    let mut text = room();
    match read_full(&mut file, &mut text) {
        Ok(n) => answer_all(&system.rt, &text[..n]),
        Err(_) => Ok(()),
    }
}

fn main(rt: HostRuntime) -> io::Result<()> {
    let system = System::new(rt, rt.stderr());
    let n = system.arg_count();
    for i in 1..n {
        answer_file(&system, i)?;
    }
    Ok(())
}
