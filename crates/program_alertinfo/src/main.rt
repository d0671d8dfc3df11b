// Picks a ring from the command line: the libraries' answers, in plain words. Files are read up to 65,536 bytes, more
// than the libraries take, so that a longer one is refused by its number.
#![tactic(auto)]

mod answers;
mod fields;
mod files;
mod month;
mod numbers;
mod report;
mod samples;
mod shrink;
mod signals;
mod words;

use files::Call;
use program_system::{System, room};
use std::rt::Runtime;
use std::{io, str};

// What is asked of a table, which is word 2.
#[derive(Clone, Copy)]
enum Command {
    Build,
    Check,
    Match,
    Tally,
    Log,
    Tree,
    Untree,
    Sample,
    Shrink,
    Feed,
    Resolve(Resolver),
}

// How a value is resolved.
#[derive(Clone, Copy)]
enum Resolver {
    Plain,
    Walk,
    Early,
    Available,
    Pair,
    Small,
}

fn usage(to: &impl Print) -> io::Result<()> {
    to.print(
        "usage: alertinfo entries VALUE
       alertinfo build TABLE MACHINE
       alertinfo check TABLE MACHINE
       alertinfo shrink TABLE MACHINE SMALL
       alertinfo resolve TABLE VALUE [MACHINE]
       alertinfo early TABLE VALUE
       alertinfo available TABLE SIGNALS VALUE
       alertinfo pair RINGS LAMPS VALUE
       alertinfo small TABLE SMALL VALUE
       alertinfo match TABLE URI
       alertinfo tree TABLE TREE
       alertinfo untree TREE TABLE
       alertinfo feed TABLE VALUE [VALUE ..]
       alertinfo tally TABLE FILE
       alertinfo log TABLE LOG
       alertinfo sample TABLE SEED COUNT
TABLE, TREE, MACHINE, SMALL, RINGS, LAMPS and LOG are files. VALUE is a file, or the value itself if it begins with '<'.
FILE has one value a line; empty lines are no values. SIGNALS are numbers with commas between, as 0,2,5.
SEED is a number of at most 32 bits. COUNT values are made from it, one a line.
A file that is read may be -, standard input. Several calls may stand in one, the word `then` between.
Status: 0 an answer, 1 refused, 2 no answer; of several calls, the first one's.
",
    )
}

// The URIs of a value, one a line after its number.
fn list(out: &impl Print, v: &[u8]) -> io::Result<()> {
    let n = value_reader::entries(v);
    words::counted(out, n as u64, " entry\n", " entries\n")?;
    for k in 0..n {
        words::count(out, k as u64, " ")?;
        out.write_all(value_reader::entry(v, k))?;
        out.print("\n")?;
    }
    Ok(())
}

fn entries<R: Runtime>(call: &Call<R>) -> io::Result<()> {
    let mut value = room();
    let Some(v) = call.value(2, &mut value) else {
        return Ok(());
    };
    let r = value_reader::refusal(v);
    if r != 0 {
        return words::refused(&call.system.rt, r);
    }
    list(&call.system.rt, v)
}

// What a call of so many words asks of a table, by its first word after the program's name; nothing if it asks nothing of one.
fn asked(name: &str, words: usize) -> Option<Command> {
    if name == "feed" && 3 < words {
        return Some(Command::Feed);
    }
    match (name, words) {
        ("build", 4) => Some(Command::Build),
        ("check", 4) => Some(Command::Check),
        ("match", 4) => Some(Command::Match),
        ("tally", 4) => Some(Command::Tally),
        ("log", 4) => Some(Command::Log),
        ("tree", 4) => Some(Command::Tree),
        ("untree", 4) => Some(Command::Untree),
        ("resolve", 4) => Some(Command::Resolve(Resolver::Plain)),
        ("early", 4) => Some(Command::Resolve(Resolver::Early)),
        ("resolve", 5) => Some(Command::Resolve(Resolver::Walk)),
        ("available", 5) => Some(Command::Resolve(Resolver::Available)),
        ("pair", 5) => Some(Command::Resolve(Resolver::Pair)),
        ("small", 5) => Some(Command::Resolve(Resolver::Small)),
        ("sample", 5) => Some(Command::Sample),
        ("shrink", 5) => Some(Command::Shrink),
        _ => None,
    }
}

fn resolve<R: Runtime>(call: &Call<R>, how: Resolver, t: &[u8]) -> io::Result<()> {
    // the other file, or the signals, stands before the value
    let at = match how {
        Resolver::Available | Resolver::Pair | Resolver::Small => 4,
        Resolver::Plain | Resolver::Walk | Resolver::Early => 3,
    };
    let mut value = room();
    let Some(v) = call.value(at, &mut value) else {
        return Ok(());
    };
    match how {
        Resolver::Plain => answers::plain(&call.system.rt, t, v),
        Resolver::Walk => answers::walk(call, t, v),
        Resolver::Early => answers::early(&call.system.rt, t, v),
        Resolver::Available => answers::available(call, t, v),
        Resolver::Pair => answers::pair(call, t, v),
        Resolver::Small => answers::small(call, t, v),
    }
}

fn by_table<R: Runtime>(call: &Call<R>, command: Command) -> io::Result<()> {
    let mut table = room();
    let Some(t) = call.file(2, &mut table) else {
        return Ok(());
    };
    match command {
        Command::Build => answers::build(call, t),
        Command::Check => answers::check(call, t),
        Command::Match => answers::match_uri(call, t),
        Command::Tally => answers::tally_file(call, t),
        Command::Log => answers::log(call, t),
        Command::Tree => answers::tree(call, t),
        Command::Untree => answers::untree(call, t),
        Command::Sample => samples::print(call, t),
        Command::Shrink => shrink::shrink(call, t),
        Command::Feed => answers::feed(call, t),
        Command::Resolve(how) => resolve(call, how, t),
    }
}

fn answer<R: Runtime>(call: &Call<R>) -> io::Result<()> {
    let mut room = [0u8; 16];
    let name = str::from_utf8(call.word(1, &mut room)).unwrap_or("");
    match (asked(name, call.words), name, call.words) {
        (Some(command), _, _) => by_table(call, command),
        (None, "entries", 3) => entries(call),
        (None, "--help", _) => usage(&call.system.rt),
        (None, _, _) => usage(&call.system.err),
    }
}

// Argument i is the word that ends a call.
fn is_then<R: Runtime>(system: &System<R>, i: usize) -> bool {
    let mut buf = [0u8; 16];
    let n = system.arg(i, &mut buf);
    &buf[..n] == b"then".as_slice()
}

fn main(rt: HostRuntime) -> io::Result<()> {
    let system = System::new(rt, rt.stderr());
    let n = system.arg_count();
    let mut start = 0;
    for i in 1..n {
        if is_then(&system, i) {
            answer(&Call {
                system: &system,
                start,
                words: i.saturating_sub(start),
            })?;
            start = i;
        }
    }
    if start < n {
        answer(&Call {
            system: &system,
            start,
            words: n - start,
        })?;
    }
    Ok(())
}
