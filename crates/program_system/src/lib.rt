// The system as the programs see it: arguments and files as bytes, standard input and output, and standard error.
//
// In: the runtime that `main` is given. Out: what it reads, at the start of a buffer, and why it cannot.
#![tactic(auto)]

ghost use Rattle.std.specs.Prelude.{◌≡◌, ◌<◌, length, take, OnErr, IfOk};
ghost use Rattle.std.specs.Io.{ReadsAtMost};
ghost use Rattle.std.specs.Io.KnownBytes.{Consumes, IsAtEnd, Keeps};
ghost use Rattle.program_system.specs.Counts.{IsPrefixLen};

use std::cell::Cell;
use std::env::FillError;
use std::fmt::InlineText;
use std::io::{ErrorKind, Read, Stderr};
use std::rt::Runtime;
use std::{fs, io, str};

// The runtime, whose standard output answers go to, and standard error, which takes any bytes.
#[derive(Drop)]
pub struct System<R: Runtime> {
    pub rt: R,
    pub err: Stderr,
    // standard input is read once
    is_input_spent: Cell<bool>,
}

// What a path names, opened.
#[derive(Drop)]
pub enum Source<I, F> {
    Input(I),
    // standard input that was asked for before
    Spent,
    File(F),
}

// The system's number for a descriptor that is not open.
const NOT_OPEN: i32 = 9;

// What an error says has at most 256 bytes, and its number behind it some 20.
const REASON_BYTES: usize = 288;

impl<I: Read, F: Read> Read for Source<I, F> {
    ghost use Rattle.program_system.specs.Sources.{source_remaining};

    ghost remaining = { source_remaining I.remaining F.remaining };

    fn read(&mut self, buf: &mut [u8]) -> io::Result<usize> {
        match self {
            Source::Input(input) => input.read(buf),
            Source::Spent => Err(io::Error::from_raw_os_error(NOT_OPEN)),
            Source::File(file) => file.read(buf),
        }
    }
}

impl<R: Runtime> System<R> {
    pub fn new(rt: R, err: Stderr) -> Self {
        System {
            rt,
            err,
            is_input_spent: Cell::new(false),
        }
    }

    // How many arguments there are, the program's name among them.
    pub fn arg_count(&self) -> usize {
        for i in 0..usize::MAX {
            if let Err(FillError::NotPresent) = self.rt.arg(i, &mut []) {
                return i;
            }
        }
        usize::MAX
    }

    // Puts argument i at the start of the buffer and answers its length; 0 if there is none, or it is longer than that.
    pub fn arg(&self, i: usize, buf: &mut [u8]) -> usize
        ensures { IsPrefixLen result buf.new }
    {
        match self.rt.arg(i, buf) {
            Ok(n) => n,
            Err(_) => 0,
        }
    }

    // Standard input, which cannot be read where it is asked for again.
    pub fn input(&self) -> Source<R::Reader, R::File> {
        if self.is_input_spent.replace(true) {
            return Source::Spent;
        }
        Source::Input(self.rt.reader())
    }

    // The file with this name, opened for reading.
    pub fn open(&self, path: &[u8]) -> io::Result<R::File> {
        fs::open(&self.rt, path_text(path)?)
    }

    // The file with this name, made or emptied.
    pub fn create(&self, path: &[u8]) -> io::Result<R::File> {
        fs::create(&self.rt, path_text(path)?)
    }

    // What could not be done with the file of this name is told on standard error, with the system's reason.
    pub fn fail(&self, name: &[u8], error: io::Error) -> io::Result<()> {
        let text = InlineText::<REASON_BYTES>::of(error);
        self.err.write_all(name)?;
        self.err.print(": ")?;
        self.err.println(without_number(text.as_str()))
    }
}

// A path as text, which is how the runtime's files are named.
fn path_text(path: &[u8]) -> io::Result<&str> {
    match str::from_utf8(path) {
        Ok(text) => Ok(text),
        Err(_) => Err(io::Error::from(ErrorKind::InvalidFilename)),
    }
}

// What an error says, without the system's number for it.
fn without_number(text: &str) -> &str {
    match text.split_once(" (os error ") {
        Some((reason, _)) => reason,
        None => text,
    }
}

// The start of what is read, as much as fits: until the end, or a read that fails. If the first one fails, as that of a
// folder, that is the error: what is read is not merely empty.
pub fn read_full<F: Read>(from: &mut F, buf: &mut [u8]) -> io::Result<usize>
    ensures bound { ReadsAtMost result buf.new }
    ensures ok { IfOk result (λ n. Consumes (F.remaining from.old) (F.remaining from.new) (take n buf.new)) }
    ensures empty { IfOk result (λ n. n ≡ 0 → 0 < length buf.old → IsAtEnd (F.remaining from.new)) }
    ensures err { OnErr result (Keeps (F.remaining from.old) (F.remaining from.new)) }
{
    let mut done = 0;
    // How much comes is known only when it is read, so no chain goes over it.
    while done < buf.len() {
        match from.read(&mut buf[done..]) {
            Ok(0) => break,
            Ok(n) => done += n,
            Err(error) => {
                if done == 0 {
                    return Err(error);
                }
                break;
            }
        }
    }
    Ok(done)
}

// 65,536 zeros: room for the start of a file.
pub fn room() -> [u8; 65536]
    ensures { 65536 ≡ length result }
{
    [0; 65536]
}

// 4,096 zeros, which hold any path.
pub fn path_room() -> [u8; 4096]
    ensures { 4096 ≡ length result }
{
    [0; 4096]
}

#[cfg(test)]
mod tests {
    use super::*;
    use std::test::Fail;

    // Gives a byte at a time, so many, and then fails.
    #[derive(Drop)]
    struct Failing {
        left: u8,
    }

    impl Read for Failing {
        fn read(&mut self, buf: &mut [u8]) -> io::Result<usize> {
            if self.left == 0 {
                return Err(io::Error::from(ErrorKind::BrokenPipe));
            }
            if buf.len() == 0 {
                return Ok(0);
            }
            self.left -= 1;
            buf[0] = self.left;
            Ok(1)
        }
    }

    #[test]
    fn what_was_read_before_a_failure_counts(rt: HostRuntime) -> Result<(), Fail> {
        let mut buf = [9u8; 4];
        let n = read_full(&mut Failing { left: 2 }, &mut buf)?;
        assert_eq!(rt; n, 2);
        assert_eq!(rt; buf, [1, 0, 9, 9]);
        let none = read_full(&mut Failing { left: 0 }, &mut buf);
        assert!(rt; none.is_err());
        Ok(())
    }

    #[test]
    fn a_reason_has_no_number(rt: HostRuntime) {
        assert_eq!(rt;
            without_number("Is a directory (os error 21)"),
            "Is a directory"
        );
        assert_eq!(rt; without_number("invalid filename"), "invalid filename");
    }
}
