// A call of the program: its words, and the files that they name. `-` names standard input.
ghost use Rattle.std.specs.Prelude.{◌≡◌, length, take};
ghost use Rattle.std.specs.Io.{ReadsAtMost};

use program_system::{Source, System, path_room, read_full};
use std::io;
use std::io::Write;
use std::rt::Runtime;

// A call of some words, of which the first stands before the command. Several calls may stand in one; each begins after the
// argument `start`.
#[derive(Drop)]
pub struct Call<'a, R: Runtime> {
    pub system: &'a System<R>,
    pub start: usize,
    pub words: usize,
}

impl<'a, R: Runtime> Call<'a, R> {
    // Which argument word i is.
    fn argument(&self, i: usize) -> usize {
        if self.start < 65536 && i < 65536 {
            self.start + i
        } else {
            i
        }
    }

    // Word i, at the start of the buffer; nothing if there is none, or it is longer than that.
    pub fn word<'b>(&self, i: usize, buf: &'b mut [u8]) -> &'b [u8] {
        let n = self.system.arg(self.argument(i), buf);
        &buf[..n]
    }

    // The start of the file that word i names, as much as fits. A file that cannot be read is named on standard error, with the
    // system's reason, as far as standard error takes it.
    pub fn file<'b>(&self, i: usize, buf: &'b mut [u8]) -> Option<&'b [u8]> {
        let mut room = path_room();
        let name = self.word(i, &mut room);
        match read(self.system, name, buf) {
            Ok(n) => Some(&buf[..n]),
            Err(error) => {
                let _told = self.system.fail(name, error).is_ok();
                None
            }
        }
    }

    // The value that word i is, if it begins with `<`; else the value in the file that it names, folded lines as they stand,
    // without a line end, LF or CR LF, behind it.
    pub fn value<'b>(&self, i: usize, buf: &'b mut [u8]) -> Option<&'b [u8]> {
        let n = self.system.arg(self.argument(i), buf);
        if buf[..n].first() == Some(&b'<') {
            return Some(&buf[..n]);
        }
        let mut room = path_room();
        match read(self.system, self.word(i, &mut room), buf) {
            Ok(n) => Some(without_line_end(&buf[..n])),
            Err(_) => {
                let _told = self
                    .complain(
                        i,
                        ": neither a file that can be read nor a value, which begins with '<'\n",
                    )
                    .is_ok();
                None
            }
        }
    }

    // The file that word i names, opened. One that cannot be is named on standard error.
    pub fn opened(&self, i: usize) -> io::Result<Option<Source<R::Reader, R::File>>> {
        let mut room = path_room();
        let name = self.word(i, &mut room);
        match open(self.system, name) {
            Ok(from) => Ok(Some(from)),
            Err(error) => {
                self.system.fail(name, error)?;
                Ok(None)
            }
        }
    }

    // The file that word i names is told on standard error, with a reason of our own.
    pub fn complain(&self, i: usize, reason: &str) -> io::Result<()> {
        let mut room = path_room();
        Print::write_all(&self.system.err, self.word(i, &mut room))?;
        self.system.err.print(reason)
    }

    // The bytes go to the file that word i names, made or emptied, and whether they did. What fails is told on standard error.
    pub fn write(&self, i: usize, bytes: &[u8]) -> io::Result<bool> {
        let mut room = path_room();
        let name = self.word(i, &mut room);
        let mut file = match self.system.create(name) {
            Ok(file) => file,
            Err(error) => {
                self.system.fail(name, error)?;
                return Ok(false);
            }
        };
        let ok = file.write_all(bytes).is_ok();
        if !ok {
            self.complain(i, ": it cannot be written to its end\n")?;
        }
        Ok(ok)
    }
}

// The file with this name, opened; `-` is standard input.
fn open<R: Runtime>(system: &System<R>, path: &[u8]) -> io::Result<Source<R::Reader, R::File>> {
    if path == b"-".as_slice() {
        return Ok(system.input());
    }
    Ok(Source::File(system.open(path)?))
}

// The start of the file with this name, as much as fits.
fn read<R: Runtime>(system: &System<R>, path: &[u8], buf: &mut [u8]) -> io::Result<usize>
    ensures { ReadsAtMost result buf.new }
{
    let mut from = open(system, path)?;
    read_full(&mut from, buf)
}

// The text without a line end, LF or CR LF, behind it: a front part of it.
fn without_line_end(text: &[u8]) -> &[u8]
    ensures { result.now ≡ take (length result.now) text.now }
{
    match text {
        [line @ .., b'\r', b'\n'] => line,
        [line @ .., b'\n'] => line,
        line => line,
    }
}
