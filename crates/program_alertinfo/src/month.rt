// The month of the values in a file with one value a line: it is read piece by piece, and its values are tallied.
//
// A line ends with LF or CR LF, and a last line without an end counts. An empty line is no value.
use base_numbers::NOT_COUNTED;
use program_system::room;
use std::io;
use std::io::Read;
use tally_library::Tally;

// The tally, and how many values were not counted.
#[derive(Clone, Copy)]
pub struct Month {
    pub records: [Tally; 32],
    pub refusals: [u32; 12],
    pub left_out: u64,
}

impl Month {
    fn new() -> Month {
        Month {
            records: [Tally {
                chosen: 0,
                used: 0,
                skipped: 0,
            }; 32],
            refusals: [0u32; 12],
            left_out: 0,
        }
    }

    // A line has ended: its value, if it has one.
    fn line(&mut self, t: &[u8], line: &[u8]) {
        let value = line.strip_suffix(b"\r").unwrap_or(line);
        if value.is_empty() {
            return;
        }
        let c = tally_library::month::value(t, self.records, 32, &mut self.refusals, value);
        let records = c.records;
        self.records = records;
        if c.answer.refusal == NOT_COUNTED {
            self.left_out = self.left_out.saturating_add(1);
        }
    }
}

// The line that is being read, of which so many bytes are held. What does not fit is left out: such a line is longer than any
// value.
#[derive(Drop)]
struct Line {
    bytes: [u8; 4098],
    held: usize,
}

impl Line {
    fn push(&mut self, b: u8) {
        if self.held < 4098 {
            self.bytes[self.held] = b;
            self.held += 1;
        }
    }

    // The line ends, and the next one begins.
    fn end(&mut self, t: &[u8], month: &mut Month) {
        if let Some(line) = self.bytes.get(..self.held) {
            month.line(t, line);
        }
        self.held = 0;
    }
}

// The month of the values in the file, which may fail before its end. Nothing says that a file ends, so it has at most a number of
// pieces that no file has.
pub fn of_file(from: &mut impl Read, t: &[u8]) -> io::Result<Month> {
    let mut month = Month::new();
    let mut line = Line {
        bytes: [0; 4098],
        held: 0,
    };
    for _ in 0..u64::MAX {
        let mut buf = room();
        let n = from.read(&mut buf)?;
        if n == 0 {
            break;
        }
        for b in &buf[..n] {
            if *b == b'\n' {
                line.end(t, &mut month);
            } else {
                line.push(*b);
            }
        }
    }
    line.end(t, &mut month);
    Ok(month)
}
