// The cases of smaller machines.
//   classes T M P     refusal number of a proposal, one class for each state of the image
//   small T M P ROOM  refusal number, length, small image; the bytes after it are told only if one is not 0
//   propose T M ROOM  refusal number, length, classes; the same
use crate::{commands, print};
use std::io;

pub fn classes(out: &impl Print, t: &[u8], m: &[u8], p: &[u8]) -> io::Result<()> {
    print::number(out, usize::from(small_library::check(t, m, p)))
}

// Both with so much room as the line's last word says.
pub fn small(out: &impl Print, line: &[u8], t: &[u8], m: &[u8], p: &[u8]) -> io::Result<()> {
    commands::fill(out, program_lines::word(line, 4), |buf| {
        let b = small_library::write(t, m, p, buf);
        (b.refusal, b.len)
    })
}

pub fn propose(out: &impl Print, line: &[u8], t: &[u8], m: &[u8]) -> io::Result<()> {
    commands::fill(out, program_lines::word(line, 3), |buf| {
        let b = small_library::propose(t, m, buf);
        (b.refusal, b.len)
    })
}
