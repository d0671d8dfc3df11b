// Answers as text on standard output.
use std::io;

pub fn text(out: &impl Print, s: &str) -> io::Result<()> {
    out.print(s)
}

pub fn number(out: &impl Print, n: usize) -> io::Result<()> {
    print!(out; "{n}")
}

// A number after a space.
pub fn next(out: &impl Print, n: usize) -> io::Result<()> {
    print!(out; " {n}")
}

// Three numbers with spaces between.
pub fn three(out: &impl Print, a: u8, b: u8, c: u8) -> io::Result<()> {
    print!(out; "{a} {b} {c}")
}

// Bytes in hex after a space, `-` for none.
pub fn bytes(out: &impl Print, s: &[u8]) -> io::Result<()> {
    text(out, " ")?;
    if s.is_empty() {
        text(out, "-")?;
    }
    for b in s {
        print!(out; "{b:02x}")?;
    }
    Ok(())
}
