// Answers as text.
use std::io;

// A number and what follows it.
pub fn count(out: &impl Print, n: u64, after: &str) -> io::Result<()> {
    print!(out; "{n}{after}")
}

// A number and the word for one, or for another number.
pub fn counted(out: &impl Print, n: u64, one: &str, many: &str) -> io::Result<()> {
    count(out, n, if n == 1 { one } else { many })
}

// A signal with its counts.
pub fn resolved(out: &impl Print, signal: u8, used: u64, skipped: u64) -> io::Result<()> {
    print!(out; "signal {signal}, ")?;
    used_skipped(out, used, skipped)
}

pub fn used_skipped(out: &impl Print, used: u64, skipped: u64) -> io::Result<()> {
    print!(out; "{used} used, {skipped} skipped")
}

// A refusal number with what it says.
pub fn refused(out: &impl Print, k: u8) -> io::Result<()> {
    print!(out; "refused {k}: ")?;
    reason(out, usize::from(k))?;
    out.print("\n")
}

// What a refusal number says: its line of these, counted from 0.
pub fn reason(out: &impl Print, k: usize) -> io::Result<()> {
    let lines = b"nothing is wrong
the value is longer than 4,096 bytes
the value is not of the field's form
the value has more than 64 entries
the table is longer than 8,192 bytes
the table stops early, or goes on after its last signal
a count or a length in the table is out of range
a name or a URN in the table is of wrong form, has a capital letter, or has more than 8 parts
a category stands twice, or no signal uses it, or a URN names one that is not listed
one signal has two URNs of the same category
signal 0 names a URN
two signals have equal places
the table has more than 64 nodes
the machine would have more than 256 states
the image does not fit the buffer
the image is not of the form that this table asks for
state 0 is not the start
a row leads to a state with the wrong pair
the value has no such entry
the message has more than 16 values
the tally cannot take the value
the tree's nodes are not those of its signals, each once and in order, or a number leads nowhere
the other form does not fit, or would be longer than 8,192 bytes
a signal that is said to be available is none of the table
the two tables have a category in common
the log is longer than 32,768 bytes, stops early, or goes on after its last call
the buffer is shorter than 4,096 bytes
the classes do not make a smaller machine of this one, or none do
";
    out.write_all(program_lines::part(lines, b'\n', k))
}
