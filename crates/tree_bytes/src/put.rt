// Bytes and texts written to a lent buffer at a position, as far as there is room.
ghost use Rattle.std.specs.Prelude.{◌≡◌, [], ◌∷◌, ◌%◌, ◌+◌, ◌≤◌, length};
ghost use Rattle.tree_bytes.specs.Laid.{Wrote};

use base_bytes::numbers::small;

// The position up to which bytes are counted that there is no room for.
const FARTHEST: usize = 1000000000;

// A lent buffer, and the position in it or past its end up to which it is written.
#[derive(Drop)]
pub struct Writer<'a> {
    pub buf: &'a mut [u8],
    pub at: usize,
}

// One byte at a position, if it is in the buffer: the position after it, or the same where it is past the buffer's end and the
// farthest.
fn put_byte(buf: &mut [u8], at: usize, v: u8) -> usize
    ensures { Wrote buf.old buf.new at (v ∷ []) result }
{
    if at < buf.len() {
        buf[at] = v;
        at + 1
    } else if at < FARTHEST {
        at + 1
    } else {
        at
    }
}

// All bytes of s, for which there is room: the position after them.
fn put_within(buf: &mut [u8], at: usize, s: &[u8]) -> usize
    requires { at + length s.now ≤ length buf.old }
    ensures { Wrote buf.old buf.new at s.now result }
{
    let mut end = at;
    for b in s {
        buf[end] = *b;
        end += 1;
    }
    end
}

// The same as far as there is room. Mostly there is for all, and then no byte's position is looked at alone.
fn put_all(buf: &mut [u8], at: usize, s: &[u8]) -> usize
    ensures { Wrote buf.old buf.new at s.now result }
{
    if at <= buf.len() && s.len() <= buf.len() - at {
        return put_within(buf, at, s);
    }
    let mut end = at;
    for b in s {
        end = put_byte(buf, end, *b);
    }
    end
}

impl Writer<'_> {
    // One byte, if its position is in the buffer; then the position after it, or the same where it is past the buffer's end and
    // the farthest.
    pub fn byte(&mut self, v: u8)
        ensures same_reference { self.new.buf.ghost_name ≡ self.old.buf.ghost_name }
        ensures wrote { Wrote self.old.buf.now self.new.buf.now self.old.at (v ∷ []) self.new.at }
    {
        self.at = put_byte(self.buf, self.at, v);
    }

    // All bytes of s.
    pub fn all(&mut self, s: &[u8])
        ensures same_reference { self.new.buf.ghost_name ≡ self.old.buf.ghost_name }
        ensures wrote { Wrote self.old.buf.now self.new.buf.now self.old.at s.now self.new.at }
    {
        self.at = put_all(self.buf, self.at, s);
    }

    // A text after its length, of which the last byte is written.
    pub fn text(&mut self, s: &[u8])
        ensures same_reference { self.new.buf.ghost_name ≡ self.old.buf.ghost_name }
        ensures wrote { Wrote self.old.buf.now self.new.buf.now self.old.at (length s.now % 256 ∷ s.now) self.new.at }
    {
        self.byte(small(s.len()));
        self.all(s);
    }
}
