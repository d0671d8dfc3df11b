// Passing a parameter and an entry, which is a URI in brackets with its parameters.
ghost use Rattle.std.specs.Prelude.{◌≡◌};
ghost use Rattle.value_cursor.specs.Bytes.{Classes};
ghost use Rattle.value_cursor.specs.Parts.{setting_at, param_at, following_at, ending_at, entry_at};

use crate::classes::{URI, table};
use crate::cursor::Cursor;

// A part of the value: the position of its first byte, and its length.
#[repr(C)]
#[derive(Clone, Copy)]
pub struct Span {
    pub start: usize,
    pub len: usize,
}

// An entry that stands at a cursor: the value's last one, or one with the cursor at the next.
#[derive(Clone, Copy)]
pub enum Found {
    Last(Span),
    More(Span, Cursor),
}

// What follows an entry's URI or one of its parameters: nothing more, a comma, or one more parameter. The cursor is after it.
#[derive(Clone, Copy)]
pub enum Following {
    Nothing,
    Comma(Cursor),
    Param(Cursor),
}

// What follows all parameters of an entry: the end of the value, or the next entry.
#[derive(Clone, Copy)]
pub enum Ending {
    ValueEnd,
    NextEntry(Cursor),
}

impl Cursor {
    // Past what a parameter is set to: a token or a quoted string.
    fn setting(self, classes: &[u8; 256], s: &[u8]) -> Option<Cursor>
        requires { Classes classes.now }
        ensures { result ≡ setting_at s.now self.at }
    {
        if self.peek(s) == b'"' {
            self.quoted(classes, s)
        } else {
            self.token(classes, s)
        }
    }

    // Past a parameter, from after its semicolon: a token alone, or a token that is set to something.
    fn param(self, classes: &[u8; 256], s: &[u8]) -> Option<Cursor>
        requires { Classes classes.now }
        ensures { result ≡ param_at s.now self.at }
    {
        let c = self.white(classes, s).token(classes, s)?;
        let e = c.white(classes, s);
        if e.peek(s) != b'=' {
            return Some(c);
        }
        Cursor { at: e.at + 1 }
            .white(classes, s)
            .setting(classes, s)
    }

    // What follows an entry's URI or one of its parameters, unless it may not stand there.
    fn following(self, classes: &[u8; 256], s: &[u8]) -> Option<Following>
        requires { Classes classes.now }
        ensures { result ≡ following_at s.now self.at }
    {
        let w = self.white(classes, s);
        if s.len() <= w.at {
            return Some(Following::Nothing);
        }
        let f = Cursor { at: w.at + 1 };
        if s[w.at] == b',' {
            return Some(Following::Comma(f));
        }
        if s[w.at] != b';' {
            return None;
        }
        Some(Following::Param(f.param(classes, s)?))
    }

    // Past the parameters of an entry: to where the value ends, or past a comma.
    fn ending(self, classes: &[u8; 256], s: &[u8]) -> Option<Ending>
        requires { Classes classes.now }
        ensures { result ≡ ending_at s.now self.at }
    {
        let mut c = self;
        // Where the next parameter begins is known only when one is passed.
        loop {
            match c.following(classes, s)? {
                Following::Param(n) => c = n,
                Following::Nothing => return Some(Ending::ValueEnd),
                Following::Comma(n) => return Some(Ending::NextEntry(n)),
            }
        }
    }

    // Past an entry and the comma after it.
    pub(crate) fn entry_with(self, classes: &[u8; 256], s: &[u8]) -> Option<Found>
        requires { Classes classes.now }
        ensures { result ≡ entry_at s.now self.at }
    {
        let w = self.white(classes, s);
        if w.peek(s) != b'<' {
            return None;
        }
        let start = w.at + 1;
        let u = Cursor { at: start }.run(classes, s, URI);
        if start == u.at {
            return None;
        }
        if u.peek(s) != b'>' {
            return None;
        }
        let span = Span {
            start,
            len: u.at - start,
        };
        match (Cursor { at: u.at + 1 }).ending(classes, s)? {
            Ending::ValueEnd => Some(Found::Last(span)),
            Ending::NextEntry(next) => Some(Found::More(span, next)),
        }
    }

    // What entry stands at the cursor. From a cursor at 0 this goes through a value from entry to entry, up to the last one
    // or to where the value does not fit.
    pub fn entry(self, s: &[u8]) -> Option<Found>
        ensures { result ≡ entry_at s.now self.at }
    {
        self.entry_with(&table(), s)
    }
}
