// A position in a value, and passing white space, a token or a quoted string from there.
ghost use Rattle.std.specs.Prelude.{◌≡◌, ◌<◌, ◌≤◌, ◌+◌, length, get_or};
ghost use Rattle.value_cursor.specs.Bytes.{in_class, Classes};
ghost use Rattle.value_cursor.specs.Walk.{run_at, four_at};
ghost use Rattle.value_cursor.specs.Parts.{fold_length, white_at, token_at, escape_byte, quote_at, quoted_from, quoted_at};

use crate::classes::{BLANK, ESCAPABLE, TEXT, TOKEN, has, have};

// A position in a value. Its methods hand back the cursor after what they pass.
#[derive(Clone, Copy)]
pub struct Cursor {
    pub at: usize,
}

// What stands after text of a quoted string: its closing quote, or an escaped byte. The cursor is after it.
#[derive(Clone, Copy)]
pub enum Quote {
    Closed(Cursor),
    Escaped(Cursor),
}

impl Cursor {
    // The byte at the cursor, 0 past the end.
    pub(crate) fn peek(self, s: &[u8]) -> u8
        ensures { result ≡ get_or s.now self.at 0 }
    {
        s.get(self.at).copied().unwrap_or(0)
    }

    // The four bytes from here on are all in a class.
    fn four(self, classes: &[u8; 256], s: &[u8], class: u8) -> bool
        requires { (class < 5) × Classes classes.now × (self.at + 4 ≤ length s.now) }
        ensures { result ≡ four_at (in_class class) s.now self.at }
    {
        have(
            classes,
            s[self.at],
            s[self.at + 1],
            s[self.at + 2],
            s[self.at + 3],
            class,
        )
    }

    // Past the bytes of a class, four at a time: a quicker way through the most of them.
    fn run_fours(self, classes: &[u8; 256], s: &[u8], class: u8) -> Cursor
        requires { (class < 5) × Classes classes.now }
        ensures { run_at (in_class class) s.now self.at ≡ run_at (in_class class) s.now result.at }
    {
        // The cursor itself goes on: it may stand past the end, where no slice begins for a chain to go over.
        let mut c = self;
        while c.at < s.len() && 4 <= s.len() - c.at && c.four(classes, s, class) {
            c.at += 4;
        }
        c
    }

    // Past all bytes of a class.
    pub(crate) fn run(self, classes: &[u8; 256], s: &[u8], class: u8) -> Cursor
        requires { (class < 5) × Classes classes.now }
        ensures { result.at ≡ run_at (in_class class) s.now self.at }
    {
        let mut c = self.run_fours(classes, s, class);
        // By the cursor itself, as above.
        while c.at < s.len() && has(classes, s[c.at], class) {
            c.at += 1;
        }
        c
    }

    // How long the fold at a CR is: 3 if LF and then a space or a tab follow it, else 0.
    fn fold(self, classes: &[u8; 256], s: &[u8]) -> usize
        requires { Classes classes.now × (get_or s.now self.at 0 ≡ 13) }
        ensures { result ≡ fold_length s.now self.at }
    {
        if s.len() - self.at < 3 {
            return 0;
        }
        if s[self.at + 1] != b'\n' {
            return 0;
        }
        if has(classes, s[self.at + 2], BLANK) {
            3
        } else {
            0
        }
    }

    // Past white space that may begin here.
    fn blanks(self, classes: &[u8; 256], s: &[u8]) -> Cursor
        requires { Classes classes.now }
        ensures { result.at ≡ white_at s.now self.at }
    {
        let mut c = self;
        // A fold takes three bytes at once, so no chain goes byte by byte.
        while c.at < s.len() {
            if s[c.at] == b' ' {
                c.at += 1;
                continue;
            }
            if b' ' < s[c.at] {
                return c;
            }
            if s[c.at] == b'\t' {
                c.at += 1;
                continue;
            }
            if s[c.at] != b'\r' {
                return c;
            }
            let n = c.fold(classes, s);
            if n == 0 {
                return c;
            }
            c.at += n;
        }
        c
    }

    // Past white space, also where there is none, which is the usual case: one comparison tells it.
    pub(crate) fn white(self, classes: &[u8; 256], s: &[u8]) -> Cursor
        requires { Classes classes.now }
        ensures { result.at ≡ white_at s.now self.at }
    {
        if self.at < s.len() && b' ' < s[self.at] {
            return self;
        }
        self.blanks(classes, s)
    }

    // Past a token.
    pub(crate) fn token(self, classes: &[u8; 256], s: &[u8]) -> Option<Cursor>
        requires { Classes classes.now }
        ensures { result ≡ token_at s.now self.at }
    {
        let c = self.run(classes, s, TOKEN);
        if self.at == c.at { None } else { Some(c) }
    }

    // From after a backslash in a quoted string: past the byte that it escapes.
    fn escaped(self, classes: &[u8; 256], s: &[u8]) -> Option<Quote>
        requires { Classes classes.now }
        ensures { result ≡ escape_byte s.now self.at }
    {
        if s.len() <= self.at || !has(classes, s[self.at], ESCAPABLE) {
            return None;
        }
        Some(Quote::Escaped(Cursor { at: self.at + 1 }))
    }

    // Past text of a quoted string and the closing quote or escaped byte after it. Between two escaped bytes there often
    // is no text, so a backslash is looked for first.
    fn quoted_text(self, classes: &[u8; 256], s: &[u8]) -> Option<Quote>
        requires { Classes classes.now }
        ensures { result ≡ quote_at s.now self.at }
    {
        if self.peek(s) == b'\\' {
            return Cursor { at: self.at + 1 }.escaped(classes, s);
        }
        let t = self.run(classes, s, TEXT);
        let b = t.peek(s);
        if b == b'"' {
            return Some(Quote::Closed(Cursor { at: t.at + 1 }));
        }
        if b != b'\\' {
            return None;
        }
        Cursor { at: t.at + 1 }.escaped(classes, s)
    }

    // Past escaped bytes of a quoted string that follow one another.
    fn escapes(self, classes: &[u8; 256], s: &[u8]) -> Cursor
        requires { Classes classes.now }
        ensures { (quoted_from s.now self.at ≡ quoted_from s.now result.at) × (self.at ≤ result.at) }
    {
        let mut c = self;
        // By the cursor itself, two bytes at once.
        while c.at < s.len()
            && s[c.at] == b'\\'
            && 1 < s.len() - c.at
            && has(classes, s[c.at + 1], ESCAPABLE)
        {
            c.at += 2;
        }
        c
    }

    // Past a quoted string.
    pub(crate) fn quoted(self, classes: &[u8; 256], s: &[u8]) -> Option<Cursor>
        requires { Classes classes.now }
        ensures { result ≡ quoted_at s.now self.at }
    {
        if self.peek(s) != b'"' {
            return None;
        }
        let mut c = Cursor { at: self.at + 1 };
        // Where the text goes on is known only when an escaped byte is passed.
        loop {
            // Through many in a row a loop of its own takes half the time.
            match c.escapes(classes, s).quoted_text(classes, s)? {
                Quote::Escaped(n) => c = n,
                Quote::Closed(n) => return Some(n),
            }
        }
    }
}
