// A pass over a whole value, from entry to entry.
ghost use Rattle.std.specs.Prelude.{◌≡◌, ◌<◌};
ghost use Rattle.value_cursor.specs.Bytes.{Classes};
ghost use Rattle.value_cursor.specs.Pass.{noted, scan_of};

use crate::alert_param::{Found, Span};
use crate::classes::table;
use crate::cursor::Cursor;

// A pass over a value: its entries so far, and where the URI of entry k lies (0 and 0 before it is met).
#[derive(Clone, Copy)]
pub struct Scan {
    pub entries: usize,
    pub span: Span,
}

impl Scan {
    // One entry more. Its URI's place is kept if it is entry k.
    fn note(self, k: usize, span: Span) -> Scan
        requires { self.entries < 18446744073709551615 }
        ensures { result ≡ noted k self span }
    {
        Scan {
            entries: self.entries + 1,
            span: if self.entries == k { span } else { self.span },
        }
    }
}

// From entry to entry through the value, if it fits.
fn scan_with(classes: &[u8; 256], v: &[u8], k: usize) -> Option<Scan>
    requires { Classes classes.now }
    ensures { result ≡ scan_of v.now k }
{
    let mut c = Cursor { at: 0 };
    let mut t = Scan {
        entries: 0,
        span: Span { start: 0, len: 0 },
    };
    // Where the next entry begins is known only when one is passed, so no range or chain goes over them.
    loop {
        let found = c.entry_with(classes, v)?;
        match found {
            Found::More(span, next) => {
                t = t.note(k, span);
                c = next;
            }
            Found::Last(span) => return Some(t.note(k, span)),
        }
    }
}

// A pass over any bytes, by one table.
pub fn scan_value(v: &[u8], k: usize) -> Option<Scan>
    ensures { result ≡ scan_of v.now k }
{
    scan_with(&table(), v, k)
}
