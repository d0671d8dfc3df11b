// One entry of a value: where its URI lies, and where the next entry begins.
ghost use Rattle.std.specs.Prelude.{◌≡◌};
ghost use Rattle.value_cursor.specs.Parts.{entry_at};
ghost use Rattle.resolve_run.specs.Run.{entry_of};

use value_cursor::{Cursor, Found, Span};

// An entry: where its URI lies, and where the next one begins unless it is the last.
#[derive(Clone, Copy)]
pub struct Entry {
    pub span: Span,
    pub next: Option<usize>,
}

// The entry at a place of the value, unless the value does not fit there.
pub fn entry_at(v: &[u8], at: usize) -> Option<Entry>
    ensures { result ≡ entry_of (entry_at v.now at) }
{
    match (Cursor { at }).entry(v)? {
        Found::More(span, next) => Some(Entry {
            span,
            next: Some(next.at),
        }),
        Found::Last(span) => Some(Entry { span, next: None }),
    }
}
