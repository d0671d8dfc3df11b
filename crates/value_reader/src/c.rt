// The reader's four questions as C asks them: the crate value_reader_c exports each of these under its name.
ghost use Rattle.std.specs.Prelude.{◌≡◌};
ghost use Rattle.value_reader.specs.Value.{refusal_of, entries_of, span_of, entry_refusal_of};

use crate::value::place;
use value_cursor::Span;

// The value's refusal number, 0 if it is accepted.
pub fn alert_info_refusal(v: &[u8]) -> u8
    ensures { result ≡ refusal_of v.now }
{
    crate::refusal(v)
}

// The number of entries, 0 if the value is refused.
pub fn alert_info_entries(v: &[u8]) -> usize
    ensures { result ≡ entries_of v.now }
{
    crate::entries(v)
}

// Where the URI of entry k lies in the value; 0 and 0 if the value is refused or has no entry k.
pub fn alert_info_entry(v: &[u8], k: usize) -> Span
    ensures { result ≡ span_of v.now k }
{
    place(v, k)
}

// The refusal number of entry k.
pub fn alert_info_entry_refusal(v: &[u8], k: usize) -> u8
    ensures { result ≡ entry_refusal_of v.now k }
{
    crate::entry_refusal(v, k)
}
