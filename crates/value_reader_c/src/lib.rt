// The reader's four questions for C, in libalert_info.a: a value is a pointer and a length. Each calls the library's function of
// its name. The header is include/alert_info.h.
#![tactic(auto)]

ghost use Rattle.std.specs.Prelude.{◌≡◌};
ghost use Rattle.value_reader.specs.Value.{refusal_of, entries_of, span_of, entry_refusal_of};

use value_cursor::Span;
use value_reader::c;

// uint8_t alert_info_refusal(const uint8_t *value, size_t len);
#[unsafe(no_mangle)]
pub extern "C" fn alert_info_refusal(v: &[u8]) -> u8
    ensures { result ≡ refusal_of v.now }
{
    c::alert_info_refusal(v)
}

// size_t alert_info_entries(const uint8_t *value, size_t len);
#[unsafe(no_mangle)]
pub extern "C" fn alert_info_entries(v: &[u8]) -> usize
    ensures { result ≡ entries_of v.now }
{
    c::alert_info_entries(v)
}

// typedef struct { size_t start, len; } alert_info_span;
// alert_info_span alert_info_entry(const uint8_t *value, size_t len, size_t k);
// Where the URI of entry k lies in the value; 0 and 0 if the value is refused or has no entry k.
#[unsafe(no_mangle)]
pub extern "C" fn alert_info_entry(v: &[u8], k: usize) -> Span
    ensures { result ≡ span_of v.now k }
{
    c::alert_info_entry(v, k)
}

// uint8_t alert_info_entry_refusal(const uint8_t *value, size_t len, size_t k);
#[unsafe(no_mangle)]
pub extern "C" fn alert_info_entry_refusal(v: &[u8], k: usize) -> u8
    ensures { result ≡ entry_refusal_of v.now k }
{
    c::alert_info_entry_refusal(v, k)
}
