// What is answered about a value.
ghost use Rattle.std.specs.Prelude.{◌≡◌};
ghost use Rattle.value_reader.specs.Judged.{judged_of};
ghost use Rattle.value_reader.specs.Value.{span_of};

use base_numbers::{MOST_ENTRIES, MOST_VALUE_BYTES, Refusal};
use value_cursor::{Scan, Span, scan_value};

// The whole answer about a value and its entry k: its entries, and where the URI of entry k lies (0 and 0 where there is none).
pub(crate) fn judge(v: &[u8], k: usize) -> Result<Scan, Refusal>
    ensures { result ≡ judged_of v.now k }
{
    if MOST_VALUE_BYTES < v.len() {
        return Err(Refusal::ValueTooLong);
    }
    let Some(t) = scan_value(v, k) else {
        return Err(Refusal::ValueMisfit);
    };
    if MOST_ENTRIES < t.entries {
        return Err(Refusal::TooManyEntries);
    }
    Ok(t)
}

// Where the URI of entry k lies; 0 and 0 if the value is refused or has no entry k.
pub(crate) fn place(v: &[u8], k: usize) -> Span
    ensures { result ≡ span_of v.now k }
{
    match judge(v, k) {
        Ok(t) => t.span,
        Err(_) => Span { start: 0, len: 0 },
    }
}
