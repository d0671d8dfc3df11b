// Single pieces of a stored table: a byte within bounds, a text after its length.
ghost use Rattle.std.specs.Prelude.{◌≡◌};
ghost use Rattle.table_sections.specs.Stored.{byte_in, text};
ghost use Rattle.table_sections.specs.Held.{number_read, text_read, text_inside};

use base_numbers::Refusal;

// A value with the position after it.
pub type Reading = Result<(usize, usize), Refusal>;

// A byte from lo to hi.
pub fn byte_in(t: &[u8], at: usize, lo: usize, hi: usize) -> Reading
    ensures { number_read result ≡ byte_in lo hi t.now at }
{
    if at < t.len() {
        let b = usize::from(t[at]);
        if (lo..=hi).contains(&b) {
            return Ok((b, at + 1));
        }
        return Err(Refusal::TableOutOfRange);
    }
    Err(Refusal::TableWrongEnd)
}

// A length byte from 1 to hi and so many bytes: their number, and the position after them.
pub fn read_text(t: &[u8], at: usize, hi: usize) -> Reading
    ensures result_value { text_read t.now result ≡ text hi t.now at }
    ensures inside { text_inside t.now hi result }
{
    let (n, p) = byte_in(t, at, 1, hi)?;
    if n <= t.len() - p {
        Ok((n, p + n))
    } else {
        Err(Refusal::TableWrongEnd)
    }
}
