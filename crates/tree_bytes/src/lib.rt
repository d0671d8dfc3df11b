// A stored form written to a lent buffer: from the front, as far as there is room, with zeros after it.
//
// In: texts and numbers, a buffer and a position in it. Out: the position after them; at the end the answer, and the whole buffer.
//
//   put.rt       the writer: a byte, a text
//   sections.rt  counts, and the names of the categories
#![tactic(auto)]

pub mod put;
pub mod sections;

ghost use Rattle.std.specs.Prelude.{◌≡◌};
ghost use Rattle.tree_bytes.specs.Laid.{answer, finished};

use base_bytes::Built;
use base_numbers::FORM_NO_ROOM;

// The first n bytes of the buffer are a form: zeros after them if it fits, else 22. The answer is the one that C gets.
pub fn finish(buf: &mut [u8], n: usize, fits: bool) -> Built
    ensures value { result ≡ answer (finished buf.old n fits) }
    ensures buf_after { buf.new ≡ (finished buf.old n fits).buffer }
{
    if fits && n <= buf.len() {
        buf[n..].fill(0);
        return Built { refusal: 0, len: n };
    }
    base_bytes::refuse(buf, FORM_NO_ROOM)
}
