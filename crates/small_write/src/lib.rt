// The small image of a proposal, written to a lent buffer.
//
// In: what stands before an image's state count, the states' rows, any bytes, with the numbers of states, of bytes before a
// state's targets, and of symbols; a proposal; and a buffer. Out: 0, 14 or 27 with the small image's length, and the whole
// buffer.
//
//   rows.rt  the classes' bytes
#![tactic(auto)]

mod rows;

ghost use Rattle.std.specs.Prelude.{◌≡◌, true, [], ◌∷◌, ◌++◌, ◌+◌, ◌≤◌, ◌/◌, ◌%◌, length};
ghost use Rattle.base_numbers.specs.Numbers.{most_states};
ghost use Rattle.small_rounds.specs.Rows.{machine_in};
ghost use Rattle.small_classes.specs.Check.{stored_fits};
ghost use Rattle.small_write.specs.Answer.{answer_in, buffer_in};
ghost use Rattle.small_write.specs.Written.{small_by, fit_refusal};

use base_bytes::Built;
use base_numbers::{BAD_CLASSES, IMAGE_NO_ROOM};
use small_rounds::{Machine, Rows};

// The bytes, with zeros after them, or 14 and all zeros.
pub fn put(bytes: &[u8], buf: &mut [u8]) -> Built
    ensures value { result ≡ answer_in 0 bytes.now (length buf.old) }
    ensures buf_after { buf.new ≡ buffer_in 0 bytes.now (length buf.old) }
{
    let n = bytes.len();
    if buf.len() < n {
        return base_bytes::refuse(buf, IMAGE_NO_ROOM);
    }
    buf[..n].copy_from_slice(bytes);
    buf[n..].fill(0);
    Built { refusal: 0, len: n }
}

// What stands in front, and the class count.
fn put_head(front: &[u8], count: usize, head: &mut [u8])
    requires { (count ≤ most_states) × (length head.old ≡ length front.now + 2) }
    ensures { head.new ≡ front.now ++ count % 256 ∷ count / 256 ∷ [] }
{
    let z = front.len();
    base_bytes::lent::copy(front, &mut head[..z]);
    head[z] = (count % 256) as u8;
    head[z + 1] = (count / 256) as u8;
}

// The small image of a proposal that fits.
fn write_small(front: &[u8], rows: Rows, p: &[u8], buf: &mut [u8]) -> Built
    requires { stored_fits rows.bytes.now rows.states rows.head rows.symbols p.now ≡ true }
    ensures value { result ≡ answer_in 0 (small_by front.now (machine_in rows.entry) p.now) (length buf.old) }
    ensures buf_after { buf.new ≡ buffer_in 0 (small_by front.now (machine_in rows.entry) p.now) (length buf.old) }
{
    let m = Machine { rows };
    let count = small_classes::states::highest_class(p) + 1;
    let from = front.len() + 2;
    let size = from + count * (1 + rows.symbols);
    if buf.len() < size {
        return base_bytes::refuse(buf, IMAGE_NO_ROOM);
    }
    put_head(front, count, &mut buf[..from]);
    rows::put_rows(m, p, &mut buf[from..size], count);
    buf[size..].fill(0);
    Built {
        refusal: 0,
        len: size,
    }
}

// The small image of a proposal, with zeros after it; or all zeros and the number of the refusal.
pub fn write(front: &[u8], rows: Rows, p: &[u8], buf: &mut [u8]) -> Built
    ensures value { result ≡ answer_in (fit_refusal rows.entry.bytes.now rows.entry.states rows.entry.head rows.entry.symbols p.now)
        (small_by front.now (machine_in rows.entry) p.now) (length buf.old) }
    ensures buf_after { buf.new ≡ buffer_in (fit_refusal rows.entry.bytes.now rows.entry.states rows.entry.head rows.entry.symbols p.now)
        (small_by front.now (machine_in rows.entry) p.now) (length buf.old) }
{
    if !small_classes::check(rows, p) {
        return base_bytes::refuse(buf, BAD_CLASSES);
    }
    write_small(front, rows, p, buf)
}
