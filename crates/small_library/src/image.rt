// An accepted image handed to the check of a proposal, to the proposer and to the writer: as rows, with their counts.
ghost use Rattle.std.specs.Prelude.{◌≡◌, ◌+◌, ◌*◌, ◌≤◌, length};
ghost use Rattle.base_numbers.specs.Numbers.{most_states};
ghost use Rattle.machine_check.specs.Checks.{check_number};
ghost use Rattle.machine_image.specs.Image.{symbol_count, state_count};
ghost use Rattle.small_classes.specs.Check.{stored_proposed};
ghost use Rattle.small_write.specs.Answer.{answer_in, buffer_in};
ghost use Rattle.small_write.specs.Written.{small_by, fit_refusal};
ghost use Rattle.small_library.specs.Smaller.{number_of, bytes_of};
ghost use Rattle.small_library.specs.Rows.{front_of, rows_of, machine_by};

use base_bytes::Built;
use base_numbers::{BAD_CLASSES, MOST_STATES, Refusal};
use machine_check::image::{at, state_count};
use small_rounds::Rows;

// The states' rows, with so many bytes before a state's targets.
fn rows(im: &[u8], head: usize) -> Rows
    requires { 3 + 3 * symbol_count im.now ≤ length im.now }
    ensures { (result.bytes.now ≡ rows_of im.now) × (result.states ≡ state_count im.now) × (result.head ≡ head) × (result.symbols ≡ symbol_count im.now) }
{
    let symbols = at(im, 0);
    Rows {
        bytes: &im[3 + 3 * symbols..],
        states: state_count(im),
        head,
        symbols,
    }
}

// Whether the proposal fits the machine in the image, with so many bytes before a state's targets.
pub(crate) fn fit(im: &[u8], p: &[u8], head: usize) -> Result<(), Refusal>
    requires { 3 + 3 * symbol_count im.now ≤ length im.now }
    ensures { check_number result ≡ fit_refusal (rows_of im.now) (state_count im.now) head (symbol_count im.now) p.now }
{
    if small_classes::check(rows(im, head), p) {
        Ok(())
    } else {
        Err(Refusal::BadClasses)
    }
}

// The small image of the proposal's classes, written to the buffer.
pub(crate) fn write(im: &[u8], p: &[u8], buf: &mut [u8], head: usize) -> Built
    requires { 3 + 3 * symbol_count im.now ≤ length im.now }
    ensures value { result ≡ answer_in (fit_refusal (rows_of im.now) (state_count im.now) head (symbol_count im.now) p.now)
        (small_by (front_of im.now) (machine_by im.now head) p.now) (length buf.old) }
    ensures buf_after { buf.new ≡ buffer_in (fit_refusal (rows_of im.now) (state_count im.now) head (symbol_count im.now) p.now)
        (small_by (front_of im.now) (machine_by im.now head) p.now) (length buf.old) }
{
    let front = &im[..1 + 3 * at(im, 0)];
    small_write::write(front, rows(im, head), p, buf)
}

// The proposer's classes, written to the buffer.
pub(crate) fn propose(im: &[u8], buf: &mut [u8], head: usize) -> Built
    requires { (3 + 3 * symbol_count im.now ≤ length im.now) × (state_count im.now ≤ most_states) }
    ensures value { result ≡ answer_in (number_of (stored_proposed (rows_of im.now) (state_count im.now) head (symbol_count im.now)))
        (bytes_of (stored_proposed (rows_of im.now) (state_count im.now) head (symbol_count im.now))) (length buf.old) }
    ensures buf_after { buf.new ≡ buffer_in (number_of (stored_proposed (rows_of im.now) (state_count im.now) head (symbol_count im.now)))
        (bytes_of (stored_proposed (rows_of im.now) (state_count im.now) head (symbol_count im.now))) (length buf.old) }
{
    let r = rows(im, head);
    let mut classes = [0u8; MOST_STATES];
    propose_to(r, &mut classes[..r.states], buf)
}

// The same with a list for the classes, one for each state.
fn propose_to(rows: Rows, classes: &mut [u8], buf: &mut [u8]) -> Built
    requires { length classes.old ≡ rows.states }
    ensures value { result ≡ answer_in (number_of (stored_proposed rows.entry.bytes.now rows.entry.states rows.entry.head rows.entry.symbols))
        (bytes_of (stored_proposed rows.entry.bytes.now rows.entry.states rows.entry.head rows.entry.symbols)) (length buf.old) }
    ensures buf_after { buf.new ≡ buffer_in (number_of (stored_proposed rows.entry.bytes.now rows.entry.states rows.entry.head rows.entry.symbols))
        (bytes_of (stored_proposed rows.entry.bytes.now rows.entry.states rows.entry.head rows.entry.symbols)) (length buf.old) }
{
    if !small_classes::propose(rows, classes) {
        return base_bytes::refuse(buf, BAD_CLASSES);
    }
    small_write::put(classes, buf)
}
