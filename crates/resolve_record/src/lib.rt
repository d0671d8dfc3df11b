// What is carried between the values of one message: a record by value, and for C its ten bytes.
//
// In: a record, any bytes. Out: whether a table can go on from it; the state of direct resolution in it, and back.
#![tactic(auto)]

ghost use Rattle.std.specs.Prelude.{◌≡◌, length, IsTrue, ◌↔◌, ◌<◌, ℕ, true};
ghost use Rattle.base_numbers.specs.Numbers.{most_categories};
ghost use Rattle.base_lists.specs.Lists.{all_below};
ghost use Rattle.resolve_record.specs.Record.{fresh as fresh_record, carried_in, carried_bytes};
ghost use Rattle.node_step.specs.StatusByte.{byte_of, status_of};
ghost use Rattle.resolve_record.specs.Coded.{status_by, status_at, fits_by, state_with, carried_with};

use base_numbers::{MOST_CATEGORIES, MOST_VALUES};
use node_search::decoded::Decoded;
use node_step::stored::{byte_of, status_of};
use node_step::{Progress, State};

// The signal, a status for each of 8 categories (0 open, 1 shut, 1 + n held at node n), and how many values there were. All
// zero before the first.
#[derive(Clone, Copy)]
pub struct Carried {
    pub signal: u8,
    pub status: [u8; MOST_CATEGORIES],
    pub values: u8,
}

// Before the first value.
pub fn fresh() -> Carried
    ensures { result ≡ fresh_record }
{
    Carried {
        signal: 0,
        status: [0u8; MOST_CATEGORIES],
        values: 0,
    }
}

// Category c can have the status b at signal s; one that the table lacks is 0.
#[tactic(auto, unfolding(crate::specs::Coded::status_by))]
fn status_fits(d: &Decoded, s: u8, c: usize, b: u8) -> bool
    ensures { result ≡ status_by d.now.rows d.now.parent d.now.inner d.now.category d.now.nodes d.now.categories s c b }
{
    if c < d.categories {
        node_step::stored::fits(d, s, c, b)
    } else {
        b == 0
    }
}

// Each category has a status that it can have at signal s.
fn statuses_fit(d: &Decoded, s: u8, status: &[u8; MOST_CATEGORIES]) -> bool
    requires { length status.now ≡ most_categories }
    ensures { IsTrue result ↔ ((c : ℕ) → c < most_categories → status_at d.now.rows d.now.parent d.now.inner d.now.category d.now.nodes d.now.categories s status.now c ≡ true) }
{
    (0..MOST_CATEGORIES).all(|c| status_fits(d, s, c, status[c]))
}

// The table decoded as d can go on from this record: it names a signal, and has at most 16 values and statuses that fit.
#[tactic(auto, unfolding(crate::specs::Coded::fits_by))]
pub fn fits(d: &Decoded, carried: Carried) -> bool
    ensures says { result ≡ fits_by d.now.rows d.now.parent d.now.inner d.now.category d.now.nodes d.now.signals d.now.categories carried }
    ensures wide { length carried.status ≡ most_categories }
{
    usize::from(carried.signal) < d.signals
        && carried.values <= MOST_VALUES
        && statuses_fit(d, carried.signal, &carried.status)
}

// A category's progress from its byte, and the byte of its progress.
fn progress_of(b: u8) -> Progress
    ensures { result ≡ record { status = status_of b } }
{
    Progress {
        status: status_of(b),
    }
}

fn byte_for(progress: Progress) -> u8
    ensures { result ≡ byte_of progress.status }
{
    byte_of(progress.status)
}

// The state that a record carries.
pub fn state(carried: Carried) -> State
    ensures { result ≡ state_with carried }
{
    State {
        signal: carried.signal,
        categories: carried.status.map(progress_of),
    }
}

// A state as it is carried after so many values.
pub fn after(st: State, values: u8) -> Carried
    ensures { result ≡ carried_with st values }
{
    Carried {
        signal: st.signal,
        status: st.categories.map(byte_for),
        values,
    }
}

// A record from its bytes.
pub fn load(b: &[u8; 10]) -> Carried
    ensures { result ≡ carried_in b.now }
{
    let mut status = [0u8; MOST_CATEGORIES];
    status.copy_from_slice(&b[1..9]);
    Carried {
        signal: b[0],
        status,
        values: b[9],
    }
}

// A record's bytes.
pub fn store(b: &mut [u8; 10], carried: Carried)
    ensures { b.new ≡ carried_bytes carried }
{
    b[0] = carried.signal;
    b[1..9].copy_from_slice(&carried.status);
    b[9] = carried.values;
}
