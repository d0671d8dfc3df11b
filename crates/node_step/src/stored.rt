// Statuses as the image of a machine stores them, and all of a state's in one number.
ghost use Rattle.std.specs.Prelude.{◌≡◌, true, ◌<◌};
ghost use Rattle.base_numbers.specs.Numbers.{most_categories};
ghost use Rattle.node_step.specs.Step.{row_at, digit, extends};
ghost use Rattle.node_step.specs.StatusByte.{byte_of, status_of, step_packed, moved_packed, fits_by};

use crate::{
    Hit, Status, digit_at, extends_of, last_taken, put_at, row_at, seek_from, status_from, takes_at,
};
use base_numbers::{MOST_CATEGORIES, MOST_NODES};
use node_search::decoded::Decoded;

// A state with its categories' bytes in one number, category 0 lowest.
#[derive(Clone, Copy, PartialEq, Eq)]
pub struct Packed {
    pub signal: u8,
    pub statuses: u64,
}

// The byte of a status: 0 open, 1 shut, 1 + n held at node n.
pub fn byte_of(status: Status) -> u8
    ensures { result ≡ byte_of status }
{
    match status {
        Status::Open => 0,
        Status::Held(n) => n.saturating_add(1),
        Status::Shut => 1,
    }
}

// The status that a byte says.
pub fn status_of(b: u8) -> Status
    ensures { result ≡ status_of b }
{
    match b {
        0 => Status::Open,
        1 => Status::Shut,
        _ => Status::Held(b - 1),
    }
}

// The state after a search; b is the byte of category c.
#[tactic(auto, unfolding(crate::specs::StatusByte::moved_packed))]
fn moved_packed(
    d: &Decoded,
    st: Packed,
    c: usize,
    b: u8,
    k: u8,
    whole: bool,
    found: Option<Hit>,
) -> Packed
    requires { (c < most_categories) × (b ≡ digit st.statuses c) }
    ensures { result ≡ moved_packed d.now.inner st c k whole found }
{
    match found {
        Some(h) => {
            let after = byte_of(status_from(&d.inner, k, whole, h.node));
            Packed {
                signal: h.signal,
                statuses: put_at(st.statuses, c, b, after),
            }
        }
        None => st,
    }
}

// One step at the node or root with number k, in category c.
pub fn step_packed(d: &Decoded, st: Packed, c: usize, k: u8, whole: bool) -> Packed
    ensures { result ≡ step_packed d.now.rows d.now.parent d.now.inner d.now.signals st c k whole }
{
    if MOST_CATEGORIES <= c {
        return st;
    }
    let row = row_at(&d.rows, st.signal);
    let q = digit_at(row, c);
    let b = digit_at(st.statuses, c);
    let status = status_of(b);
    let last = last_taken(status, q);
    if takes_at(&d.parent, status, last, k, whole) {
        moved_packed(d, st, c, b, k, whole, seek_from(d, row, c, q, k))
    } else {
        st
    }
}

// The place of signal s in category c is a proper ancestor of node k.
fn beyond(d: &Decoded, s: u8, c: usize, k: u8) -> bool
    requires { c < most_categories }
    ensures { result ≡ extends d.now.parent (digit (row_at d.now.rows s) c) k true }
{
    let q = digit_at(row_at(&d.rows, s), c);
    extends_of(&d.parent, q, k, true)
}

// Category c can have the byte b at signal s: 0, 1, or 1 + n for a node n of c that has nodes under it and lies beyond its place.
#[tactic(auto, unfolding(crate::specs::StatusByte::fits_by))]
pub fn fits(d: &Decoded, s: u8, c: usize, b: u8) -> bool
    ensures { result ≡ fits_by d.now.rows d.now.parent d.now.inner d.now.category d.now.nodes s c b }
{
    if b <= 1 {
        return true;
    }
    let i = usize::from(b - 2);
    c < MOST_CATEGORIES
        && i < d.nodes.min(MOST_NODES)
        && usize::from(d.category[i]) == c
        && d.inner[i]
        && beyond(d, s, c, b - 1)
}
