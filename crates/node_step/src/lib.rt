// The step of direct resolution, on the numbers of nodes and signals.
//
// In: a decoded table, a state, and what is said: a category, a node or the root, and whether that is all of it. Out: the next
// state.
//
//   lib.rt     the step: which category takes what is said, the search for a signal, and the state after it
//   tries.rt   the step with the candidates that it tries
//   rows.rt    a signal's places in one number, read and set
//   stored.rt  a state's statuses as bytes in one number, and the step on them
#![tactic(auto)]

pub mod rows;
pub mod stored;
pub mod tries;

ghost use Rattle.std.specs.Prelude.{◌≡◌, ◌<◌, min, eqb, position};
ghost use Rattle.base_numbers.specs.Numbers.{most_categories, most_signals, most_tries};
ghost use Rattle.node_step.specs.Step.{row_at, digit, put, parent_of, inner_at, reaches, find_row, found_at, seek, extends, is_shut, last_taken};
ghost use Rattle.node_step.specs.Step.{takes_past, status_from, moved, hit_numbers, step_numbers};

use base_numbers::{MOST_CATEGORIES, MOST_NODES, MOST_SIGNALS, MOST_TRIES};
use node_search::decoded::Decoded;

// What is kept of the last URN that a category took: the category is open at its place, held at a node, or shut for good.
#[derive(Clone, Copy, PartialEq, Eq)]
pub enum Status {
    Open,
    Held(u8),
    Shut,
}

// One category's progress.
#[derive(Clone, Copy, PartialEq, Eq)]
pub struct Progress {
    pub status: Status,
}

// The current signal, and each category's progress; those past the table's are open.
#[derive(Clone, Copy)]
pub struct State {
    pub signal: u8,
    pub categories: [Progress; MOST_CATEGORIES],
}

// A signal that was found, with the node at which it was.
#[derive(Clone, Copy)]
pub struct Hit {
    pub node: u8,
    pub signal: u8,
}

// The places of a signal, one byte for each category.
pub fn row_at(rows: &[u64; MOST_SIGNALS], s: u8) -> u64
    ensures { result ≡ row_at rows.now s }
{
    rows.get(usize::from(s)).copied().unwrap_or(0)
}

// The place in category c.
pub(crate) fn digit_at(row: u64, c: usize) -> u8
    requires { c < most_categories }
    ensures { result ≡ digit row c }
{
    ((row >> (8 * c)) % 256) as u8
}

// The row with p for its place q in category c.
pub(crate) fn put_at(row: u64, c: usize, q: u8, p: u8) -> u64
    requires { (c < most_categories) × (q ≡ digit row c) }
    ensures { result ≡ put row c p }
{
    let k = 8 * c;
    row - (u64::from(q) << k) + (u64::from(p) << k)
}

// The number of a node's parent.
fn parent(parents: &[u8; MOST_NODES], d: u8) -> u8
    ensures { result ≡ parent_of parents.now d }
{
    if d == 0 {
        0
    } else {
        parents.get(usize::from(d) - 1).copied().unwrap_or(0)
    }
}

// Node d has nodes under it.
pub fn inner_at(inner: &[bool; MOST_NODES], d: u8) -> bool
    ensures { result ≡ inner_at inner.now d }
{
    d != 0 && inner.get(usize::from(d) - 1).copied().unwrap_or(false)
}

// The node or root q is d or an ancestor of d, at most 8 nodes above it.
pub fn reaches_of(parents: &[u8; MOST_NODES], q: u8, d: u8) -> bool
    ensures { result ≡ reaches parents.now q most_tries d }
{
    let mut p = d;
    for _ in 0..MOST_TRIES {
        if p == q {
            return true;
        }
        if p == 0 {
            return false;
        }
        p = parent(parents, p);
    }
    false
}

// The first of the rows that is the key.
fn first_row(rows: &[u64], key: u64) -> Option<usize>
    ensures { result ≡ position (λ r. eqb r key) rows.now }
{
    rows.iter().position(|r| *r == key)
}

// The signal with this row among the first n, at most 32.
pub fn find_signal(rows: &[u64; MOST_SIGNALS], n: usize, key: u64) -> Option<u8>
    ensures { result ≡ found_at (find_row rows.now key 0 (min n most_signals)) }
{
    let i = first_row(&rows[..n.min(MOST_SIGNALS)], key)?;
    Some(i as u8)
}

// The first of k and its ancestors down to q at which there is a signal with that place in c and the row's places elsewhere.
pub(crate) fn seek_from(d: &Decoded, row: u64, c: usize, q: u8, k: u8) -> Option<Hit>
    requires { (c < most_categories) × (q ≡ digit row c) }
    ensures { result ≡ seek d.now.rows d.now.parent (min d.now.signals most_signals) row c q most_tries k }
{
    let mut p = k;
    for _ in 0..MOST_TRIES {
        let key = put_at(row, c, q, p);
        if let Some(signal) = find_signal(&d.rows, d.signals, key) {
            return Some(Hit { node: p, signal });
        }
        if p == q {
            return None;
        }
        p = parent(&d.parent, p);
    }
    None
}

// The node or root q is a proper ancestor of what is said: d itself if whole, something under d if not.
#[tactic(auto, unfolding(crate::specs::Step::extends))]
pub fn extends_of(parents: &[u8; MOST_NODES], q: u8, d: u8, whole: bool) -> bool
    ensures { result ≡ extends parents.now q d whole }
{
    !(whole && d == q) && reaches_of(parents, q, d)
}

// A category with this status is shut.
#[tactic(auto, unfolding(crate::specs::Step::is_shut))]
fn is_shut(status: Status) -> bool
    ensures { result ≡ is_shut status }
{
    matches!(status, Status::Shut)
}

// The node of the URN last taken in a category with the place q, or the root.
#[tactic(auto, unfolding(crate::specs::Step::last_taken))]
pub(crate) fn last_taken(status: Status, q: u8) -> u8
    ensures { result ≡ last_taken status q }
{
    match status {
        Status::Held(w) => w,
        Status::Open | Status::Shut => q,
    }
}

// A category takes what is said: it is not shut, and what is said properly extends the URN last taken there.
#[tactic(auto, unfolding(crate::specs::Step::takes_past))]
pub(crate) fn takes_at(
    parents: &[u8; MOST_NODES],
    status: Status,
    last: u8,
    d: u8,
    whole: bool,
) -> bool
    ensures { result ≡ takes_past parents.now status last d whole }
{
    !is_shut(status) && extends_of(parents, last, d, whole)
}

// A category's status after a signal was found at node p: open if all of what is said was found, else held at d, or shut.
#[tactic(auto, unfolding(crate::specs::Step::status_from))]
pub(crate) fn status_from(inner: &[bool; MOST_NODES], d: u8, whole: bool, p: u8) -> Status
    ensures { result ≡ status_from inner.now d whole p }
{
    if !whole {
        Status::Shut
    } else if p == d {
        Status::Open
    } else if inner_at(inner, d) {
        Status::Held(d)
    } else {
        Status::Shut
    }
}

// The state after a search.
#[tactic(auto, unfolding(crate::specs::Step::moved))]
fn moved_by(d: &Decoded, st: State, c: usize, k: u8, whole: bool, found: Option<Hit>) -> State
    requires { c < most_categories }
    ensures { result ≡ moved d.now.inner st c k whole found }
{
    match found {
        Some(h) => {
            let mut categories = st.categories;
            categories[c] = Progress {
                status: status_from(&d.inner, k, whole, h.node),
            };
            State {
                signal: h.signal,
                categories,
            }
        }
        None => st,
    }
}

// The signal found for what is said at the node or root with number k, in category c, if the category takes it.
#[tactic(auto, unfolding(crate::specs::Step::hit_numbers))]
fn hit_for(d: &Decoded, st: State, c: usize, k: u8, whole: bool) -> Option<Hit>
    requires { c < most_categories }
    ensures { result ≡ hit_numbers d.now.rows d.now.parent d.now.signals st c k whole }
{
    let row = row_at(&d.rows, st.signal);
    let q = digit_at(row, c);
    let status = st.categories[c].status;
    let last = last_taken(status, q);
    if takes_at(&d.parent, status, last, k, whole) {
        seek_from(d, row, c, q, k)
    } else {
        None
    }
}

// One step at the node or root with number k, in category c.
#[tactic(auto, unfolding(crate::specs::Step::step_numbers))]
pub fn step(d: &Decoded, st: State, c: usize, k: u8, whole: bool) -> State
    ensures { result ≡ step_numbers d.now.rows d.now.parent d.now.inner d.now.signals st c k whole }
{
    if c < MOST_CATEGORIES {
        moved_by(d, st, c, k, whole, hit_for(d, st, c, k, whole))
    } else {
        st
    }
}
