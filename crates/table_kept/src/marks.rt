// Which nodes may be given, and the signal after a node that is given at a signal.
ghost use Rattle.std.specs.Prelude.{◌≡◌, true, false, cond, ℕ, ◌/◌, ◌%◌, ◌*◌, ◌≤◌, ◌<◌, eqb, get_or, length};
ghost use Rattle.base_numbers.specs.Numbers.{most_nodes, most_signals};
ghost use Rattle.node_step.specs.Step.{reaches, found_at};
ghost use Rattle.table_kept.specs.Marks.{with_node, after_node, precedes as precedes_at, next_by, next_in, open_state, rings_at};

use base_numbers::{MOST_CATEGORIES, MOST_NODES};
use node_step::rows::{place_in, with_place};
use node_step::{Progress, State, Status, extends_of, find_signal, reaches_of, row_at, step};
use table_decode::Decoded;

// The signal with this node for its place in category c and the places of signal s in every other.
pub(crate) fn with_node(d: &Decoded, s: u8, c: usize, node: u8) -> Option<u8>
    requires { d.now.signals ≤ most_signals }
    ensures { result ≡ found_at (with_node d.now.rows d.now.signals s c node) }
{
    let row = row_at(&d.rows, s);
    find_signal(&d.rows, d.signals, with_place(row, c, node))
}

// The signal after a node of category c, given at signal s.
fn after_node(d: &Decoded, s: u8, c: usize, node: u8) -> u8
    requires { d.now.signals ≤ most_signals }
    ensures { result ≡ after_node d.now.rows d.now.parent d.now.signals s c node }
{
    let q = place_in(row_at(&d.rows, s), c);
    if !extends_of(&d.parent, q, node, true) {
        return s;
    }
    with_node(d, s, c, node).unwrap_or(s)
}

// A node b of category e may be given before node d of category c: it is of another category, or d or an ancestor of d.
fn precedes(parents: &[u8; MOST_NODES], e: u8, b: u8, c: u8, d: u8) -> bool
    ensures { result ≡ cond (eqb e c) (reaches parents.now b 9 d) true }
{
    e != c || reaches_of(parents, b, d)
}

// Which of the nodes may be given before this node of category c, each at its index.
pub(crate) fn before(d: &Decoded, c: u8, node: u8) -> [bool; MOST_NODES]
    requires { d.now.nodes ≤ most_nodes }
    ensures { (k : ℕ) → k < d.now.nodes → get_or result k false ≡ precedes_at d.now.parent d.now.category c node k }
{
    let mut may = [false; MOST_NODES];
    for k in 0..d.nodes {
        may[k] = precedes(&d.parent, d.category[k], (k + 1) as u8, c, node);
    }
    may
}

// The signal after the node with index k, given at signal s, if it may be given.
fn next_by(d: &Decoded, may: &[bool; MOST_NODES], s: u8, k: usize) -> u8
    requires { (d.now.signals ≤ most_signals) × (k < most_nodes) }
    ensures { result ≡ next_by d.now.rows d.now.parent d.now.category d.now.signals may.now s k }
{
    if !may[k] {
        return s;
    }
    after_node(d, s, usize::from(d.category[k]), (k + 1) as u8)
}

// Stores the signals after each node at each signal, 64 bytes for a signal.
pub(crate) fn store_targets(d: &Decoded, may: &[bool; MOST_NODES], all: &mut [u8; 2048])
    requires { (d.now.signals ≤ most_signals) × (length all.old ≡ 2048) }
    ensures { (i : ℕ) → i < d.now.signals * most_nodes
        → get_or all.new i 0 ≡ next_by d.now.rows d.now.parent d.now.category d.now.signals may.now (i / most_nodes) (i % most_nodes) }
{
    for i in 0..d.signals * MOST_NODES {
        all[i] = next_by(d, may, (i / MOST_NODES) as u8, i % MOST_NODES);
    }
}

// The signal after the node with index k, given at signal s, as it was stored.
pub(crate) fn target(all: &[u8; 2048], s: u8, k: usize) -> u8
    requires { k < most_nodes }
    ensures { result ≡ next_in all.now s k }
{
    let i = usize::from(s) * MOST_NODES + k;
    if i < 2048 { all[i] } else { 0 }
}

// Signal s, with every category open.
fn open_at(s: u8) -> State
    ensures { result ≡ open_state s }
{
    State {
        signal: s,
        categories: [Progress {
            status: Status::Open,
        }; MOST_CATEGORIES],
    }
}

// The signal of direct resolution after a node of category c, given at signal s with every category open.
pub(crate) fn rings(d: &Decoded, s: u8, c: usize, node: u8) -> u8
    ensures { result ≡ rings_at d.now.rows d.now.parent d.now.inner d.now.signals s c node }
{
    step(d, open_at(s), c, node, true).signal
}
