// The nodes that lead to a signal, as few as possible: back from signal to signal, each time to the first one that leads there.
ghost use Rattle.std.specs.Prelude.{◌≡◌, ◌∷◌, map, suc, ◌+◌, ◌≤◌, ◌<◌, eqb};
ghost use Rattle.base_numbers.specs.Numbers.{most_nodes, most_signals};
ghost use Rattle.theory_kept.specs.Way.{symbol_to, state_before, way_to};
ghost use Rattle.table_kept.specs.Marks.{next_in};
ghost use Rattle.table_kept.specs.Held.{signals_in, nodes_in, before_in, node_back};

use crate::found::Found;
use crate::marks::target;
use crate::passed::Way;

// The index of the first node that leads from signal s to x, or `nodes`.
fn node_to(all: &[u8; 2048], nodes: usize, s: u8, x: u8) -> usize
    requires { nodes ≤ most_nodes }
    ensures { (result ≡ symbol_to eqb (next_in all.now) nodes 0 s x) × (result ≤ nodes) }
{
    for k in 0..nodes {
        if target(all, s, k) == x {
            return k;
        }
    }
    nodes
}

// The number of the first signal from which a node leads to x, or how many signals there are.
fn signal_before(all: &[u8; 2048], nodes: usize, h: Found, x: u8) -> usize
    requires { nodes ≤ most_nodes }
    ensures { result ≡ state_before eqb (next_in all.now) nodes 0 (signals_in h) x }
{
    for a in 0..h.count {
        if node_to(all, nodes, h.at(a), x) < nodes {
            return a;
        }
    }
    h.count
}

// The number of the signal before the one with number `at`, and the nodes from it on.
fn step_back(all: &[u8; 2048], nodes: usize, h: Found, at: usize, w: Way) -> (usize, Way)
    requires { (nodes ≤ most_nodes) × (w.len < most_signals) }
    ensures { (result.0 ≡ before_in (next_in all.now) nodes (signals_in h) at)
        × (result.1.len ≡ w.len + 1)
        × (nodes_in result.1 ≡ suc (node_back (next_in all.now) nodes (signals_in h) at) ∷ nodes_in w) }
{
    let x = h.at(at);
    let b = signal_before(all, nodes, h, x);
    let k = node_to(all, nodes, h.at(b), x);
    (b, w.with_first((k + 1) as u8))
}

// The nodes that lead to the signal with number j.
pub(crate) fn way_to(all: &[u8; 2048], nodes: usize, h: Found, j: usize) -> Way
    requires { (nodes ≤ most_nodes) × (j < most_signals) }
    ensures { (result.len ≤ j) × (nodes_in result ≡ map suc (way_to eqb (next_in all.now) nodes 0 (signals_in h) j)) }
{
    let mut at = j;
    let mut way = Way::none();
    let mut left = j;
    // The steps are counted only so that it is known to end; what ends it is signal 0.
    while 0 < left && at != 0 {
        (at, way) = step_back(all, nodes, h, at, way);
        left -= 1;
    }
    way
}
