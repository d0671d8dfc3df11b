// The signals that nodes lead to from signal 0 on, breadth first, and the first of them at which a node is lost.
ghost use Rattle.std.specs.Prelude.{◌≡◌, ℕ, ◌+◌, ◌≤◌, ◌<◌, eqb, length, MatchOption};
ghost use Rattle.base_numbers.specs.Numbers.{most_nodes, most_signals};
ghost use Rattle.theory_resolution.specs.Discovery.{expand, discover as discover_by};
ghost use Rattle.table_kept.specs.Marks.{next_in, loss_at};
ghost use Rattle.table_kept.specs.Held.{signals_in};

use crate::found::Found;
use crate::marks::{target, with_node};
use table_decode::Decoded;

// With the signals that the first `nodes` nodes lead to from signal s.
fn expand_by(all: &[u8; 2048], nodes: usize, h: Found, s: u8) -> Found
    requires { (nodes ≤ most_nodes) × (length (expand eqb (next_in all.now) s nodes (signals_in h)) ≤ most_signals) }
    ensures { signals_in result ≡ expand eqb (next_in all.now) s nodes (signals_in h) }
{
    let mut found = h;
    for k in 0..nodes {
        found = found.with(target(all, s, k));
    }
    found
}

// The signals after the turn of the one with number i, if there is one.
fn turn(all: &[u8; 2048], nodes: usize, h: Found, i: usize) -> Found
    requires { (nodes ≤ most_nodes)
        × (signals_in h ≡ discover_by eqb (next_in all.now) nodes 0 i)
        × ((j : ℕ) → length (discover_by eqb (next_in all.now) nodes 0 j) ≤ most_signals) }
    ensures { signals_in result ≡ discover_by eqb (next_in all.now) nodes 0 (i + 1) }
{
    if i < h.count {
        return expand_by(all, nodes, h, h.at(i));
    }
    h
}

// The signals that the nodes lead to, after as many turns as there are signals.
pub(crate) fn discover(all: &[u8; 2048], nodes: usize, signals: usize) -> Found
    requires { (nodes ≤ most_nodes) × ((i : ℕ) → length (discover_by eqb (next_in all.now) nodes 0 i) ≤ most_signals) }
    ensures { signals_in result ≡ discover_by eqb (next_in all.now) nodes 0 signals }
{
    let mut h = Found::start();
    for i in 0..signals {
        h = turn(all, nodes, h, i);
    }
    h
}

// The number of the first signal at which a node of category c is lost.
pub(crate) fn first_loss(d: &Decoded, h: Found, c: usize, node: u8) -> Option<usize>
    requires { d.now.signals ≤ most_signals }
    ensures { MatchOption result (loss_at d.now.rows d.now.signals (signals_in h) c node ≡ h.count)
        (λ j. (j ≡ loss_at d.now.rows d.now.signals (signals_in h) c node) × (j < h.count)) }
{
    for j in 0..h.count {
        let s = h.at(j);
        if with_node(d, s, c, node).is_none() {
            return Some(j);
        }
    }
    None
}
