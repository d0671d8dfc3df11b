// What the search keeps of each node beside its category and path: how many bytes the path shares with the one before it in its
// category, and whether the node has nodes under it. Found once, when a table is decoded.
ghost use Rattle.std.specs.Prelude.{◌≡◌, false, not, ◌||◌, ℕ, ◌+◌, ◌≤◌, ◌<◌, min, eqb, length, get_or};
ghost use Rattle.base_numbers.specs.Numbers.{most_nodes};
ghost use Rattle.base_lists.specs.Lists.{tabulate};
ghost use Rattle.node_search.specs.Arrays.{last_path, shared_of, SharedIn, childless, inner_of};

use crate::texts::text_at;
use base_numbers::{LAST_NODE, MOST_NODES};

#[derive(Clone, Copy)]
pub struct Marks {
    pub shared: [u8; MOST_NODES],
    pub inner: [bool; MOST_NODES],
}

// Node p is marked, if that is a node's number.
fn mark(p: u8, inner: &mut [bool; MOST_NODES])
    requires { length inner.old ≡ most_nodes }
    ensures inner_len { length inner.new ≡ most_nodes }
    ensures by_index { (k : ℕ) → k < most_nodes → get_or inner.new k false ≡ (get_or inner.old k false || eqb p (k + 1)) }
{
    if (1..=LAST_NODE).contains(&p) {
        inner[usize::from(p) - 1] = true;
    }
}

// Of n nodes those that are a node's parent are marked.
#[tactic(auto, unfolding(crate::specs::Arrays::childless))]
fn mark_parents(parents: &[u8; MOST_NODES], n: usize, inner: &mut [bool; MOST_NODES])
    requires { (n ≤ most_nodes) × (length inner.old ≡ most_nodes) × ((k : ℕ) → k < most_nodes → get_or inner.old k false ≡ false) }
    ensures inner_len { length inner.new ≡ most_nodes }
    ensures by_index { (k : ℕ) → k < most_nodes → get_or inner.new k false ≡ not (childless parents.now (k + 1) n) }
{
    for i in 0..n {
        mark(parents[i], inner);
    }
}

// The path of the last of the first i nodes that is of category c, or no bytes.
#[tactic(auto, unfolding(crate::specs::Arrays::last_path))]
fn path_before<'a>(
    t: &'a [u8],
    c: u8,
    i: usize,
    category: &[u8; MOST_NODES],
    at: &[u16; MOST_NODES],
    len: &[u8; MOST_NODES],
) -> &'a [u8]
    requires { i ≤ most_nodes }
    ensures { result.now ≡ last_path t.now category.now at.now len.now c i }
{
    for k in (0..i).rev() {
        if category[k] == c {
            return text_at(t, at, len, k);
        }
    }
    &[]
}

// How many bytes the path of each of n nodes has in common with the one before it in its category.
fn share_paths(
    t: &[u8],
    n: usize,
    category: &[u8; MOST_NODES],
    at: &[u16; MOST_NODES],
    len: &[u8; MOST_NODES],
    shared: &mut [u8; MOST_NODES],
)
    requires { (n ≤ most_nodes) × (length shared.old ≡ most_nodes) × ((k : ℕ) → get_or shared.old k 0 ≡ 0) }
    ensures shared_len { (length shared.new ≡ most_nodes) × ((k : ℕ) → n ≤ k → get_or shared.new k 0 ≡ 0) }
    ensures shared_in { SharedIn t.now category.now at.now len.now shared.new n }
{
    for i in 0..n {
        let before = path_before(t, category[i], i, category, at, len);
        let path = text_at(t, at, len, i);
        let k = base_text::compare::common_from(before, path, 0);
        shared[i] = base_bytes::numbers::small(k);
    }
}

// The marks of the nodes that the arrays hold, at most 64; those past them share nothing.
pub fn of_nodes(
    t: &[u8],
    category: &[u8; MOST_NODES],
    parent: &[u8; MOST_NODES],
    at: &[u16; MOST_NODES],
    len: &[u8; MOST_NODES],
    nodes: usize,
) -> Marks
    ensures { (result.shared ≡ tabulate (shared_of t.now category.now at.now len.now (min nodes most_nodes)) most_nodes)
        × (result.inner ≡ tabulate (inner_of parent.now (min nodes most_nodes)) most_nodes) }
{
    let n = nodes.min(MOST_NODES);
    let mut shared = [0; MOST_NODES];
    share_paths(t, n, category, at, len, &mut shared);
    let mut inner = [false; MOST_NODES];
    mark_parents(parent, n, &mut inner);
    Marks { shared, inner }
}
