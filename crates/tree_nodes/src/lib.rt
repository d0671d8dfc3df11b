// The nodes of a table with the tree written once: their names, and refusal 21.
//
// In: a tree's sections as places in the bytes. Out: 7 for names, and 21, each as a test.
//
//   texts.rt    the form of last names
//   parents.rt  categories and parents
//   repeats.rt  no node stands twice
//   order.rt    every node is used, in its order
#![tactic(auto)]

use base_numbers::{MOST_NODES, MOST_TABLE_URNS};
use tree_sections::Sections;

mod order;
mod parents;
mod repeats;
pub mod texts;

ghost use Rattle.std.specs.Prelude.{◌≡◌, ◌≤◌};
ghost use Rattle.base_numbers.specs.Numbers.{most_nodes, most_table_urns};
ghost use Rattle.tree_nodes.specs.Tests.{grown_by, grown_in};

// The tests of 21, in this order.
#[tactic(auto, using(crate::proofs::Tests::numbers_small), unfolding(crate::specs::Tests::grown_by))]
fn grows(t: &[u8], s: &Sections) -> bool
    requires { (s.now.counts.nodes ≤ most_nodes) × (s.now.counts.numbers ≤ most_table_urns) }
    ensures { result ≡ grown_by t.now s.now.category s.now.parent s.now.at s.now.len s.now.number s.now.counts.categories s.now.counts.nodes s.now.counts.numbers }
{
    parents::categories_known(s)
        && order::numbers_known(s)
        && parents::parents_right(s)
        && repeats::nodes_distinct(t, s)
        && order::scan(s).is_some_and(|used| used == s.counts.nodes)
}

// Whether the tree of these sections is not refused with 21; false for over 64 nodes or 256 numbers.
#[tactic(auto, unfolding(crate::specs::Tests::grown_in))]
pub fn grown(t: &[u8], s: &Sections) -> bool
    ensures { result ≡ grown_in t.now s.now.category s.now.parent s.now.at s.now.len s.now.number s.now.counts.categories s.now.counts.nodes s.now.counts.numbers }
{
    s.counts.nodes <= MOST_NODES && s.counts.numbers <= MOST_TABLE_URNS && grows(t, s)
}
