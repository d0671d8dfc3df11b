// How many bytes and how many parts the URN of each node has, and whether those that are used are within their limits: refusals 6 and 7.
ghost use Rattle.std.specs.Prelude.{◌≡◌, cond, ◌≤◌, ◌-◌, length, get_or, eqb, leb};
ghost use Rattle.base_numbers.specs.Numbers.{most_nodes, most_table_bytes, most_table_urns};
ghost use Rattle.base_lists.specs.Tests.{all};
ghost use Rattle.base_lists.specs.Lists.{tabulate};
ghost use Rattle.tree_decode.specs.Stages.{Parented, Sizes, Depths, UrnCategories, Nodes};

use base_numbers::{MOST_NODES, MOST_TABLE_URNS};
use node_search::texts::text_at;
use tree_sections::Sections;

// What node p has, or `first` if p is 0.
fn above(p: usize, first: usize, out: &[usize; MOST_NODES]) -> usize
    requires { p ≤ most_nodes }
    ensures { result ≡ cond (eqb p 0) first (get_or out.now (p - 1) 0) }
{
    if p == 0 { first } else { out[p - 1] }
}

// How many bytes the URN of each node has in the old form.
pub(crate) fn sizes(t: &[u8], s: &Sections, out: &mut [usize; MOST_NODES])
    requires { (s.now.counts.nodes ≤ most_nodes) × (length t.now ≤ most_table_bytes) × Parented s.now.parent s.now.category s.now.counts.nodes }
    ensures { Sizes t.now s.now.name_at s.now.name_len s.now.category s.now.parent s.now.at s.now.len s.now.counts.nodes out.new }
{
    for i in 0..s.counts.nodes {
        let p = usize::from(s.parent[i]);
        let c = usize::from(s.category[i]);
        let first = text_at(t, &s.name_at, &s.name_len, c).len();
        let last = text_at(t, &s.at, &s.len, i).len();
        let base = above(p, first, out);
        let size = base + 1 + last;
        out[i] = size;
    }
}

// How many parts the URN of each node has.
pub(crate) fn depths(s: &Sections, out: &mut [usize; MOST_NODES])
    requires { (s.now.counts.nodes ≤ most_nodes) × Parented s.now.parent s.now.category s.now.counts.nodes }
    ensures { Depths s.now.parent s.now.counts.nodes out.new }
{
    for i in 0..s.counts.nodes {
        let p = usize::from(s.parent[i]);
        let base = above(p, 0, out);
        let depth = base + 1;
        out[i] = depth;
    }
}

// Every number's node has at most so much.
pub(crate) fn all_within(s: &Sections, out: &[usize; MOST_NODES], most: usize) -> bool
    requires { (s.now.counts.numbers ≤ most_table_urns) × Nodes s.now.number s.now.counts.numbers }
    ensures { result ≡ all (λ k. leb (get_or out.now (k - 1) 0) most) (tabulate (λ i. get_or s.now.number i 0) s.now.counts.numbers) }
{
    (0..s.counts.numbers).all(|i| out[usize::from(s.number[i]) - 1] <= most)
}

// The category of every number's node.
pub(crate) fn urn_categories(s: &Sections, out: &mut [u8; MOST_TABLE_URNS])
    requires { (s.now.counts.numbers ≤ most_table_urns) × Nodes s.now.number s.now.counts.numbers }
    ensures { UrnCategories s.now.number s.now.category out.new s.now.counts.numbers }
{
    for i in 0..s.counts.numbers {
        let k = usize::from(s.number[i]);
        out[i] = s.category[k - 1];
    }
}
