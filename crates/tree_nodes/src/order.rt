// Every number of a signal is a node, and every node is used, in its order.
ghost use Rattle.std.specs.Prelude.{◌≡◌, ℕ, ◌≤◌, ◌<◌, get_or};
ghost use Rattle.base_numbers.specs.Numbers.{most_nodes, most_table_urns};
ghost use Rattle.base_lists.specs.Tests.{all};
ghost use Rattle.base_lists.specs.Numbers.{within};
ghost use Rattle.base_lists.specs.Lists.{tabulate};
ghost use Rattle.tree_nodes.specs.Tests.{linked_by, step_by, scan_by};

use base_numbers::MOST_NODES;
use tree_sections::Sections;

// Every number is that of a node.
pub(crate) fn numbers_known(s: &Sections) -> bool
    requires { s.now.counts.numbers ≤ most_table_urns }
    ensures { result ≡ all (within 1 s.now.counts.nodes) (tabulate (λ i. get_or s.now.number i 0) s.now.counts.numbers) }
{
    s.number[..s.counts.numbers]
        .iter()
        .all(|k| (1..=s.counts.nodes).contains(&usize::from(*k)))
}

// Each node after node m + 1 and up to node k has the node before it for its parent.
fn linked(parent: &[u8; MOST_NODES], m: usize, k: usize) -> bool
    requires { (m < k) × (k ≤ most_nodes) }
    ensures { result ≡ linked_by parent.now m k }
{
    (m + 1..k).all(|i| usize::from(parent[i]) == i)
}

// How many nodes are used, if the first m are, and then node k; none if not in order.
fn step(parent: &[u8; MOST_NODES], m: usize, k: usize) -> Option<usize>
    requires { k ≤ most_nodes }
    ensures { result ≡ step_by parent.now m k }
{
    if k <= m {
        Some(m)
    } else if linked(parent, m, k) {
        Some(k)
    } else {
        None
    }
}

// How many nodes the numbers use, in order; none if not in order.
pub(crate) fn scan(s: &Sections) -> Option<usize>
    requires { (s.now.counts.numbers ≤ most_table_urns) × ((i : ℕ) → i < s.now.counts.numbers → get_or s.now.number i 0 ≤ most_nodes) }
    ensures { result ≡ scan_by s.now.parent 0 (tabulate (λ i. get_or s.now.number i 0) s.now.counts.numbers) }
{
    let mut used = 0;
    for i in 0..s.counts.numbers {
        used = step(&s.parent, used, usize::from(s.number[i]))?;
    }
    Some(used)
}
