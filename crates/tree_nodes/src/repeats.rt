// No two nodes have the same category, parent and last name.
ghost use Rattle.std.specs.Prelude.{◌≡◌, ◌≤◌, ◌<◌};
ghost use Rattle.base_numbers.specs.Numbers.{most_nodes};
ghost use Rattle.base_lists.specs.Tests.{any, no_two};
ghost use Rattle.base_lists.specs.Lists.{tabulate};
ghost use Rattle.tree_sections.specs.Held.{node_from};
ghost use Rattle.tree_nodes.specs.Scan.{same_node};

use node_search::texts::text_at;
use tree_sections::Sections;

// The nodes at the indexes i and j have the same category, parent and last name.
fn alike(t: &[u8], s: &Sections, i: usize, j: usize) -> bool
    requires { (i < most_nodes) × (j < most_nodes) }
    ensures { result ≡ same_node (node_from t.now s.now.category s.now.parent s.now.at s.now.len i)
        (node_from t.now s.now.category s.now.parent s.now.at s.now.len j) }
{
    s.category[i] == s.category[j]
        && s.parent[i] == s.parent[j]
        && text_at(t, &s.at, &s.len, i) == text_at(t, &s.at, &s.len, j)
}

// Some node before the one at index i is alike.
fn node_again(t: &[u8], s: &Sections, i: usize) -> bool
    requires { i < most_nodes }
    ensures { result ≡ any (λ y. same_node y (node_from t.now s.now.category s.now.parent s.now.at s.now.len i))
        (tabulate (node_from t.now s.now.category s.now.parent s.now.at s.now.len) i) }
{
    (0..i).any(|j| alike(t, s, j, i))
}

// No two nodes are alike.
pub(crate) fn nodes_distinct(t: &[u8], s: &Sections) -> bool
    requires { s.now.counts.nodes ≤ most_nodes }
    ensures { result ≡ no_two same_node (tabulate (node_from t.now s.now.category s.now.parent s.now.at s.now.len) s.now.counts.nodes) }
{
    (0..s.counts.nodes).all(|i| !node_again(t, s, i))
}
