// Every category is there, and every parent is an earlier node of the same category.
ghost use Rattle.std.specs.Prelude.{◌≡◌, ◌≤◌, ◌<◌, get_or, ltb};
ghost use Rattle.base_numbers.specs.Numbers.{most_nodes};
ghost use Rattle.base_lists.specs.Tests.{all};
ghost use Rattle.base_lists.specs.Lists.{tabulate};
ghost use Rattle.tree_nodes.specs.Tests.{under_at};

use tree_sections::Sections;

// Every node's category is there.
pub(crate) fn categories_known(s: &Sections) -> bool
    requires { s.now.counts.nodes ≤ most_nodes }
    ensures { result ≡ all (λ x. ltb x s.now.counts.categories) (tabulate (λ i. get_or s.now.category i 0) s.now.counts.nodes) }
{
    s.category[..s.counts.nodes]
        .iter()
        .all(|x| usize::from(*x) < s.counts.categories)
}

// The parent of the node at index i is 0, or a node of the same category before it.
fn parent_right(s: &Sections, i: usize) -> bool
    requires { i < most_nodes }
    ensures { result ≡ under_at s.now.category s.now.parent i }
{
    let p = usize::from(s.parent[i]);
    p == 0 || p <= i && s.category[p - 1] == s.category[i]
}

// Every parent is right.
pub(crate) fn parents_right(s: &Sections) -> bool
    requires { s.now.counts.nodes ≤ most_nodes }
    ensures { result ≡ all (under_at s.now.category s.now.parent) (tabulate (λ i. i) s.now.counts.nodes) }
{
    (0..s.counts.nodes).all(|i| parent_right(s, i))
}
