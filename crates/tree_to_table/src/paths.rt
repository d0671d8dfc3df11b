ghost use Rattle.std.specs.Prelude.{◌≡◌, ◌+◌, ◌≤◌, ◌<◌, length};
ghost use Rattle.base_numbers.specs.Numbers.{most_urn_parts};
ghost use Rattle.base_lists.specs.Lists.{tabulate, each};
ghost use Rattle.tree_bytes.specs.Laid.{Puts};
ghost use Rattle.tree_to_table.specs.Urns.{parent_of, ancestor_of, last_of, part_bytes, most_path};

use base_numbers::MOST_NODES;
use node_search::texts::text_at;
use tree_bytes::put::Writer;
use tree_sections::Sections;

// The parent of node k, or 0.
#[tactic(auto, unfolding(crate::specs::Urns::parent_of))]
fn parent_of(parent: &[u8; MOST_NODES], k: usize) -> usize
    ensures { result ≡ parent_of parent.now k }
{
    if (1..=MOST_NODES).contains(&k) {
        return usize::from(parent[k - 1]);
    }
    0
}

// The j-th ancestor of node k, itself for 0.
fn ancestor(parent: &[u8; MOST_NODES], k: usize, j: usize) -> usize
    ensures { result ≡ ancestor_of parent.now k j }
{
    let mut a = k;
    for _ in 0..j {
        a = parent_of(parent, a);
    }
    a
}

// The last name of node k, or none.
#[tactic(auto, unfolding(crate::specs::Urns::last_of))]
fn last_of<'a>(t: &'a [u8], s: &Sections, k: usize) -> &'a [u8]
    ensures result_value { result.now ≡ last_of t.now s.now.at s.now.len k }
    ensures short { length result.now ≤ 255 }
{
    if (1..=MOST_NODES).contains(&k) {
        return text_at(t, &s.at, &s.len, k - 1);
    }
    &t[..0]
}

// The n parts of node k, each after a colon.
pub(crate) fn put_path(t: &[u8], s: &Sections, k: usize, n: usize, w: &mut Writer)
    requires { (n ≤ most_urn_parts) × (w.old.at < 900000000) }
    ensures same_reference { w.new.buf.ghost_name ≡ w.old.buf.ghost_name }
    ensures puts { Puts w.old.buf.now w.new.buf.now w.old.at
        (each (part_bytes t.now s.now.parent s.now.at s.now.len k n) (tabulate (λ d. d) n)) w.new.at }
    ensures upper_bound { w.new.at ≤ w.old.at + most_path }
{
    for d in 0..n {
        w.byte(b':');
        let a = ancestor(&s.parent, k, n - 1 - d);
        w.all(last_of(t, s, a));
    }
}
