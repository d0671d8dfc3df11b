// The section of the nodes, written: each with its category, its parent and the last name of its path.
ghost use Rattle.std.specs.Prelude.{◌≡◌, ◌+◌, ◌≤◌, ◌<◌, ◌*◌, length, drop};
ghost use Rattle.base_numbers.specs.Numbers.{most_nodes};
ghost use Rattle.base_lists.specs.Lists.{tabulate};
ghost use Rattle.base_text.specs.Text.{fields};
ghost use Rattle.tree_forms.specs.Bytes.{section, node_bytes};
ghost use Rattle.tree_forms.specs.Meaning.{last_name};
ghost use Rattle.tree_bytes.specs.Laid.{Puts, farthest};
ghost use Rattle.tree_from_table.specs.Stored.{stored_node, most_node};

use base_bytes::numbers::small;
use base_text::cut::text_in;
use node_search::decoded::Decoded;
use tree_bytes::put::Writer;

// Where the last name of a path begins: after its last colon.
fn last_start(w: &[u8]) -> usize
    ensures { (result ≤ length w.now) × (drop result w.now ≡ last_name (fields 58 w.now)) }
{
    for i in (0..w.len()).rev() {
        if w[i] == b':' {
            return i + 1;
        }
    }
    0
}

// The node at index i: its category, its parent and the last name of its path.
fn put_node(t: &[u8], d: &Decoded, i: usize, w: &mut Writer)
    requires { (i < most_nodes) × (w.old.at + most_node ≤ farthest) }
    ensures same_reference { w.new.buf.ghost_name ≡ w.old.buf.ghost_name }
    ensures puts { Puts w.old.buf.now w.new.buf.now w.old.at (node_bytes (stored_node t.now d.now.category d.now.parent d.now.at d.now.len i)) w.new.at }
    ensures upper_bound { w.new.at ≤ w.old.at + most_node }
{
    w.byte(d.category[i]);
    w.byte(d.parent[i]);
    let path = text_in(t, d.at[i], d.len[i]);
    w.text(&path[last_start(path)..]);
}

// The section of the nodes.
pub(crate) fn put_nodes(t: &[u8], d: &Decoded, w: &mut Writer)
    requires { (d.now.nodes ≤ most_nodes) × (w.old.at ≤ 4000) }
    ensures same_reference { w.new.buf.ghost_name ≡ w.old.buf.ghost_name }
    ensures puts { Puts w.old.buf.now w.new.buf.now w.old.at
        (section node_bytes (tabulate (stored_node t.now d.now.category d.now.parent d.now.at d.now.len) d.now.nodes)) w.new.at }
    ensures upper_bound { w.new.at ≤ w.old.at + 1 + most_nodes * most_node }
{
    w.byte(small(d.nodes));
    for i in 0..d.nodes {
        put_node(t, d, i, w);
    }
}
