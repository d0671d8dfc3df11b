// The section of the nodes, read from the left.
ghost use Rattle.std.specs.Prelude.{◌≡◌, ◌≤◌, length};
ghost use Rattle.base_numbers.specs.Numbers.{most_nodes, most_table_bytes};
ghost use Rattle.table_sections.specs.Stored.{times};
ghost use Rattle.table_sections.specs.Held.{held_read, read_up_to, read_at_most};
ghost use Rattle.tree_sections.specs.Tree.{node, nodes};
ghost use Rattle.tree_sections.specs.Held.{node_read, node_inside, node_from};

use base_bytes::numbers::{short, small};
use base_numbers::{MOST_NAME_BYTES, MOST_NODES, Refusal};
use table_sections::bytes::{Reading, byte_in, read_text};

// A node that was read: its category and its parent, the length of its last name, and the position after it.
#[derive(Clone, Copy)]
pub struct Found {
    pub category: u8,
    pub parent: u8,
    pub len: usize,
    pub next: usize,
}

// One node.
fn read_node(t: &[u8], at: usize) -> Result<Found, Refusal>
    ensures result_value { node_read t.now result ≡ node t.now at }
    ensures inside { node_inside t.now result }
{
    let (category, p) = byte_in(t, at, 0, 255)?;
    let (parent, q) = byte_in(t, p, 0, 255)?;
    let (len, next) = read_text(t, q, MOST_NAME_BYTES)?;
    Ok(Found {
        category: small(category),
        parent: small(parent),
        len,
        next,
    })
}

// n nodes, from a position on. The arrays are lent one by one: of a lent `Sections` each contract would have to say what stays.
fn read_nodes(
    t: &[u8],
    from: usize,
    n: usize,
    category: &mut [u8; MOST_NODES],
    parent: &mut [u8; MOST_NODES],
    at: &mut [u16; MOST_NODES],
    len: &mut [u8; MOST_NODES],
) -> Reading
    requires { (n ≤ most_nodes) × (length t.now ≤ most_table_bytes) }
    ensures result_after { held_read (node_from t.now category.new parent.new at.new len.new) result ≡ times (node t.now) n from }
    ensures few { read_up_to result n }
{
    let mut p = from;
    for i in 0..n {
        let x = read_node(t, p)?;
        category[i] = x.category;
        parent[i] = x.parent;
        at[i] = short(x.next - x.len);
        len[i] = small(x.len);
        p = x.next;
    }
    Ok((n, p))
}

// 1 to 64 nodes.
pub(crate) fn read_section(
    t: &[u8],
    from: usize,
    category: &mut [u8; MOST_NODES],
    parent: &mut [u8; MOST_NODES],
    at: &mut [u16; MOST_NODES],
    len: &mut [u8; MOST_NODES],
) -> Reading
    requires { length t.now ≤ most_table_bytes }
    ensures result_after { held_read (node_from t.now category.new parent.new at.new len.new) result ≡ nodes t.now from }
    ensures few { read_at_most result most_nodes }
{
    let (n, p) = byte_in(t, from, 1, MOST_NODES)?;
    read_nodes(t, p, n, category, parent, at, len)
}
