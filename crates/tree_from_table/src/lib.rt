// The tree form of a stored table, written to a buffer.
//
// In: a stored table, any bytes, and a buffer. Out: a refusal number or the form's length, and the whole buffer.
//
//   nodes.rt    the nodes, each with its last name
//   signals.rt  the signals' node numbers
#![tactic(auto)]

mod nodes;
mod signals;

ghost use Rattle.std.specs.Prelude.{◌≡◌, map, ◌≤◌, length};
ghost use Rattle.base_numbers.specs.Numbers.{most_table_urns};
ghost use Rattle.base_lists.specs.Lists.{tabulate};
ghost use Rattle.theory_resolution.specs.Nodes.{nodes as nodes_of};
ghost use Rattle.table_sections.specs.Held.{tagged_from};
ghost use Rattle.table_decode.specs.Tables.{table_refusal, table_of};
ghost use Rattle.tree_sections.specs.Held.{number_at};
ghost use Rattle.tree_forms.specs.Meaning.{number_in};
ghost use Rattle.tree_forms.specs.Conversion.{to_tree};
ghost use Rattle.tree_bytes.specs.Laid.{answer};
ghost use Rattle.tree_from_table.specs.Stored.{StoredAs};

use base_bytes::Built;
use base_numbers::{MOST_CATEGORIES, MOST_NODES, MOST_TABLE_URNS};
use node_search::decoded::Decoded;

// The node numbers of a table's URNs in the order in which they are stored, each with its signal: how many there are.
fn stored_numbers(
    t: &[u8],
    number: &mut [u8; MOST_TABLE_URNS],
    signal: &mut [u8; MOST_TABLE_URNS],
) -> usize
    requires { table_refusal t.now ≡ 0 }
    ensures result_after { tabulate (number_at signal.new number.new) result ≡ tagged_from 0 (map (map (number_in (nodes_of (table_of t.now)))) (table_of t.now).signals) }
    ensures upper_bound { result ≤ most_table_urns }
{
    let mut name_at = [0; MOST_CATEGORIES];
    let mut name_len = [0; MOST_CATEGORIES];
    let mut at = [0; MOST_TABLE_URNS];
    let mut len = [0; MOST_TABLE_URNS];
    let read = table_sections::read(t, &mut name_at, &mut name_len, &mut at, &mut len, signal);
    let l = read.unwrap();
    let mut category = [0; MOST_TABLE_URNS];
    table_names::index_urns(
        t,
        l.categories,
        &name_at,
        &name_len,
        l.urns,
        &mut at,
        &mut len,
        &mut category,
    );
    let mut cats = [0; MOST_NODES];
    let mut parents = [0; MOST_NODES];
    let mut node_at = [0; MOST_NODES];
    let mut node_len = [0; MOST_NODES];
    table_nodes::add_all(
        t,
        l.urns,
        &category,
        &at,
        &len,
        number,
        &mut cats,
        &mut parents,
        &mut node_at,
        &mut node_len,
    );
    l.urns
}

// The tree form of a well-formed table, or 22.
fn form(t: &[u8], d: &Decoded, buf: &mut [u8]) -> Built
    requires { StoredAs t.now d.now.name_at d.now.name_len d.now.category d.now.parent d.now.at d.now.len d.now.categories d.now.nodes d.now.signals }
    ensures value { result ≡ answer (to_tree t.now (length buf.old)) }
    ensures buf_after { buf.new ≡ (to_tree t.now (length buf.old)).buffer }
{
    let mut number = [0; MOST_TABLE_URNS];
    let mut signal = [0; MOST_TABLE_URNS];
    let m = stored_numbers(t, &mut number, &mut signal);
    let mut w = tree_bytes::sections::names(t, d.categories, &d.name_at, &d.name_len, buf);
    nodes::put_nodes(t, d, &mut w);
    signals::put_signals(d.signals, m, &signal, &number, &mut w);
    let e = w.at;
    let fits = e <= w.buf.len();
    tree_bytes::finish(w.buf, e, fits)
}

// The tree form of a table, with zeros after it; or all zeros and the number of the refusal.
pub fn write(t: &[u8], buf: &mut [u8]) -> Built
    ensures value { result ≡ answer (to_tree t.now (length buf.old)) }
    ensures buf_after { buf.new ≡ (to_tree t.now (length buf.old)).buffer }
{
    match table_decode::decode(t) {
        Ok(d) => form(t, &d, buf),
        Err(k) => base_bytes::refuse(buf, u8::from(k)),
    }
}
