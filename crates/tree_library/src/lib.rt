// Tables that write their tree once: which bytes are one, and the conversions between them and stored tables.
//
// In: a table or a tree, any bytes, and a buffer. Out: a refusal number or the form's length, and the whole buffer.
//
//   c.rt  all of it as the crate tree_library_c exports it for C
#![tactic(auto)]

pub mod c;

ghost use Rattle.std.specs.Prelude.{◌≡◌, length};
ghost use Rattle.tree_forms.specs.Refusals.{tree_refusal};
ghost use Rattle.tree_forms.specs.Conversion.{to_tree, from_tree};
ghost use Rattle.tree_bytes.specs.Laid.{answer};

use base_bytes::Built;

// The number with which a table with the tree written once is refused, or 0.
pub fn refusal(tree: &[u8]) -> u8
    ensures { result ≡ tree_refusal tree.now }
{
    tree_decode::refusal(tree)
}

// The tree form of a stored table, with zeros after it; or all zeros and the number of the refusal.
pub fn from_signal_table(table: &[u8], buf: &mut [u8]) -> Built
    ensures value { result ≡ answer (to_tree table.now (length buf.old)) }
    ensures buf_after { buf.new ≡ (to_tree table.now (length buf.old)).buffer }
{
    tree_from_table::write(table, buf)
}

// The stored table of a tree form, in the same way.
pub fn to_signal_table(tree: &[u8], buf: &mut [u8]) -> Built
    ensures value { result ≡ answer (from_tree tree.now (length buf.old)) }
    ensures buf_after { buf.new ≡ (from_tree tree.now (length buf.old)).buffer }
{
    tree_to_table::write(tree, buf)
}
