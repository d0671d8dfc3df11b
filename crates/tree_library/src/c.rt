// The same as C asks it: the crate tree_library_c exports each of these under its name.
ghost use Rattle.std.specs.Prelude.{◌≡◌, length};
ghost use Rattle.tree_forms.specs.Refusals.{tree_refusal};
ghost use Rattle.tree_forms.specs.Conversion.{to_tree, from_tree};
ghost use Rattle.tree_bytes.specs.Laid.{answer};

use base_bytes::Built;

// The number with which the tree is refused, or 0.
pub fn tree_table_refusal(tree: &[u8]) -> u8
    ensures { result ≡ tree_refusal tree.now }
{
    crate::refusal(tree)
}

// The tree form of a stored table, written to the buffer.
pub fn tree_table_from_signal_table(table: &[u8], buf: &mut [u8]) -> Built
    ensures value { result ≡ answer (to_tree table.now (length buf.old)) }
    ensures buf_after { buf.new ≡ (to_tree table.now (length buf.old)).buffer }
{
    crate::from_signal_table(table, buf)
}

// The stored table of a tree form, written to the buffer.
pub fn tree_table_to_signal_table(tree: &[u8], buf: &mut [u8]) -> Built
    ensures value { result ≡ answer (from_tree tree.now (length buf.old)) }
    ensures buf_after { buf.new ≡ (from_tree tree.now (length buf.old)).buffer }
{
    crate::to_signal_table(tree, buf)
}
