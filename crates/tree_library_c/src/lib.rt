// Tables that write their tree once for C, in libtree_table.a: a table, a tree and a buffer are each a pointer and a length. Each
// calls the library's function of its name. The header is include/tree_table.h.
#![tactic(auto)]

ghost use Rattle.std.specs.Prelude.{◌≡◌, length};
ghost use Rattle.tree_forms.specs.Refusals.{tree_refusal};
ghost use Rattle.tree_forms.specs.Conversion.{to_tree, from_tree};
ghost use Rattle.tree_bytes.specs.Laid.{answer};

use base_bytes::Built;
use tree_library::c;

// uint8_t tree_table_refusal(const uint8_t *tree, size_t len);
#[unsafe(no_mangle)]
pub extern "C" fn tree_table_refusal(tree: &[u8]) -> u8
    ensures { result ≡ tree_refusal tree.now }
{
    c::tree_table_refusal(tree)
}

// typedef struct { uint8_t refusal; size_t len; } table_converted;
// table_converted tree_table_from_signal_table(const uint8_t *table, size_t len, uint8_t *buf, size_t room);
#[unsafe(no_mangle)]
pub extern "C" fn tree_table_from_signal_table(table: &[u8], buf: &mut [u8]) -> Built
    ensures value { result ≡ answer (to_tree table.now (length buf.old)) }
    ensures buf_after { buf.new ≡ (to_tree table.now (length buf.old)).buffer }
{
    c::tree_table_from_signal_table(table, buf)
}

// table_converted tree_table_to_signal_table(const uint8_t *tree, size_t len, uint8_t *buf, size_t room);
#[unsafe(no_mangle)]
pub extern "C" fn tree_table_to_signal_table(tree: &[u8], buf: &mut [u8]) -> Built
    ensures value { result ≡ answer (from_tree tree.now (length buf.old)) }
    ensures buf_after { buf.new ≡ (from_tree tree.now (length buf.old)).buffer }
{
    c::tree_table_to_signal_table(tree, buf)
}
