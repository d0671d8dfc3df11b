// Which marks a table keeps, and which of its signals can ring.
//
// A mark is a node of the table. In: a table, any bytes, a set of its signals, bit s for signal s, and the number of a node or of a
// signal. Out: a refusal number; whether the table keeps the mark while only these signals are available, and if not, a shortest list
// of nodes that shows it; whether some list rings the signal, and if so, a shortest one.
//
//   kept.rt  whether a mark is kept
//   rung.rt  whether a signal can ring
//
// Both search on the numbers of nodes and signals, over the arrays of a decoded table:
//
//   marks.rt   which nodes may be given, and the signal after each
//   search.rt  the signals that nodes lead to, breadth first, and the first of them at which a node is lost
//   found.rt   these signals
//   way.rt     the nodes that lead to one of them, as few as possible
//   passed.rt  these nodes
#![tactic(auto)]

mod found;
pub mod kept;
mod marks;
mod passed;
pub mod rung;
mod search;
mod way;

ghost use Rattle.std.specs.Prelude.{◌≡◌};
ghost use Rattle.table_kept.specs.Answers.{kept_answer_of, rung_of};

use crate::kept::Kept;
use crate::rung::Rung;

// Whether the table keeps a node's mark. The crate table_kept_c exports this for C, and the next.
pub fn alert_signal_table_keeps(table: &[u8], available: u32, node: u8) -> Kept
    ensures { result ≡ kept_answer_of table.now available node }
{
    kept::keeps(table, available, node)
}

// Whether a signal can ring.
pub fn alert_signal_table_rings(table: &[u8], available: u32, signal: u8) -> Rung
    ensures { result ≡ rung_of table.now available signal }
{
    rung::rings(table, available, signal)
}
