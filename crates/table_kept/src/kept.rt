// Whether a table keeps a mark, and a shortest list of nodes that shows a loss.
ghost use Rattle.std.specs.Prelude.{◌≡◌, List, [], ◌∷◌, ◌++◌, ℕ, ◌-◌, ◌≤◌, ◌<◌};
ghost use Rattle.base_numbers.specs.Numbers.{most_signals};
ghost use Rattle.theory_resolution.specs.Nodes.{nodes, node_at};
ghost use Rattle.table_kept.specs.Held.{nodes_in};
ghost use Rattle.table_decode.specs.Tables.{table_refusal, table_of};
ghost use Rattle.table_decode.specs.Decoded.{Holds};
ghost use Rattle.resolve_available.specs.Available.{has_bit};
ghost use Rattle.table_kept.specs.Ready.{Ready, told_kept};
ghost use Rattle.table_kept.specs.Answers.{refused_kept, kept_answer, lost_answer, kept_in, kept_answer_of};

use crate::marks::{before, rings, store_targets};
use crate::passed::Way;
use crate::search::{discover, first_loss};
use crate::way::way_to;
use base_numbers::{MOST_SIGNALS, Refusal};
use resolve_available::{among, is_known};
use table_decode::Decoded;

// A refusal number; 1 if the table keeps the mark, else 0; the signal that the list rings; the list's length; and the list, by the
// numbers of its nodes, with zeros after it.
#[repr(C)]
#[derive(Clone, Copy)]
pub struct Kept {
    pub refusal: u8,
    pub kept: u8,
    pub rings: u8,
    pub len: u8,
    pub marks: [u8; MOST_SIGNALS],
}

// The answer to a question that is refused.
fn refused(k: u8) -> Kept
    ensures { result ≡ refused_kept k }
{
    Kept {
        refusal: k,
        kept: 0,
        rings: 0,
        len: 0,
        marks: [0u8; MOST_SIGNALS],
    }
}

// The answer where the mark is kept.
fn kept_mark() -> Kept
    ensures { result ≡ kept_answer }
{
    Kept {
        kept: 1,
        ..refused(0)
    }
}

// The answer where the nodes of a way and then this node show a loss, and ring this signal.
fn lost_mark(w: Way, node: u8, signal: u8) -> Kept
    requires { w.len < most_signals }
    ensures { result ≡ lost_answer signal (nodes_in w ++ node ∷ []) }
{
    let mut marks = w.front();
    marks[w.len] = node;
    Kept {
        rings: signal,
        len: (w.len + 1) as u8,
        marks,
        ..refused(0)
    }
}

// The answer for a node of a decoded table, with the signals of the set.
fn search(d: Decoded, set: u32, node: u8) -> Kept
    requires { Ready d × (0 < node) × (node ≤ d.nodes) }
    ensures { (t : List ℕ) → table_refusal t ≡ 0 → Holds t (table_of t) d → result ≡ kept_in (table_of t) (has_bit set) (node_at (nodes (table_of t)) (node - 1)) }
{
    let a = among(d, set);
    let e = a.category[usize::from(node) - 1];
    let c = usize::from(e);
    let may = before(&a, e, node);
    let mut all = [0u8; 2048];
    store_targets(&a, &may, &mut all);
    let h = discover(&all, a.nodes, a.signals);
    match first_loss(&a, h, c, node) {
        Some(j) => {
            let signal = rings(&a, h.at(j), c, node);
            lost_mark(way_to(&all, a.nodes, h, j), node, signal)
        }
        None => kept_mark(),
    }
}

// The answer for a node's number, or why the question is refused.
fn answer(t: &[u8], set: u32, node: u8) -> Result<Kept, Refusal>
    ensures { told_kept result ≡ kept_answer_of t.now set node }
{
    let d = table_decode::decode(t)?;
    if !is_known(set, d.signals) {
        return Err(Refusal::UnknownAvailable);
    }
    if node == 0 || d.nodes < usize::from(node) {
        return Err(Refusal::UnknownNode);
    }
    Ok(search(d, set, node))
}

// Whether the table keeps the mark with this node's number while the signals of the set are available, and if not, a shortest list
// that shows it.
pub fn keeps(t: &[u8], set: u32, node: u8) -> Kept
    ensures { result ≡ kept_answer_of t.now set node }
{
    match answer(t, set, node) {
        Ok(x) => x,
        Err(r) => refused(u8::from(r)),
    }
}
