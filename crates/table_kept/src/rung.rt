// Whether some list rings a signal, and a shortest such list.
ghost use Rattle.std.specs.Prelude.{◌≡◌, List, ℕ, ◌≤◌};
ghost use Rattle.table_kept.specs.Held.{nodes_in};
ghost use Rattle.table_decode.specs.Tables.{table_refusal, table_of};
ghost use Rattle.table_decode.specs.Decoded.{Holds};
ghost use Rattle.resolve_available.specs.Available.{has_bit};
ghost use Rattle.table_kept.specs.Ready.{Ready, told_rung};
ghost use Rattle.table_kept.specs.Answers.{refused_rung, rung_answer, rung_in, rung_of};

use crate::marks::{before, store_targets};
use crate::passed::Way;
use crate::search::discover;
use crate::way::way_to;
use base_numbers::{MOST_SIGNALS, Refusal};
use resolve_available::{among, is_known};
use table_decode::Decoded;

// A refusal number; 1 if some list rings the signal, else 0; the length of a shortest one; and that list, by the numbers of its nodes,
// with zeros after it.
#[repr(C)]
#[derive(Clone, Copy)]
pub struct Rung {
    pub refusal: u8,
    pub rings: u8,
    pub len: u8,
    pub marks: [u8; MOST_SIGNALS],
}

// The answer to a question that is refused, with 0 the answer where no list rings the signal.
fn refused(k: u8) -> Rung
    ensures { result ≡ refused_rung k }
{
    Rung {
        refusal: k,
        rings: 0,
        len: 0,
        marks: [0u8; MOST_SIGNALS],
    }
}

// The answer where the nodes of a way ring the signal.
fn rung_by(w: Way) -> Rung
    requires { w.len ≤ 31 }
    ensures { result ≡ rung_answer (nodes_in w) }
{
    Rung {
        rings: 1,
        len: w.len as u8,
        marks: w.front(),
        ..refused(0)
    }
}

// The answer for a signal of a decoded table, with the signals of the set. No category has the number 8, so every node may be given.
fn search(d: Decoded, set: u32, signal: u8) -> Rung
    requires { Ready d }
    ensures { (t : List ℕ) → table_refusal t ≡ 0 → Holds t (table_of t) d → result ≡ rung_in (table_of t) (has_bit set) signal }
{
    let a = among(d, set);
    let may = before(&a, 8, 0);
    let mut all = [0u8; 2048];
    store_targets(&a, &may, &mut all);
    let h = discover(&all, a.nodes, a.signals);
    match h.number_of(signal) {
        Some(j) => rung_by(way_to(&all, a.nodes, h, j)),
        None => refused(0),
    }
}

// The answer for a signal's number, or why the question is refused.
fn answer(t: &[u8], set: u32, signal: u8) -> Result<Rung, Refusal>
    ensures { told_rung result ≡ rung_of t.now set signal }
{
    let d = table_decode::decode(t)?;
    if !is_known(set, d.signals) {
        return Err(Refusal::UnknownAvailable);
    }
    if d.signals <= usize::from(signal) {
        return Err(Refusal::UnknownSignal);
    }
    Ok(search(d, set, signal))
}

// Whether some list rings the signal while the signals of the set are available, and if so, a shortest one.
pub fn rings(t: &[u8], set: u32, signal: u8) -> Rung
    ensures { result ≡ rung_of t.now set signal }
{
    match answer(t, set, signal) {
        Ok(x) => x,
        Err(r) => refused(u8::from(r)),
    }
}
