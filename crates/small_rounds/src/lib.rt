// Which states of a machine are equivalent, over the machine's rows of bytes: the partition into blocks, by refinement.
//
// In: rows, any bytes, with the numbers of states, of bytes before a state's targets, and of symbols. Out: the machine in them, if
// there is one, and for each state the first one that behaves as it does.
//
//   stored.rt  whether there is a machine in the rows
//   rounds.rt  the rounds of refinement
#![tactic(auto)]

mod rounds;
mod stored;

ghost use Rattle.std.specs.Prelude.{◌≡◌, true, false, ◌&&◌, eqb, length, MatchOption};
ghost use Rattle.theory_minimal.specs.Refine.{blocks};
ghost use Rattle.small_rounds.specs.Rows.{machine_in, has_machine};

pub use stored::{Machine, Rows};

// The machine in the rows, with for each state the first one that behaves as it does in p, if there is one and both lists have as many
// bytes as it has states; else p stays. q is to work in: which bytes are left in it is open, only that there are as many.
pub fn first_alike<'a>(rows: Rows<'a>, p: &mut [u8], q: &mut [u8]) -> Option<Machine<'a>>
    ensures alike { MatchOption result
        (((has_machine rows.entry && (eqb (length p.old) rows.entry.states && eqb (length q.old) rows.entry.states)) ≡ false) × (p.new ≡ p.old))
        (λ m. ((has_machine rows.entry && (eqb (length p.old) rows.entry.states && eqb (length q.old) rows.entry.states)) ≡ true)
        × (m.rows ≡ rows.entry) × (p.new ≡ blocks (machine_in rows.entry))) }
    ensures q_after { length q.new ≡ length q.old }
{
    let m = rows.machine()?;
    if p.len() != rows.states || q.len() != rows.states {
        return None;
    }
    m.blocks(p, q);
    Some(m)
}
