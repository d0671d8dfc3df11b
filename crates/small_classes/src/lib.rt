// The check of a proposal that gives each state of a machine a class, and the proposer, over the machine's rows of bytes.
//
// In: rows, any bytes, with the numbers of states, of bytes before a state's targets, and of symbols; a proposal, one class
// for each state, or the part of a buffer that one is written to. Out: whether the proposal fits, or whether there is one.
//
//   numbers.rt  classes by their first states
//   states.rt   the states that state 0 leads to, and their classes
#![tactic(auto)]

use base_numbers::MOST_STATES;
use small_rounds::{Machine, Rows, first_alike};

mod numbers;
pub mod states;

ghost use Rattle.std.specs.Prelude.{◌≡◌, length};
ghost use Rattle.theory_minimal.specs.Refine.{blocks, classes};
ghost use Rattle.theory_minimal.specs.Test.{all_reached, fits};
ghost use Rattle.small_rounds.specs.Rows.{machine_in};
ghost use Rattle.small_classes.specs.Check.{stored_fits, proposes, classes_in};

// The proposal fits, where x has for each state the first one that behaves as it does.
fn fits(m: Machine, p: &[u8], x: &mut [u8], y: &mut [u8]) -> bool
    requires { (length p.now ≡ m.rows.states) × (x.old ≡ blocks (machine_in m.rows)) × (length y.old ≡ m.rows.states) }
    ensures { result ≡ fits (machine_in m.entry.rows) p.now }
{
    if p[0] != 0 {
        return false;
    }
    numbers::first_states(p, y);
    if *x != *y {
        return false;
    }
    let count = states::discover(m, x, y);
    states::all_found(p, &x[..count])
}

// The check, with two lists to work in, of a byte for each state.
fn check_in(rows: Rows, p: &[u8], x: &mut [u8], y: &mut [u8]) -> bool
    requires { (length p.now ≡ rows.states) × (length x.old ≡ rows.states) × (length y.old ≡ rows.states) }
    ensures { result ≡ stored_fits rows.entry.bytes.now rows.entry.states rows.entry.head rows.entry.symbols p.now }
{
    match first_alike(rows, x, y) {
        Some(m) => fits(m, p, x, y),
        None => false,
    }
}

// There is a machine in the rows, and the proposal p fits it.
pub fn check(rows: Rows, p: &[u8]) -> bool
    ensures { result ≡ stored_fits rows.entry.bytes.now rows.entry.states rows.entry.head rows.entry.symbols p.now }
{
    let n = rows.states;
    if MOST_STATES < n || p.len() != n {
        return false;
    }
    let mut x = [0u8; MOST_STATES];
    let mut y = [0u8; MOST_STATES];
    check_in(rows, p, &mut x[..n], &mut y[..n])
}

// The proposal, where x has for each state the first one that behaves as it does.
fn number(m: Machine, out: &mut [u8], x: &mut [u8], y: &mut [u8]) -> bool
    requires { (length out.old ≡ m.rows.states) × (x.old ≡ blocks (machine_in m.rows)) × (length y.old ≡ m.rows.states) }
    ensures { (result ≡ all_reached (machine_in m.entry.rows) (classes (machine_in m.entry.rows))) × (out.new ≡ classes (machine_in m.entry.rows)) }
{
    numbers::number(x, out);
    let count = states::discover(m, x, y);
    states::all_found(out, &x[..count])
}

// The proposer, with two lists to work in, of a byte for each state.
fn propose_in(rows: Rows, out: &mut [u8], x: &mut [u8], y: &mut [u8]) -> bool
    requires { (length out.old ≡ rows.states) × (length x.old ≡ rows.states) × (length y.old ≡ rows.states) }
    ensures { (result ≡ proposes rows.entry.bytes.now rows.entry.states rows.entry.head rows.entry.symbols out.old)
        × (out.new ≡ classes_in rows.entry.bytes.now rows.entry.states rows.entry.head rows.entry.symbols out.old) }
{
    match first_alike(rows, x, y) {
        Some(m) => number(m, out, x, y),
        None => false,
    }
}

// Whether some proposal fits the machine in the rows. A part of as many bytes as it has states has the classes then, numbered by their
// first states; it has these also where one of them is not reached, and stays as it is if there is no machine.
pub fn propose(rows: Rows, out: &mut [u8]) -> bool
    ensures { (result ≡ proposes rows.entry.bytes.now rows.entry.states rows.entry.head rows.entry.symbols out.old)
        × (out.new ≡ classes_in rows.entry.bytes.now rows.entry.states rows.entry.head rows.entry.symbols out.old) }
{
    let n = rows.states;
    if MOST_STATES < n || out.len() != n {
        return false;
    }
    let mut x = [0u8; MOST_STATES];
    let mut y = [0u8; MOST_STATES];
    propose_in(rows, out, &mut x[..n], &mut y[..n])
}
