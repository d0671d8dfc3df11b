// The states that state 0 leads to, and the classes that have one of them.
ghost use Rattle.std.specs.Prelude.{◌≡◌, ◌≤◌, ◌<◌, All, length, take};
ghost use Rattle.base_numbers.specs.Numbers.{most_states};
ghost use Rattle.base_lists.specs.Search.{highest};
ghost use Rattle.base_lists.specs.Lists.{all_below};
ghost use Rattle.theory_minimal.specs.Proposal.{class_of, class_count};
ghost use Rattle.small_rounds.specs.Rows.{machine_in};
ghost use Rattle.small_classes.specs.Found.{Kept, Visited, Turned};
ghost use Rattle.theory_minimal.specs.Test.{found_states, class_found};

use small_rounds::Machine;

// How many states are found after x, which is put at their end unless it was found before.
fn visit(list: &mut [u8], seen: &mut [u8], count: usize, x: u8) -> usize
    requires { Kept (length list.old) list.old seen.old count × (x < length list.old) × (length list.old ≤ most_states) }
    ensures { Visited (length list.old) list.old count x list.new seen.new result }
{
    let at = usize::from(x);
    if seen[at] != 0 {
        return count;
    }
    seen[at] = 1;
    list[count] = x;
    count + 1
}

// How many states are found after the targets of state j.
fn turn(m: Machine, list: &mut [u8], seen: &mut [u8], j: usize, count: usize) -> usize
    requires { Kept m.rows.states list.old seen.old count × (j < m.rows.states) }
    ensures { Turned (machine_in m.entry.rows) list.old count j m.entry.rows.symbols list.new seen.new result }
{
    let mut found = count;
    for s in 0..m.rows.symbols {
        found = visit(list, seen, found, m.target(j, s));
    }
    found
}

// How many states state 0 leads to, itself among them; they stand at the front of the list as they are found.
pub(crate) fn discover(m: Machine, list: &mut [u8], seen: &mut [u8]) -> usize
    requires { (length list.old ≡ m.rows.states) × (length seen.old ≡ m.rows.states) }
    ensures { (take result list.new ≡ found_states (machine_in m.entry.rows)) × (result ≤ m.entry.rows.states)
        × All (λ s. s < m.entry.rows.states) (take result list.new) }
{
    seen.fill(0);
    seen[0] = 1;
    list[0] = 0;
    let mut count = 1;
    let mut i = 0;
    // a turn may find more, so no range says how many there are
    while i < count {
        let j = usize::from(list[i]);
        count = turn(m, list, seen, j, count);
        i += 1;
    }
    count
}

// The highest class.
pub fn highest_class(p: &[u8]) -> usize
    ensures { (result ≡ highest (class_of p.now) (length p.now)) × (result < 256) }
{
    let mut most: usize = 0;
    for x in p {
        most = most.max(usize::from(*x));
    }
    most
}

// One of the states of the list has class c.
fn class_found(p: &[u8], list: &[u8], c: usize) -> bool
    requires { All (λ s. s < length p.now) list.now }
    ensures { result ≡ class_found p.now list.now c }
{
    list.iter().any(|s| usize::from(p[usize::from(*s)]) == c)
}

// Every class up to the highest has one of the states of the list.
pub(crate) fn all_found(p: &[u8], list: &[u8]) -> bool
    requires { All (λ s. s < length p.now) list.now }
    ensures { result ≡ all_below (class_count p.now) (class_found p.now list.now) }
{
    (0..highest_class(p) + 1).all(|c| class_found(p, list, c))
}
