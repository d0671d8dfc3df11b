// The rows of an image: every target of every state is the right state.
ghost use Rattle.std.specs.Prelude.{◌≡◌, ◌≤◌, ◌<◌, length};
ghost use Rattle.base_numbers.specs.Numbers.{most_categories, most_states, most_symbols};
ghost use Rattle.base_lists.specs.Lists.{all_below};
ghost use Rattle.node_step.specs.StatusByte.{same_packed};
ghost use Rattle.machine_symbols.specs.Steps.{next_state};
ghost use Rattle.machine_check.specs.Checks.{packed_in, Read, ReadStatuses, states_with, row_right_by};

use crate::image::{at, byte, place, state};
use base_numbers::MOST_STATES;
use machine_symbols::Symbols;
use machine_symbols::steps::next;
use node_search::decoded::Decoded;
use node_step::stored::Packed;

// The statuses of the first states, of as many as there is room for, each read once. A signal is one byte, and is read where it
// stands: an array of states would have twice as many bytes, which are cleared for an image of few states too.
fn read_states(im: &[u8], categories: usize, statuses: &mut [u64])
    requires { (categories ≤ most_categories) × (length statuses.old ≤ most_states) }
    ensures statuses { ReadStatuses categories im.now statuses.new }
    ensures states { Read categories im.now (states_with categories im.now statuses.new) }
{
    for (j, st) in statuses.iter_mut().enumerate() {
        *st = state(im, categories, j).statuses;
    }
}

// State j is st.
#[tactic(auto, unfolding(node_step::specs::StatusByte::same_packed))]
fn is_right(im: &[u8], categories: usize, read: &[u64], j: usize, st: Packed) -> bool
    requires { (categories ≤ most_categories) × (j < 65536) × ReadStatuses categories im.now read.now }
    ensures { result ≡ same_packed (packed_in categories im.now j) st }
{
    match read.get(j) {
        Some(kept) => byte(im, place(im, categories, j)) == st.signal && *kept == st.statuses,
        None => state(im, categories, j) == st,
    }
}

// The targets of state j are the right states.
fn row_right(d: &Decoded, symbols: &Symbols, im: &[u8], read: &[u64], j: usize) -> bool
    requires { (d.now.categories ≤ most_categories) × (symbols.now.count ≤ most_symbols) × (j < 65536)
        × ReadStatuses d.now.categories im.now read.now }
    ensures { result ≡ row_right_by (next_state d.now.rows d.now.parent d.now.inner d.now.signals symbols.now.bytes) symbols.now.count d.now.categories im.now j }
{
    let i = place(im, d.categories, j) + 1 + d.categories;
    let from = state(im, d.categories, j);
    for k in 0..symbols.count {
        let right = next(d, symbols, from, k);
        if !is_right(im, d.categories, read, at(im, i + k), right) {
            return false;
        }
    }
    true
}

// The targets of the first n states are the right states.
pub(crate) fn rows_right(d: &Decoded, symbols: &Symbols, im: &[u8], n: usize) -> bool
    requires { (d.now.categories ≤ most_categories) × (symbols.now.count ≤ most_symbols) × (n < 65536) }
    ensures { result ≡ all_below n (row_right_by (next_state d.now.rows d.now.parent d.now.inner d.now.signals symbols.now.bytes) symbols.now.count d.now.categories im.now) }
{
    let mut statuses = [0u64; MOST_STATES];
    let m = n.min(MOST_STATES);
    read_states(im, d.categories, &mut statuses[..m]);
    for j in 0..n {
        if !row_right(d, symbols, im, &statuses[..m], j) {
            return false;
        }
    }
    true
}

#[cfg(test)]
mod tests {
    use super::*;

    #[test]
    fn states_are_read_by_their_statuses(rt: HostRuntime) {
        // One symbol; two states, each a signal, a byte for each of two categories, and a target.
        let im = [1, 0, 0, 0, 2, 0, 3, 0, 7, 1, 4, 5, 1, 0];
        let mut statuses = [9; 3];
        read_states(&im, 2, &mut statuses);
        assert_eq!(rt; statuses, [0x0700, 0x0105, 0]);
        for (j, signal, word, same) in [
            (0, 3, 0x0700, true),
            (1, 4, 0x0105, true),
            (1, 3, 0x0105, false),
            (1, 4, 0x0700, false),
            (2, 0, 0, true),
        ] {
            let st = Packed {
                signal,
                statuses: word,
            };
            assert_eq!(rt; is_right(&im, 2, &statuses, j, st), same, "state {j}");
        }
        // State 1 where only state 0 is read.
        let mut first = [9; 1];
        read_states(&im, 2, &mut first);
        let st = Packed {
            signal: 4,
            statuses: 0x0105,
        };
        assert!(rt; is_right(&im, 2, &first, 1, st));
        assert!(rt; !is_right(&im, 2, &first, 1, Packed { signal: 3, ..st }));
        let other = Packed {
            statuses: 0x0700,
            ..st
        };
        assert!(rt; !is_right(&im, 2, &first, 1, other));
    }
}
