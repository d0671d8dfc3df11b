// Whether a state is settled: no URN leads from it to another signal. Only a signal that differs from the current one in one
// category can be reached by a URN, and a step tells whether it is.
ghost use Rattle.std.specs.Prelude.{◌≡◌, ◌<◌, min};
ghost use Rattle.base_numbers.specs.Numbers.{most_categories, most_signals};
ghost use Rattle.base_lists.specs.Lists.{all_below};
ghost use Rattle.resolve_early.specs.SettledBy.{keeps_at, beside, beside_keeps, signal_keeps, held_keeps, category_keeps, settled_by};

use base_numbers::{MOST_CATEGORIES, MOST_SIGNALS};
use node_step::row_at;
use node_step::rows::{place_in, with_place};
use node_step::stored::{Packed, step_packed};
use table_decode::Decoded;

// The step in category c, at the node or root k, keeps the signal.
#[tactic(auto, unfolding(crate::specs::SettledBy::keeps_at))]
fn keeps(d: &Decoded, st: Packed, c: usize, k: u8, whole: bool) -> bool
    ensures { result ≡ keeps_at d.now.rows d.now.parent d.now.inner d.now.signals st c k whole }
{
    let next = step_packed(d, st, c, k, whole);
    next.signal == st.signal
}

// Two signals, by their places, differ in no category but c.
fn is_beside(row: u64, other: u64, c: usize) -> bool
    requires { c < most_categories }
    ensures { result ≡ beside row other c }
{
    with_place(row, c, place_in(other, c)) == other
}

// A signal differs in other categories too, or its place in category c keeps the current signal.
fn beside_keeps(d: &Decoded, st: Packed, c: usize, row: u64, other: u64) -> bool
    requires { c < most_categories }
    ensures { result ≡ beside_keeps d.now.rows d.now.parent d.now.inner d.now.signals st c row other }
{
    !is_beside(row, other, c) || keeps(d, st, c, place_in(other, c), true)
}

// No signal's place in category c leads to another signal.
fn signals_keep(d: &Decoded, st: Packed, c: usize) -> bool
    requires { c < most_categories }
    ensures { result ≡ all_below (min d.now.signals most_signals) (signal_keeps d.now.rows d.now.parent d.now.inner d.now.signals st c) }
{
    let row = row_at(&d.rows, st.signal);
    for s in 0..d.signals.min(MOST_SIGNALS) {
        if !beside_keeps(d, st, c, row, d.rows[s]) {
            return false;
        }
    }
    true
}

// What is no node under the node at which category c is held does not lead to another signal.
#[tactic(auto, unfolding(crate::specs::SettledBy::held_keeps))]
fn held_keeps(d: &Decoded, st: Packed, c: usize, b: u8) -> bool
    ensures { result ≡ held_keeps d.now.rows d.now.parent d.now.inner d.now.signals st c b }
{
    b <= 1 || keeps(d, st, c, b - 1, false)
}

// No URN of category c leads to another signal.
fn category_keeps(d: &Decoded, st: Packed, c: usize) -> bool
    requires { c < most_categories }
    ensures { result ≡ category_keeps d.now.rows d.now.parent d.now.inner d.now.signals st c }
{
    let b = place_in(st.statuses, c);
    b == 1 || held_keeps(d, st, c, b) && signals_keep(d, st, c)
}

// The state is settled.
pub(crate) fn settled(d: &Decoded, st: Packed) -> bool
    ensures { result ≡ settled_by d.now.rows d.now.parent d.now.inner d.now.signals d.now.categories st }
{
    for c in 0..d.categories.min(MOST_CATEGORIES) {
        if !category_keeps(d, st, c) {
            return false;
        }
    }
    true
}
