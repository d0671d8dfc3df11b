// The form of an image.
ghost use Rattle.std.specs.Prelude.{◌≡◌, ◌≤◌, ◌<◌};
ghost use Rattle.base_numbers.specs.Numbers.{most_categories, most_states};
ghost use Rattle.base_lists.specs.Lists.{all_below};
ghost use Rattle.node_step.specs.StatusByte.{fits_by};
ghost use Rattle.machine_image.specs.Image.{symbol_count, state_count, place_of, signal_in};
ghost use Rattle.machine_check.specs.Checks.{status_formed_by, below_by, state_formed_by, form_by, image_bound};

use crate::image::{at, byte, place, state_count};
use base_numbers::{MOST_CATEGORIES, MOST_STATES, MOST_SYMBOLS};
use machine_symbols::Symbols;
use node_search::decoded::Decoded;
use node_step::stored::fits;

// The targets of state j are states: with 256 states every byte is one, else the largest target tells.
// The loop has no way out in the middle, so that the compiler can read many bytes at a time.
fn targets_below(im: &[u8], categories: usize, n: usize, j: usize) -> bool
    requires { (categories ≤ most_categories) × (j < n) × (n ≤ most_states) × (n ≡ state_count im.now) }
    ensures { result ≡ all_below (symbol_count im.now) (below_by categories im.now j) }
{
    if MOST_STATES <= n {
        return true;
    }
    let m = at(im, 0);
    let i = place(im, categories, j) + 1 + categories;
    let row = base_text::cut::part(im, i, m);
    let mut most = 0;
    for t in row {
        most = most.max(*t);
    }
    usize::from(most) < n
}

// The bytes of the categories in state j, which begins at i with signal s, are ones that they can have there.
fn statuses_formed(d: &Decoded, categories: usize, im: &[u8], i: usize, s: u8, j: usize) -> bool
    requires { (categories ≤ most_categories) × (i < image_bound) × (i ≡ place_of categories im.now j) × (s ≡ signal_in categories im.now j) }
    ensures { result ≡ all_below categories (status_formed_by (fits_by d.now.rows d.now.parent d.now.inner d.now.category d.now.nodes) categories im.now j) }
{
    for c in 0..categories {
        let b = byte(im, i + 1 + c);
        if !fits(d, s, c, b) {
            return false;
        }
    }
    true
}

#[tactic(auto, unfolding(crate::specs::Checks::state_formed_by))]
fn state_formed(d: &Decoded, categories: usize, im: &[u8], n: usize, j: usize) -> bool
    requires { (categories ≤ most_categories) × (j < n) × (n ≤ most_states) × (n ≡ state_count im.now) }
    ensures { result ≡ state_formed_by (fits_by d.now.rows d.now.parent d.now.inner d.now.category d.now.nodes) d.now.signals categories im.now j }
{
    let i = place(im, categories, j);
    let s = byte(im, i);
    usize::from(s) < d.signals
        && statuses_formed(d, categories, im, i, s, j)
        && targets_below(im, categories, n, j)
}

fn states_formed(d: &Decoded, categories: usize, im: &[u8], n: usize) -> bool
    requires { (categories ≤ most_categories) × (n ≤ most_states) × (n ≡ state_count im.now) }
    ensures { result ≡ all_below n (state_formed_by (fits_by d.now.rows d.now.parent d.now.inner d.now.category d.now.nodes) d.now.signals categories im.now) }
{
    for j in 0..n {
        if !state_formed(d, categories, im, n, j) {
            return false;
        }
    }
    true
}

// The image has the form of a machine of the table with these symbols, over so many of its categories.
#[tactic(auto, unfolding(crate::specs::Checks::form_by))]
pub fn formed(d: &Decoded, symbols: &Symbols, categories: usize, im: &[u8]) -> bool
    ensures { result ≡ form_by (fits_by d.now.rows d.now.parent d.now.inner d.now.category d.now.nodes) symbols.now.bytes symbols.now.count d.now.signals categories im.now }
{
    let m = at(im, 0);
    let n = state_count(im);
    categories <= MOST_CATEGORIES
        && symbols.count <= MOST_SYMBOLS
        && 3 + 3 * m <= im.len()
        && im.len() == place(im, categories, n)
        && im[1..1 + 3 * m] == symbols.bytes[..3 * symbols.count]
        && (1..=MOST_STATES).contains(&n)
        && states_formed(d, categories, im, n)
}
