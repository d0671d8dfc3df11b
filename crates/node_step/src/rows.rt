// The places of a signal, each in its byte of one number: read and set.
ghost use Rattle.std.specs.Prelude.{◌≡◌};
ghost use Rattle.node_step.specs.Step.{place_in, with_place};

use base_numbers::MOST_CATEGORIES;

// The place in category c, or 0 if there is no byte for it.
#[tactic(auto, unfolding(crate::specs::Step::place_in))]
pub fn place_in(row: u64, c: usize) -> u8
    ensures { result ≡ place_in row c }
{
    if c < MOST_CATEGORIES {
        crate::digit_at(row, c)
    } else {
        0
    }
}

// The row with p for its place in category c, or as it is if there is no byte for it.
#[tactic(auto, unfolding(crate::specs::Step::with_place))]
pub fn with_place(row: u64, c: usize, p: u8) -> u64
    ensures { result ≡ with_place row c p }
{
    if c < MOST_CATEGORIES {
        crate::put_at(row, c, crate::digit_at(row, c), p)
    } else {
        row
    }
}
