// The checker: an image's form, its start, and its rows.
//
// In: a decoded table, its symbols, and an image, any bytes. Out: whether it is accepted, or one of three refusals.
//
//   image.rt  an image's counts, signals, statuses and targets
//   form.rt   its form: 15
//   rows.rt   its rows: 17
#![tactic(auto)]

pub mod form;
pub mod image;
mod rows;

ghost use Rattle.std.specs.Prelude.{◌≡◌};
ghost use Rattle.node_step.specs.StatusByte.{fits_by};
ghost use Rattle.machine_symbols.specs.Steps.{next_state};
ghost use Rattle.machine_check.specs.Checks.{check_by};

use base_numbers::Refusal;
use machine_symbols::Symbols;
use node_search::decoded::Decoded;
use node_step::stored::Packed;

// The image is a right machine of the table with these symbols, or what is wrong with it.
#[tactic(auto, unfolding(crate::specs::Checks::check_by, node_step::specs::StatusByte::same_packed))]
pub fn check_by(d: &Decoded, symbols: &Symbols, im: &[u8]) -> Result<(), Refusal>
    ensures { result ≡ check_by (fits_by d.now.rows d.now.parent d.now.inner d.now.category d.now.nodes)
        (next_state d.now.rows d.now.parent d.now.inner d.now.signals symbols.now.bytes) symbols.now.bytes symbols.now.count d.now.signals d.now.categories im.now }
{
    if !form::formed(d, symbols, d.categories, im) {
        return Err(Refusal::ImageBadForm);
    }
    let begin = Packed {
        signal: 0,
        statuses: 0,
    };
    let first = image::state(im, d.categories, 0);
    if first != begin {
        return Err(Refusal::ImageWrongStart);
    }
    let n = image::state_count(im);
    if !rows::rows_right(d, symbols, im, n) {
        return Err(Refusal::ImageWrongTarget);
    }
    Ok(())
}
