// The step of a symbol, on states with their statuses in one number.
ghost use Rattle.std.specs.Prelude.{◌≡◌};
ghost use Rattle.machine_symbols.specs.Steps.{next_state};

use crate::Symbols;
use base_numbers::MOST_SYMBOLS;
use node_search::decoded::Decoded;
use node_step::stored::{Packed, step_packed};

// The state after symbol k, which is one of at most 128.
pub fn next(d: &Decoded, symbols: &Symbols, st: Packed, k: usize) -> Packed
    ensures { result ≡ next_state d.now.rows d.now.parent d.now.inner d.now.signals symbols.now.bytes st k }
{
    if MOST_SYMBOLS <= k {
        return st;
    }
    let s = symbols.at(k);
    let whole = s.kind == 0;
    let c = usize::from(s.category);
    step_packed(d, st, c, s.node, whole)
}
