// The places of the available signals. The search goes by places, so a signal whose row is none that can be looked for is not
// found.
ghost use Rattle.std.specs.Prelude.{◌≡◌, ◌<◌};
ghost use Rattle.base_numbers.specs.Numbers.{most_signals};
ghost use Rattle.base_lists.specs.Lists.{tabulate};
ghost use Rattle.theory_resolution.specs.Available.{counts};
ghost use Rattle.resolve_available.specs.Available.{has_bit};
ghost use Rattle.resolve_available.specs.Rows.{row_if};

use base_numbers::MOST_SIGNALS;

// Signal s is available: it has a bit in the set, or it is signal 0.
fn counts_in(set: u32, s: usize) -> bool
    requires { s < most_signals }
    ensures { result ≡ counts (has_bit set) s }
{
    s == 0 || (set >> s) % 2 == 1
}

// The row of signal s if it is available, else one that no signal has: there is no node 255.
fn row_if(rows: &[u64; MOST_SIGNALS], set: u32, s: usize) -> u64
    requires { s < most_signals }
    ensures { result ≡ row_if (has_bit set) rows.now s }
{
    if counts_in(set, s) { rows[s] } else { u64::MAX }
}

// The rows of the available signals, each where it was.
pub(crate) fn only(rows: &[u64; MOST_SIGNALS], set: u32) -> [u64; MOST_SIGNALS]
    ensures { result ≡ tabulate (row_if (has_bit set) rows.now) most_signals }
{
    let mut kept = [0u64; MOST_SIGNALS];
    for s in 0..MOST_SIGNALS {
        kept[s] = row_if(rows, set, s);
    }
    kept
}
