// Going through a value from entry to entry, until the state is settled.
ghost use Rattle.std.specs.Prelude.{◌≡◌, ◌≤◌, length};
ghost use Rattle.base_numbers.specs.Numbers.{most_entries, most_value_bytes};
ghost use Rattle.resolve_early.specs.Run.{after_use, run_from};

use crate::settled::settled;
use base_numbers::MOST_ENTRIES;
use node_search::uses::{Used, uses};
use node_step::stored::{Packed, step_packed};
use resolve_run::entry::entry_at;
use table_decode::Decoded;

// The signal after so many entries, which are enough.
#[derive(Clone, Copy)]
pub struct Reached {
    pub signal: u8,
    pub entries: u8,
}

fn signal_at(st: Packed, n: usize) -> Reached
    requires { n ≤ most_entries }
    ensures { result ≡ record { signal = st.signal; entries = n } }
{
    Reached {
        signal: st.signal,
        entries: n as u8,
    }
}

// One URI more, by what it is to the table.
fn taken(d: &Decoded, st: Packed, found: Option<Used>) -> Packed
    ensures { result ≡ after_use d.now.rows d.now.parent d.now.inner d.now.signals st found }
{
    match found {
        Some(u) => step_packed(d, st, usize::from(u.category), u.node, u.whole),
        None => st,
    }
}

// From entry to entry through the value, until those passed are enough, if they ever are. Whether the state is settled is asked
// again only where it is another one.
pub(crate) fn run(t: &[u8], d: &Decoded, v: &[u8]) -> Option<Reached>
    requires { length v.now ≤ most_value_bytes }
    ensures { result ≡ run_from t.now d.now v.now (record { signal = 0; statuses = 0 }) 0 0 }
{
    let mut at = 0;
    let mut n: usize = 0;
    let mut st = Packed {
        signal: 0,
        statuses: 0,
    };
    let mut ends = settled(d, st);
    // Where the next entry begins is known only when one is read, so no range or chain goes over them.
    loop {
        if ends {
            return Some(signal_at(st, n));
        }
        if MOST_ENTRIES <= n {
            return None;
        }
        let e = entry_at(v, at)?;
        let start = e.span.start;
        let end = start + e.span.len;
        let u = uses(t, d, &v[start..end]);
        let next = taken(d, st, u);
        let Some(after) = e.next else {
            return Some(signal_at(next, n + 1));
        };
        if st != next {
            ends = settled(d, next);
        }
        st = next;
        n += 1;
        at = after;
    }
}
