// The section of the signals, written: the numbers of the nodes of each.
ghost use Rattle.std.specs.Prelude.{◌≡◌, ◌+◌, ◌≤◌, ◌*◌};
ghost use Rattle.base_numbers.specs.Numbers.{most_signals, most_table_urns};
ghost use Rattle.base_lists.specs.Lists.{tabulate};
ghost use Rattle.tree_forms.specs.Bytes.{section, number_bytes};
ghost use Rattle.tree_sections.specs.Held.{number_at};
ghost use Rattle.tree_bytes.specs.Laid.{Puts, of_signal, Eight, farthest};
ghost use Rattle.tree_from_table.specs.Stored.{most_numbers};

use base_bytes::numbers::small;
use base_numbers::MOST_TABLE_URNS;
use tree_bytes::put::Writer;
use tree_bytes::sections::count_of;

// The numbers of signal s. The arrays come one by one, as `count_of` takes them: a decoded tree has them in its sections.
fn put_numbers(
    m: usize,
    signal: &[u8; MOST_TABLE_URNS],
    number: &[u8; MOST_TABLE_URNS],
    s: usize,
    w: &mut Writer,
)
    requires { (m ≤ most_table_urns) × (w.old.at + most_numbers ≤ farthest) × Eight signal.now number.now m }
    ensures same_reference { w.new.buf.ghost_name ≡ w.old.buf.ghost_name }
    ensures puts { Puts w.old.buf.now w.new.buf.now w.old.at (section number_bytes (of_signal s (tabulate (number_at signal.now number.now) m))) w.new.at }
    ensures upper_bound { w.new.at ≤ w.old.at + most_numbers }
{
    w.byte(small(count_of(m, signal, s, number)));
    for i in 0..m {
        if usize::from(signal[i]) == s {
            w.byte(number[i]);
        }
    }
}

// The section of n signals: the numbers of each.
pub(crate) fn put_signals(
    n: usize,
    m: usize,
    signal: &[u8; MOST_TABLE_URNS],
    number: &[u8; MOST_TABLE_URNS],
    w: &mut Writer,
)
    requires { (n ≤ most_signals) × (m ≤ most_table_urns) × (w.old.at + 1 + most_signals * most_numbers ≤ farthest) × Eight signal.now number.now m }
    ensures same_reference { w.new.buf.ghost_name ≡ w.old.buf.ghost_name }
    ensures puts { Puts w.old.buf.now w.new.buf.now w.old.at
        (section (section number_bytes) (tabulate (λ s. of_signal s (tabulate (number_at signal.now number.now) m)) n)) w.new.at }
{
    w.byte(small(n));
    for s in 0..n {
        put_numbers(m, signal, number, s, w);
    }
}
