// Which URN each signal has in each category, and whether signal 0 has none: refusals 9 and 10.
ghost use Rattle.std.specs.Prelude.{◌≡◌, true, false, ℕ, ◌≤◌, ◌<◌, ◌+◌, ◌*◌, length, get_or};
ghost use Rattle.base_numbers.specs.Numbers.{most_categories, most_table_urns};
ghost use Rattle.base_lists.specs.Tests.{no_two};
ghost use Rattle.base_lists.specs.Lists.{tabulate};
ghost use Rattle.table_places.specs.Slots.{InRange, key_at, same_key, slot_in};
ghost use Rattle.table_places.specs.Filled.{slots_from, first_silent};

use base_bytes::numbers::short;
use base_numbers::{LAST_SLOT, MOST_TABLE_URNS};

// One more than the number of the URN of a signal and category, at 8 * signal + category; false if a signal has two of one.
// 0 says that there is none, and no Option does (a): the clause `value` of `by_texts` speaks of such slots.
pub(crate) fn fill_slots(
    m: usize,
    signal: &[u8; MOST_TABLE_URNS],
    category: &[u8; MOST_TABLE_URNS],
    slots: &mut [u16; MOST_TABLE_URNS],
) -> bool
    requires { (m ≤ most_table_urns) × (length slots.old ≡ most_table_urns) × ((k : ℕ) → get_or slots.old k 0 ≡ 0) }
    ensures value { InRange signal.now category.now m → result ≡ no_two same_key (tabulate (key_at signal.now category.now) m) }
    ensures filled { InRange signal.now category.now m → result ≡ true → (s c : ℕ) → c < most_categories
        → get_or slots.new (8 * s + c) 0 ≡ slot_in (key_at signal.now category.now) s c m }
    ensures few { (j : ℕ) → get_or slots.new j 0 ≤ most_table_urns }
    ensures all { slots_from signal.now category.now 0 m slots.old ≡ record { ok = result; held = slots.new } }
{
    for i in 0..m {
        let k = 8 * usize::from(signal[i]) + usize::from(category[i]);
        if LAST_SLOT < k {
            return false;
        }
        if slots[k] != 0 {
            return false;
        }
        slots[k] = short(i + 1);
    }
    true
}

// The first URN, if there is one, is not of signal 0.
pub(crate) fn silent(m: usize, signal: &[u8; MOST_TABLE_URNS]) -> bool
    ensures { result ≡ first_silent m signal.now }
{
    m == 0 || 0 < signal[0]
}
