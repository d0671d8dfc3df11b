ghost use Rattle.std.specs.Prelude.{◌≡◌, ◌+◌, ◌-◌, ◌≤◌, ◌<◌, get_or};
ghost use Rattle.base_numbers.specs.Numbers.{most_categories, most_nodes, most_signals, most_table_urns, most_urn_parts};
ghost use Rattle.base_lists.specs.Lists.{tabulate};
ghost use Rattle.tree_forms.specs.Bytes.{section};
ghost use Rattle.tree_sections.specs.Held.{number_at};
ghost use Rattle.tree_bytes.specs.Laid.{Puts, of_signal, Eight};
ghost use Rattle.tree_to_table.specs.Urns.{urn_bytes, Ready, urn_bound, urns_bound};

use crate::paths::put_path;
use base_bytes::numbers::small;
use node_search::texts::text_at;
use tree_bytes::put::Writer;
use tree_bytes::sections::count_of;
use tree_decode::Decoded;

// The URN of node k after its length.
fn put_urn(t: &[u8], d: &Decoded, k: usize, w: &mut Writer)
    requires { (1 ≤ k) × (k ≤ most_nodes) × (get_or d.now.sections.category (k - 1) 0 < most_categories) × (get_or d.now.size (k - 1) 0 ≤ 255) × (get_or d.now.depth (k - 1) 0 ≤ most_urn_parts) × (w.old.at < 800000000) }
    ensures same_reference { w.new.buf.ghost_name ≡ w.old.buf.ghost_name }
    ensures puts { Puts w.old.buf.now w.new.buf.now w.old.at (urn_bytes t.now d.now.sections.name_at d.now.sections.name_len d.now.sections.category d.now.sections.parent d.now.sections.at d.now.sections.len d.now.size d.now.depth k) w.new.at }
    ensures upper_bound { w.new.at ≤ w.old.at + urn_bound }
{
    let s = &d.sections;
    let i = k - 1;
    w.byte(small(d.size[i]));
    let c = usize::from(s.category[i]);
    w.all(text_at(t, &s.name_at, &s.name_len, c));
    put_path(t, s, k, d.depth[i], w);
}

// The URNs of signal s.
fn put_urns(t: &[u8], d: &Decoded, s: usize, w: &mut Writer)
    requires { (d.now.sections.counts.numbers ≤ most_table_urns) × (w.old.at < 100000000)
        × Eight d.now.sections.signal d.now.sections.number d.now.sections.counts.numbers
        × Ready d.now.sections.number d.now.sections.category d.now.size d.now.depth d.now.sections.counts.numbers }
    ensures same_reference { w.new.buf.ghost_name ≡ w.old.buf.ghost_name }
    ensures puts { Puts w.old.buf.now w.new.buf.now w.old.at
        (section (urn_bytes t.now d.now.sections.name_at d.now.sections.name_len d.now.sections.category d.now.sections.parent d.now.sections.at d.now.sections.len d.now.size d.now.depth)
        (of_signal s (tabulate (number_at d.now.sections.signal d.now.sections.number) d.now.sections.counts.numbers))) w.new.at }
    ensures upper_bound { w.new.at ≤ w.old.at + urns_bound }
{
    let l = &d.sections;
    w.byte(small(count_of(l.counts.numbers, &l.signal, s, &l.number)));
    for i in 0..l.counts.numbers {
        if usize::from(l.signal[i]) == s {
            let k = usize::from(l.number[i]);
            put_urn(t, d, k, w);
        }
    }
}

// The section of the signals: the URNs of each.
pub(crate) fn put_signals(t: &[u8], d: &Decoded, w: &mut Writer)
    requires { (d.now.sections.counts.signals ≤ most_signals) × (d.now.sections.counts.numbers ≤ most_table_urns) × (w.old.at ≤ 4000)
        × Eight d.now.sections.signal d.now.sections.number d.now.sections.counts.numbers
        × Ready d.now.sections.number d.now.sections.category d.now.size d.now.depth d.now.sections.counts.numbers }
    ensures same_reference { w.new.buf.ghost_name ≡ w.old.buf.ghost_name }
    ensures puts { Puts w.old.buf.now w.new.buf.now w.old.at
        (section (section (urn_bytes t.now d.now.sections.name_at d.now.sections.name_len d.now.sections.category d.now.sections.parent d.now.sections.at d.now.sections.len d.now.size d.now.depth))
        (tabulate (λ s. of_signal s (tabulate (number_at d.now.sections.signal d.now.sections.number) d.now.sections.counts.numbers)) d.now.sections.counts.signals)) w.new.at }
{
    w.byte(small(d.sections.counts.signals));
    for s in 0..d.sections.counts.signals {
        put_urns(t, d, s, w);
    }
}
