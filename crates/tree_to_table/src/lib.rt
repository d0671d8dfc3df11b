// The form with the URNs in full of a table whose tree is written once, written to a buffer.
//
// In: a tree form, any bytes, and a buffer. Out: a refusal number or the form's length, and the whole buffer.
//
//   paths.rt  a node's path, from its ancestors' last names
//   urns.rt   the URNs of the signals
#![tactic(auto)]

mod paths;
mod urns;

ghost use Rattle.std.specs.Prelude.{◌≡◌, length};
ghost use Rattle.tree_forms.specs.Conversion.{from_tree, fits_old};
ghost use Rattle.tree_bytes.specs.Laid.{answer};
ghost use Rattle.tree_to_table.specs.Urns.{TreeAs};

use base_bytes::Built;
use base_numbers::MOST_TABLE_BYTES;
use tree_decode::Decoded;

// n bytes are at most 8,192, and there is room for them.
fn room_for(n: usize, room: usize) -> bool
    ensures { result ≡ fits_old n room }
{
    n <= MOST_TABLE_BYTES && n <= room
}

// The form of a well-formed tree, or 22.
fn form(x: &[u8], d: &Decoded, buf: &mut [u8]) -> Built
    requires { TreeAs x.now d.now.sections.name_at d.now.sections.name_len d.now.sections.category d.now.sections.parent d.now.sections.at d.now.sections.len d.now.sections.signal d.now.sections.number d.now.size d.now.depth d.now.sections.counts }
    ensures value { result ≡ answer (from_tree x.now (length buf.old)) }
    ensures buf_after { buf.new ≡ (from_tree x.now (length buf.old)).buffer }
{
    let s = &d.sections;
    let mut w = tree_bytes::sections::names(x, s.counts.categories, &s.name_at, &s.name_len, buf);
    urns::put_signals(x, d, &mut w);
    let e = w.at;
    let fits = room_for(e, w.buf.len());
    tree_bytes::finish(w.buf, e, fits)
}

// The form of a table whose tree is written once, with zeros after it; or all zeros and the number of the refusal.
pub fn write(x: &[u8], buf: &mut [u8]) -> Built
    ensures value { result ≡ answer (from_tree x.now (length buf.old)) }
    ensures buf_after { buf.new ≡ (from_tree x.now (length buf.old)).buffer }
{
    match tree_decode::decode(x) {
        Ok(d) => form(x, &d, buf),
        Err(k) => base_bytes::refuse(buf, u8::from(k)),
    }
}
