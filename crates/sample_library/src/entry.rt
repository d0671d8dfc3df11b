// One entry, drawn from the seed and written to the buffer.
ghost use Rattle.std.specs.Prelude.{◌≡◌, ◌+◌, ◌≤◌, ◌<◌, length};
ghost use Rattle.std.proofs.lemmas.List.Edits.{sets};
ghost use Rattle.theory_resolution.specs.Nodes.{nodes, node_at};
ghost use Rattle.table_decode.specs.Tables.{table_of, category_names};
ghost use Rattle.sample_library.specs.Sample.{node_uri, foreign_uri, draw_of, bare};
ghost use Rattle.sample_library.specs.Written.{Ready, in_row};

use node_search::texts::text_at;
use sample_seed::{Seed, choice};
use table_decode::Decoded;

// The bytes s into the buffer from a place on. It answers the place after them.
fn put_one(buf: &mut [u8], at: usize, s: &[u8]) -> usize
    requires { at + length s.now ≤ length buf.old }
    ensures { (result ≡ at + length s.now) × (buf.new ≡ sets buf.old at s.now) }
{
    let end = at + s.len();
    base_bytes::lent::copy(s, &mut buf[at..end]);
    end
}

// The texts one after the other into the buffer, from a place on. It answers the place after them.
fn put(buf: &mut [u8], at: usize, texts: &[&[u8]]) -> usize
    requires { at + length (in_row texts.now) ≤ length buf.old }
    ensures { (result ≡ at + length (in_row texts.now)) × (buf.new ≡ sets buf.old at (in_row texts.now)) }
{
    let mut end = at;
    for s in texts {
        end = put_one(buf, end, s);
    }
    end
}

// An entry with the foreign category.
fn foreign_entry(t: &[u8], d: &Decoded, buf: &mut [u8], at: usize) -> usize
    requires { Ready t.now d.now × (at + 271 ≤ length buf.old) }
    ensures { (result ≡ at + length (bare (foreign_uri (category_names t.now))))
        × (buf.new ≡ sets buf.old at (bare (foreign_uri (category_names t.now)))) }
{
    let z = sample_names::foreign(t, d);
    put(buf, at, &[b"<urn:alert:", z.text(), b":a>"])
}

// An entry with the node at i, or with a strange part under it.
fn node_entry(t: &[u8], d: &Decoded, kind: u32, i: usize, buf: &mut [u8], at: usize) -> usize
    requires { Ready t.now d.now × (i < d.now.nodes) × (at + 271 ≤ length buf.old) }
    ensures { (result ≡ at + length (bare (node_uri (category_names t.now) (nodes (table_of t.now)) kind (node_at (nodes (table_of t.now)) i))))
        × (buf.new ≡ sets buf.old at (bare (node_uri (category_names t.now) (nodes (table_of t.now)) kind (node_at (nodes (table_of t.now)) i)))) }
{
    let c = d.category[i];
    let name = text_at(t, &d.name_at, &d.name_len, usize::from(c));
    let path = text_at(t, &d.at, &d.len, i);
    if kind == 1 {
        let z = sample_names::strange(t, d, c, path);
        put(
            buf,
            at,
            &[b"<urn:alert:", name, b":", path, b":", z.text(), b">"],
        )
    } else {
        put(buf, at, &[b"<urn:alert:", name, b":", path, b">"])
    }
}

// One entry from the seed, which goes on.
pub(crate) fn entry(t: &[u8], d: &Decoded, seed: &mut Seed, buf: &mut [u8], at: usize) -> usize
    requires { Ready t.now d.now × (at + 271 ≤ length buf.old) }
    ensures { (result ≡ at + length (bare (draw_of (category_names t.now) (nodes (table_of t.now)) seed.old.x).uri))
        × (seed.new.x ≡ (draw_of (category_names t.now) (nodes (table_of t.now)) seed.old.x).seed)
        × (buf.new ≡ sets buf.old at (bare (draw_of (category_names t.now) (nodes (table_of t.now)) seed.old.x).uri)) }
{
    let kind = choice(seed.draw(), 3);
    if kind == 2 {
        foreign_entry(t, d, buf, at)
    } else {
        let i = choice(seed.draw(), d.nodes as u32) as usize;
        node_entry(t, d, kind, i, buf, at)
    }
}
