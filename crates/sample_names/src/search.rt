// The search for the first name that is not taken, as a category or as a part of a path.
ghost use Rattle.std.specs.Prelude.{◌≡◌, ◌∷◌, ◌++◌, ◌≤◌, ◌&&◌, ltb, min};
ghost use Rattle.base_numbers.specs.Numbers.{most_categories, most_nodes};
ghost use Rattle.theory_resolution.specs.Names.{same_name};
ghost use Rattle.theory_resolution.specs.Table.{urn};
ghost use Rattle.theory_resolution.specs.Nodes.{same_urn};
ghost use Rattle.base_text.specs.Text.{fields};
ghost use Rattle.sample_names.specs.FirstFree.{first_free, name_taken, part_taken};
ghost use Rattle.sample_names.specs.Held.{held_names, held_urn, held_urns};

use crate::FreeName;
use base_numbers::{MOST_CATEGORIES, MOST_NODES};
use base_text::compare::same;
use node_search::texts::text_at;
use table_decode::Decoded;

// The k-th of the names is a category.
fn name_taken(t: &[u8], d: &Decoded, k: usize) -> bool
    ensures { k ≤ most_nodes → result ≡ name_taken (held_names t.now d.now.name_at d.now.name_len d.now.categories) k }
{
    let z = FreeName::new(k);
    (0..d.categories.min(MOST_CATEGORIES)).any(|i| same(
        z.text(),
        text_at(t, &d.name_at, &d.name_len, i),
    ))
}

// The number of the first name that is no category.
pub(crate) fn first_name(t: &[u8], d: &Decoded) -> usize
    ensures value { result ≡ first_free (name_taken (held_names t.now d.now.name_at d.now.name_len d.now.categories)) (min d.now.categories most_categories) 0 }
    ensures few { result ≤ most_nodes }
{
    let n = d.categories.min(MOST_CATEGORIES);
    (0..n).find(|&k| !name_taken(t, d, k)).unwrap_or(n)
}

// The text w is p, a colon and z.
fn made_of(p: &[u8], z: &[u8], w: &[u8]) -> bool
    ensures { result ≡ same_name (p.now ++ 58 ∷ z.now) w.now }
{
    let k = p.len();
    k < w.len() && same(p, &w[..k]) && w[k] == b':' && same(z, &w[k + 1..])
}

// The node at j is of category c, with the path p, a colon and z.
fn node_is(t: &[u8], d: &Decoded, c: u8, p: &[u8], z: &[u8], j: usize) -> bool
    ensures { result ≡ (ltb j most_nodes
        && same_urn (urn c (fields 58 (p.now ++ 58 ∷ z.now))) (held_urn t.now d.now.category d.now.at d.now.len j)) }
{
    j < MOST_NODES && c == d.category[j] && made_of(p, z, text_at(t, &d.at, &d.len, j))
}

// The k-th of the names makes a node, in category c under the path p.
fn part_taken(t: &[u8], d: &Decoded, c: u8, p: &[u8], k: usize) -> bool
    ensures { k ≤ most_nodes → result ≡ part_taken (held_urns t.now d.now.category d.now.at d.now.len d.now.nodes) (urn c (fields 58 p.now)) k }
{
    let z = FreeName::new(k);
    (0..d.nodes.min(MOST_NODES)).any(|j| node_is(t, d, c, p, z.text(), j))
}

// The number of the first name that makes no node, in category c under the path p.
pub(crate) fn first_part(t: &[u8], d: &Decoded, c: u8, p: &[u8]) -> usize
    ensures value { result ≡ first_free (part_taken (held_urns t.now d.now.category d.now.at d.now.len d.now.nodes) (urn c (fields 58 p.now))) (min d.now.nodes most_nodes) 0 }
    ensures few { result ≤ most_nodes }
{
    let n = d.nodes.min(MOST_NODES);
    (0..n).find(|&k| !part_taken(t, d, c, p, k)).unwrap_or(n)
}
