// The names z0, z1, z2 and so on: the first of them that is no category of a table, and the first that makes no node.
//
// In: a table, decoded, and for a part the category and the path that it is to stand under. Out: the name.
//
//   search.rt  which of the names are taken
#![tactic(auto)]

mod search;

ghost use Rattle.std.specs.Prelude.{◌≡◌, ◌≤◌, length, take};
ghost use Rattle.base_numbers.specs.Numbers.{most_nodes};
ghost use Rattle.theory_resolution.specs.Table.{urn};
ghost use Rattle.base_text.specs.Text.{fields};
ghost use Rattle.sample_names.specs.FirstFree.{z_name, foreign as foreign_of, strange as strange_of};
ghost use Rattle.sample_names.specs.Held.{held_names, held_urns};

use table_decode::Decoded;

// One of the names: z and one or two digits. Which bytes stand past its length is open.
#[derive(Clone, Copy)]
pub struct FreeName {
    pub bytes: [u8; 3],
    pub len: usize,
    ghost within: { len ≤ length bytes },
    ghost short: { len ≤ 3 },
}

impl FreeName {
    // The k-th of the names.
    pub(crate) fn new(k: usize) -> FreeName
        ensures { k ≤ most_nodes → take result.len result.bytes ≡ z_name k }
    {
        let last = b'0' + (k % 10) as u8;
        if k < 10 {
            FreeName {
                bytes: [b'z', last, 0],
                len: 2,
            }
        } else {
            FreeName {
                bytes: [b'z', b'0' + (k / 10 % 10) as u8, last],
                len: 3,
            }
        }
    }

    // Its bytes.
    pub fn text(&self) -> &[u8]
        ensures text { result.now ≡ take self.now.len self.now.bytes }
        ensures short { length result.now ≤ 3 }
    {
        &self.bytes[..self.len]
    }
}

// The first of the names that is no category of the table decoded as d, whose names stand in t.
pub fn foreign(t: &[u8], d: &Decoded) -> FreeName
    ensures { take result.len result.bytes ≡ foreign_of (held_names t.now d.now.name_at d.now.name_len d.now.categories) }
{
    FreeName::new(search::first_name(t, d))
}

// The first of the names that makes no node of the table decoded as d, whose paths stand in t, in category c under the path p.
pub fn strange(t: &[u8], d: &Decoded, c: u8, p: &[u8]) -> FreeName
    ensures { take result.len result.bytes
        ≡ strange_of (held_urns t.now d.now.category d.now.at d.now.len d.now.nodes) (urn c (fields 58 p.now)) }
{
    FreeName::new(search::first_part(t, d, c, p))
}
