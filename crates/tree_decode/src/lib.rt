// Tables that write their tree once: which bytes are one, with which number the others are refused, and the tree as arrays of numbers.
//
// In: any bytes. Out: a refusal, or the tree as small arrays.
//
//   sizes.rt  how long each node's URN is: 6 and 7
#![tactic(auto)]

mod sizes;

ghost use Rattle.std.specs.Prelude.{◌≡◌};
ghost use Rattle.table_places.specs.Verdict.{number_of};
ghost use Rattle.tree_forms.specs.Refusals.{tree_refusal};
ghost use Rattle.tree_decode.specs.Stages.{GrownAs, FitAs, Measured, Means};

use base_numbers::{
    MOST_NODES, MOST_SIGNALS, MOST_TABLE_URNS, MOST_URN_BYTES, MOST_URN_PARTS, Refusal,
};
use tree_sections::Sections;

// A decoded tree: its sections, and for each node how many bytes its URN has with its category, and how many parts.
#[derive(Clone, Copy)]
pub struct Decoded {
    pub sections: Sections,
    pub size: [usize; MOST_NODES],
    pub depth: [usize; MOST_NODES],
}

// The names are compared and the signals placed: refusals 8 to 11.
fn judge_names(t: &[u8], s: &Sections) -> Result<(), Refusal>
    requires { FitAs t.now s.now.name_at s.now.name_len s.now.category s.now.parent s.now.at s.now.len s.now.signal s.now.number s.now.counts }
    ensures { number_of result ≡ tree_refusal t.now }
{
    if !table_names::names_distinct(t, s.counts.categories, &s.name_at, &s.name_len) {
        return Err(Refusal::TableBadCategory);
    }
    let mut urn = [0; MOST_TABLE_URNS];
    sizes::urn_categories(s, &mut urn);
    if !table_names::all_used(&urn, s.counts.numbers, s.counts.categories) {
        return Err(Refusal::TableBadCategory);
    }
    let mut rows = [0; MOST_SIGNALS];
    table_places::by_nodes(
        s.counts.signals,
        s.counts.numbers,
        &s.signal,
        &urn,
        &s.number,
        &mut rows,
    )
}

// The URNs are measured: refusals 6 and 7, then the rest.
fn judge_sizes(
    t: &[u8],
    s: &Sections,
    size: &mut [usize; MOST_NODES],
    depth: &mut [usize; MOST_NODES],
) -> Result<(), Refusal>
    requires { GrownAs t.now s.now.name_at s.now.name_len s.now.category s.now.parent s.now.at s.now.len s.now.signal s.now.number s.now.counts }
    ensures value { number_of result ≡ tree_refusal t.now }
    ensures measured { Measured t.now s.now.name_at s.now.name_len s.now.category s.now.parent s.now.at s.now.len s.now.counts.nodes size.new depth.new }
{
    sizes::sizes(t, s, size);
    sizes::depths(s, depth);
    if !sizes::all_within(s, size, MOST_URN_BYTES) {
        return Err(Refusal::TableOutOfRange);
    }
    if !sizes::all_within(s, depth, MOST_URN_PARTS) {
        return Err(Refusal::TableBadForm);
    }
    judge_names(t, s)
}

// A stored tree, decoded.
#[inline(always)]
pub fn decode(t: &[u8]) -> Result<Decoded, Refusal>
    ensures { Means t.now result }
{
    let sections = tree_sections::read(t)?;
    if !table_names::names_formed(
        t,
        sections.counts.categories,
        &sections.name_at,
        &sections.name_len,
    ) || !tree_nodes::texts::lasts_formed(t, &sections)
    {
        return Err(Refusal::TableBadForm);
    }
    if !tree_nodes::grown(t, &sections) {
        return Err(Refusal::BadTree);
    }
    let mut size = [0; MOST_NODES];
    let mut depth = [0; MOST_NODES];
    judge_sizes(t, &sections, &mut size, &mut depth)?;
    Ok(Decoded {
        sections,
        size,
        depth,
    })
}

// The number with which a stored tree is refused, or 0.
pub fn refusal(t: &[u8]) -> u8
    ensures { result ≡ tree_refusal t.now }
{
    match decode(t) {
        Ok(_) => 0,
        Err(k) => u8::from(k),
    }
}
