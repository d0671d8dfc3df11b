// The places of the signals, and refusals 9 to 12, from the signal, category and node of every URN, or its path where there are too many nodes.
//
// In: for every URN its signal, category and node, and the nodes' categories. Out: each signal's places as one number, or 9 to 12.
//
//   places.rt   each signal's places by the nodes of its URNs, and whether two signals have the same
//   signals.rt  which URN each signal has in each category, for a table with too many nodes; signal 0 without a URN
#![tactic(auto)]

use base_numbers::{MOST_CATEGORIES, MOST_SIGNALS, MOST_TABLE_URNS, Refusal};

mod places;
mod signals;

ghost use Rattle.std.specs.Prelude.{◌≡◌, ℕ, ◌<◌, length};
ghost use Rattle.base_numbers.specs.Numbers.{most_nodes, most_signals};
ghost use Rattle.base_numbers.specs.Refusals.{refusal_number};
ghost use Rattle.base_lists.specs.Cuts.{stretch};
ghost use Rattle.theory_resolution.specs.Names.{Parts};
ghost use Rattle.theory_resolution.specs.Table.{Table};
ghost use Rattle.theory_resolution.specs.Nodes.{nodes};
ghost use Rattle.base_text.specs.Text.{fields};
ghost use Rattle.table_sections.specs.Held.{Padded};
ghost use Rattle.table_places.specs.Verdict.{number_of, verdict};
ghost use Rattle.table_places.specs.Slots.{Listing, Numbering, Placed};
ghost use Rattle.table_places.specs.Filled.{rows_by, nodes_number, slots_by, texts_number};

// The places of n signals with m URNs, by the node of each URN; or 9, 10 or 11.
// The number and the rows follow from the arrays, whatever they hold; where they say a table, and the rows are lent clear, they are
// the table's.
pub fn by_nodes(
    n: usize,
    m: usize,
    signal: &[u8; MOST_TABLE_URNS],
    category: &[u8; MOST_TABLE_URNS],
    node: &[u8; MOST_TABLE_URNS],
    rows: &mut [u64; MOST_SIGNALS],
) -> Result<(), Refusal>
    ensures value { (number_of result ≡ nodes_number n m signal.now (rows_by n m signal.now category.now node.now rows.old))
        × (rows.new ≡ (rows_by n m signal.now category.now node.now rows.old).held) }
    ensures placed { (T : Table) (path : ℕ → Parts) → Listing T signal.now category.now path n m
        → Numbering T category.now path node.now m → Padded most_signals 0 rows.old → Placed T rows.new n (number_of result) }
{
    if MOST_SIGNALS < n || MOST_TABLE_URNS < m {
        return Err(Refusal::TableTwoOfCategory);
    }
    if !places::fill_rows(m, signal, category, node, rows) {
        return Err(Refusal::TableTwoOfCategory);
    }
    if !signals::silent(m, signal) {
        return Err(Refusal::TableBadDefault);
    }
    if !places::rows_distinct(n, rows) {
        return Err(Refusal::TableSamePlaces);
    }
    Ok(())
}

// The refusal of a table with too many nodes: 9, 10 or 11, or else 12. Places are compared by their texts.
// It follows from the arrays, whatever they hold; where they say a table with over 64 nodes, it is the table's refusal.
pub fn by_texts(
    t: &[u8],
    n: usize,
    categories: usize,
    m: usize,
    signal: &[u8; MOST_TABLE_URNS],
    category: &[u8; MOST_TABLE_URNS],
    path_at: &[u16; MOST_TABLE_URNS],
    path_len: &[u8; MOST_TABLE_URNS],
) -> Refusal
    ensures value { refusal_number result ≡ texts_number t.now n categories m signal.now path_at.now path_len.now (slots_by n categories m signal.now category.now) }
    ensures number { (T : Table) → Listing T signal.now category.now (λ i. fields 58 (stretch t.now path_at.now path_len.now i)) n m
        → T.cats ≡ categories → most_nodes < length (nodes T) → refusal_number result ≡ verdict T }
{
    if MOST_SIGNALS < n || MOST_TABLE_URNS < m || MOST_CATEGORIES < categories {
        return Refusal::TableTwoOfCategory;
    }
    let mut slots = [0u16; MOST_TABLE_URNS];
    if !signals::fill_slots(m, signal, category, &mut slots) {
        return Refusal::TableTwoOfCategory;
    }
    if !signals::silent(m, signal) {
        return Refusal::TableBadDefault;
    }
    places::crowded(t, n, categories, &slots, path_at, path_len)
}
