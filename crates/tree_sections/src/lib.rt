// The sections of a table with the tree written once: the categories' names and the nodes' last names as places in the bytes, each
// node's category and parent, each signal's node numbers, and refusals 4 to 6.
//
// In: any bytes. Out: 4 to 6, or where everything stands.
//
//   nodes.rt    the section of the nodes
//   signals.rt  the section of the signals
#![tactic(auto)]

mod nodes;
mod signals;

ghost use Rattle.tree_sections.specs.Held.{RestRead, Reads};

use base_numbers::{
    MOST_CATEGORIES, MOST_NODES, MOST_SIGNALS, MOST_TABLE_BYTES, MOST_TABLE_URNS, Refusal,
};
use table_sections::bytes::byte_in;
use table_sections::categories::read_categories;

// How many categories, nodes, signals and numbers of nodes there are.
#[derive(Clone, Copy)]
pub struct Counts {
    pub categories: usize,
    pub nodes: usize,
    pub signals: usize,
    pub numbers: usize,
}

// What was read: node k stands at k - 1, and each node number with its signal.
#[derive(Clone, Copy)]
pub struct Sections {
    pub counts: Counts,
    pub name_at: [u16; MOST_CATEGORIES],
    pub name_len: [u8; MOST_CATEGORIES],
    pub category: [u8; MOST_NODES],
    pub parent: [u8; MOST_NODES],
    pub at: [u16; MOST_NODES],
    pub len: [u8; MOST_NODES],
    pub number: [u8; MOST_TABLE_URNS],
    pub signal: [u8; MOST_TABLE_URNS],
}

// The section of the signals, with nothing behind it.
fn read_rest(
    t: &[u8],
    from: usize,
    categories: usize,
    nodes: usize,
    number: &mut [u8; MOST_TABLE_URNS],
    signal: &mut [u8; MOST_TABLE_URNS],
) -> Result<Counts, Refusal>
    ensures { RestRead t.now signal.new number.new categories nodes from result }
{
    let (signals, p) = byte_in(t, from, 1, MOST_SIGNALS)?;
    let (numbers, q) = signals::read_signals(t, p, signals, number, signal)?;
    if q < t.len() {
        return Err(Refusal::TableWrongEnd);
    }
    Ok(Counts {
        categories,
        nodes,
        signals,
        numbers,
    })
}

// The whole table: the three sections, and nothing after them.
#[inline(always)]
pub fn read(t: &[u8]) -> Result<Sections, Refusal>
    ensures { Reads t.now result }
{
    if MOST_TABLE_BYTES < t.len() {
        return Err(Refusal::TableTooLong);
    }
    let mut name_at = [0; MOST_CATEGORIES];
    let mut name_len = [0; MOST_CATEGORIES];
    let (categories, p) = read_categories(t, &mut name_at, &mut name_len)?;
    let mut category = [0; MOST_NODES];
    let mut parent = [0; MOST_NODES];
    let mut at = [0; MOST_NODES];
    let mut len = [0; MOST_NODES];
    let (nodes, q) = nodes::read_section(t, p, &mut category, &mut parent, &mut at, &mut len)?;
    let mut number = [0; MOST_TABLE_URNS];
    let mut signal = [0; MOST_TABLE_URNS];
    let counts = read_rest(t, q, categories, nodes, &mut number, &mut signal)?;
    Ok(Sections {
        counts,
        name_at,
        name_len,
        category,
        parent,
        at,
        len,
        number,
        signal,
    })
}
