// A decoded table, as small arrays of numbers.
use base_numbers::{MOST_CATEGORIES, MOST_NODES, MOST_SIGNALS};

// A decoded table: its categories' names, its nodes and the places of its signals. Node k stands at k - 1; its path
// shares some bytes with the one before it in its category, and an inner node has nodes under it.
#[derive(Clone, Copy)]
pub struct Decoded {
    pub categories: usize,
    pub signals: usize,
    pub nodes: usize,
    pub name_at: [u16; MOST_CATEGORIES],
    pub name_len: [u8; MOST_CATEGORIES],
    pub category: [u8; MOST_NODES],
    pub parent: [u8; MOST_NODES],
    pub at: [u16; MOST_NODES],
    pub len: [u8; MOST_NODES],
    pub shared: [u8; MOST_NODES],
    pub inner: [bool; MOST_NODES],
    pub rows: [u64; MOST_SIGNALS],
}
