// The nodes passed on the way back to signal 0.
ghost use Rattle.std.specs.Prelude.{◌≡◌, ◌≤◌, length};
ghost use Rattle.base_numbers.specs.Numbers.{most_signals};

use base_numbers::MOST_SIGNALS;

// The numbers of nodes, at the end of the array.
#[derive(Clone, Copy)]
pub(crate) struct Way {
    pub len: usize,
    pub nodes: [u8; MOST_SIGNALS],
    pub ghost few: { len ≤ most_signals },
    pub ghost wide: { length nodes ≡ most_signals },
}

impl Way {
    ghost use Rattle.std.specs.Prelude.{[], ◌∷◌, ◌+◌, ◌<◌};
    ghost use Rattle.table_kept.specs.Held.{nodes_in, padded};

    // No nodes.
    pub(crate) fn none() -> Way
        ensures { (result.len ≡ 0) × (nodes_in result ≡ []) }
    {
        Way {
            len: 0,
            nodes: [0u8; MOST_SIGNALS],
        }
    }

    // With one more node before them.
    pub(crate) fn with_first(self, node: u8) -> Way
        requires { self.len < most_signals }
        ensures { (result.len ≡ self.len + 1) × (nodes_in result ≡ node ∷ nodes_in self) }
    {
        let mut nodes = self.nodes;
        nodes[MOST_SIGNALS - 1 - self.len] = node;
        Way {
            len: self.len + 1,
            nodes,
        }
    }

    // The nodes at the front of an array, with zeros after them.
    pub(crate) fn front(self) -> [u8; MOST_SIGNALS]
        ensures { result ≡ padded (nodes_in self) }
    {
        let mut marks = [0u8; MOST_SIGNALS];
        marks[..self.len].copy_from_slice(&self.nodes[MOST_SIGNALS - self.len..]);
        marks
    }
}
