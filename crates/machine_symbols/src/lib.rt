// A table's symbols as they are stored, listed from its nodes' categories and from which of them have nodes under them; and the
// number of a URN's symbol.
//
// In: a decoded table. Out: its symbols with their index, the number of a URN's symbol, and the state after one.
//
//   steps.rt  the step of a symbol
#![tactic(auto)]

pub mod steps;

ghost use Rattle.std.specs.Prelude.{◌≡◌, List, ◌++◌, ℕ, ◌≤◌, ◌<◌, min, get_or};
ghost use Rattle.base_numbers.specs.Numbers.{most_categories, most_nodes, most_symbols};
ghost use Rattle.machine_symbols.specs.Listed.{triple, node_triples, category_triples, triple_lists, symbols_of, symbol_in, Listed};
ghost use Rattle.machine_symbols.specs.Listed.{is_triple, triple_index, kind_for, slot, index_from, entry_at, symbol_number};

use base_numbers::{MOST_CATEGORIES, MOST_NODES, MOST_SYMBOL_BYTES, MOST_SYMBOLS};
use node_search::decoded::Decoded;
use node_step::inner_at;

// The places of an index: one for each category, and two for each node.
pub const SLOTS: usize = MOST_CATEGORIES + 2 * MOST_NODES;

// How many symbols there are, three bytes for each, and at each one's slot the number of the first that has this slot.
// A count beside an array, since memory is fixed; and bytes, since an image stores them as they stand here.
#[derive(Clone, Copy)]
pub struct Symbols {
    pub count: usize,
    pub bytes: [u8; MOST_SYMBOL_BYTES],
    pub index: [u8; SLOTS],
}

// One symbol: a category, a node of it or 0 for the category itself, and 0 for that node or 1 for what else lies under it.
#[derive(Clone, Copy, Debug, PartialEq, Eq)]
pub struct Symbol {
    pub category: u8,
    pub node: u8,
    pub kind: u8,
}

impl Symbol {
    // Where the symbol stands in the index.
    fn slot(self) -> usize
        ensures { result ≡ slot self.category self.node self.kind }
    {
        if self.node == 0 {
            usize::from(self.category)
        } else {
            6 + 2 * usize::from(self.node) + usize::from(self.kind)
        }
    }
}

impl Symbols {
    // Symbol k, for any k: past the last place it is of zeros.
    pub fn get(&self, k: usize) -> Symbol
        ensures { result ≡ symbol_in self.now.bytes k }
    {
        if k < MOST_SYMBOLS {
            self.at(k)
        } else {
            Symbol {
                category: 0,
                node: 0,
                kind: 0,
            }
        }
    }

    // Symbol k, for which there is a place.
    pub(crate) fn at(&self, k: usize) -> Symbol
        requires { k < most_symbols }
        ensures { result ≡ symbol_in self.now.bytes k }
    {
        let at = 3 * k;
        Symbol {
            category: self.bytes[at],
            node: self.bytes[at + 1],
            kind: self.bytes[at + 2],
        }
    }

    // One symbol more, if there is room.
    fn push(&mut self, s: Symbol)
        requires { self.old.count ≤ most_symbols }
        ensures upper_bound { self.new.count ≤ most_symbols }
        ensures by_index { (l : List ℕ) → Listed self.old.bytes self.old.count l
            → Listed self.new.bytes self.new.count (l ++ triple s.category s.node s.kind) }
    {
        if self.count < MOST_SYMBOLS {
            let at = 3 * self.count;
            self.bytes[at] = s.category;
            self.bytes[at + 1] = s.node;
            self.bytes[at + 2] = s.kind;
            self.count += 1;
        }
    }

    // The symbols of the node at i, if it is of this category.
    fn push_node(&mut self, d: &Decoded, category: u8, i: usize)
        requires { (i < most_nodes) × (self.old.count ≤ most_symbols) }
        ensures upper_bound { self.new.count ≤ most_symbols }
        ensures by_index { (l : List ℕ) → Listed self.old.bytes self.old.count l
            → Listed self.new.bytes self.new.count (l ++ node_triples d.now.category d.now.inner category i) }
    {
        if d.category[i] == category {
            let node = (i + 1) as u8;
            self.push(Symbol {
                category,
                node,
                kind: 0,
            });
            if d.inner[i] {
                self.push(Symbol {
                    category,
                    node,
                    kind: 1,
                });
            }
        }
    }

    // The symbols of a category: its nodes', and its own Other.
    fn push_category(&mut self, d: &Decoded, category: u8)
        requires { self.old.count ≤ most_symbols }
        ensures upper_bound { self.new.count ≤ most_symbols }
        ensures by_index { (l : List ℕ) → Listed self.old.bytes self.old.count l
            → Listed self.new.bytes self.new.count (l ++ category_triples d.now.category d.now.inner (min d.now.nodes most_nodes) category) }
    {
        for i in 0..d.nodes.min(MOST_NODES) {
            self.push_node(d, category, i);
        }
        self.push(Symbol {
            category,
            node: 0,
            kind: 1,
        });
    }

    // The index of the symbols: of those with one slot the first stands there.
    fn slots(&self) -> [u8; SLOTS]
        ensures { result ≡ index_from self.now.bytes 0 (min self.now.count most_symbols) }
    {
        let mut index = [0u8; SLOTS];
        for k in (0..self.count.min(MOST_SYMBOLS)).rev() {
            let s = self.at(k).slot();
            if s < SLOTS {
                index[s] = k as u8;
            }
        }
        index
    }

    // The number of the symbol of a used URN.
    pub fn number(&self, d: &Decoded, category: u8, node: u8, whole: bool) -> u8
        ensures { result ≡ symbol_number self.now.index self.now.bytes self.now.count d.now.inner category node whole }
    {
        number(
            &self.index,
            &self.bytes,
            self.count,
            &d.inner,
            category,
            node,
            whole,
        )
    }
}

// Symbols that are lent, with an index: any bytes, which are 0 past their end.
#[derive(Clone, Copy)]
struct Lent<'a> {
    count: usize,
    bytes: &'a [u8],
    index: &'a [u8],
}

impl Lent<'_> {
    // The byte at a place.
    fn byte(&self, at: usize) -> u8
        ensures { result ≡ get_or self.now.bytes.now at 0 }
    {
        self.bytes.get(at).copied().unwrap_or(0)
    }

    // Symbol k.
    fn symbol(&self, k: usize) -> Symbol
        requires { k < most_symbols }
        ensures { result ≡ symbol_in self.now.bytes.now k }
    {
        let at = 3 * k;
        Symbol {
            category: self.byte(at),
            node: self.byte(at + 1),
            kind: self.byte(at + 2),
        }
    }

    // Symbol k is s.
    fn is(&self, k: usize, s: Symbol) -> bool
        requires { k < most_symbols }
        ensures { result ≡ is_triple self.now.bytes.now s.category s.node s.kind k }
    {
        self.symbol(k) == s
    }

    // The number of the first symbol that is s, or how many there are.
    fn find(&self, s: Symbol) -> u8
        ensures { result ≡ triple_index self.now.bytes.now s.category s.node s.kind 0 (min self.now.count most_symbols) }
    {
        let n = self.count.min(MOST_SYMBOLS);
        for k in 0..n {
            if self.is(k, s) {
                return k as u8;
            }
        }
        n as u8
    }

    // What the index has at a slot, 0 if there is no such slot.
    #[tactic(auto, unfolding(crate::specs::Listed::entry_at))]
    fn entry(&self, slot: usize) -> usize
        ensures { result ≡ entry_at self.now.index.now slot }
    {
        if slot < SLOTS {
            usize::from(self.index.get(slot).copied().unwrap_or(0))
        } else {
            0
        }
    }
}

// The number of the symbol of a used URN, by its category, the deepest node above it, and whether it is that node; how many there
// are if there is no such symbol. Symbols and index may be any bytes.
pub fn number(
    index: &[u8],
    bytes: &[u8],
    count: usize,
    inner: &[bool; MOST_NODES],
    category: u8,
    node: u8,
    whole: bool,
) -> u8
    ensures { result ≡ symbol_number index.now bytes.now count inner.now category node whole }
{
    let kind = kind_for(inner, node, whole);
    let s = Symbol {
        category,
        node,
        kind,
    };
    let lent = Lent {
        count,
        bytes,
        index,
    };
    let n = count.min(MOST_SYMBOLS);
    let k = lent.entry(s.slot());
    if k < n && lent.is(k, s) {
        return k as u8;
    }
    lent.find(s)
}

// The kind of the symbol of a URN under a node: 0 if it is the node itself or the node is a leaf, else 1.
#[tactic(auto, unfolding(crate::specs::Listed::kind_for))]
fn kind_for(inner: &[bool; MOST_NODES], node: u8, whole: bool) -> u8
    ensures { result ≡ kind_for inner.now node whole }
{
    u8::from(!whole && (node == 0 || inner_at(inner, node)))
}

// The index of any symbols: of the first ones, at each one's slot the number of the first that has it.
pub fn index(bytes: &[u8; MOST_SYMBOL_BYTES], count: usize) -> [u8; SLOTS]
    ensures { result ≡ index_from bytes.now 0 (min count most_symbols) }
{
    Symbols {
        count,
        bytes: *bytes,
        index: [0; SLOTS],
    }
    .slots()
}

// The symbols of a table, at most 128 of them.
pub fn list(d: &Decoded) -> Symbols
    ensures { result ≡ symbols_of (triple_lists d.now.category d.now.inner (min d.now.nodes most_nodes) (min d.now.categories most_categories)) }
{
    let mut symbols = Symbols {
        count: 0,
        bytes: [0; MOST_SYMBOL_BYTES],
        index: [0; SLOTS],
    };
    for category in 0..d.categories.min(MOST_CATEGORIES) {
        symbols.push_category(d, category as u8);
    }
    symbols.index = symbols.slots();
    symbols
}

#[cfg(test)]
mod tests {
    use super::*;

    #[test]
    fn a_symbol_by_its_number(rt: HostRuntime) {
        let mut bytes = [0; MOST_SYMBOL_BYTES];
        bytes[3] = 2;
        bytes[4] = 9;
        bytes[5] = 1;
        bytes[MOST_SYMBOL_BYTES - 1] = 1;
        let symbols = Symbols {
            count: 2,
            bytes,
            index: [0; SLOTS],
        };
        let zeros = Symbol {
            category: 0,
            node: 0,
            kind: 0,
        };
        let second = Symbol {
            category: 2,
            node: 9,
            kind: 1,
        };
        let last = Symbol { kind: 1, ..zeros };
        assert_eq!(rt; symbols.get(0), zeros);
        assert_eq!(rt; symbols.get(1), second);
        assert_eq!(rt; symbols.get(MOST_SYMBOLS - 1), last);
        assert_eq!(rt; symbols.get(MOST_SYMBOLS), zeros);
        assert_eq!(rt; symbols.get(usize::MAX), zeros);
    }
}
