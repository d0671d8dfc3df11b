// The nodes of a table, from the categories and paths of its URNs: each one's category, parent and path, and the node of every URN.
//
// In: the URNs' categories and paths as places in the bytes. Out: the nodes in their order, in arrays, or none if there are over 64.
#![tactic(auto)]

ghost use Rattle.std.specs.Prelude.{◌≡◌, true, false, ◌≤◌, ◌<◌};
ghost use Rattle.base_numbers.specs.Numbers.{most_nodes, most_table_urns};
ghost use Rattle.base_lists.specs.Lists.{tabulate};
ghost use Rattle.theory_resolution.specs.Table.{urn};
ghost use Rattle.theory_resolution.specs.Nodes.{same_urn, is_node, number};
ghost use Rattle.base_text.specs.Text.{fields};
ghost use Rattle.table_nodes.specs.Nodes.{node_urn, Clear, FoundAs, found_at_most, few_added, AddsNode, AddsPath, AddsUrn, AllAdded};

use base_bytes::numbers::{short, small};
use base_numbers::{MOST_NODES, MOST_TABLE_URNS};
use node_search::texts::text_at;

// The nodes found so far: how many, and each one's category, parent and path. Node k stands at k - 1.
#[derive(Clone, Copy)]
struct Nodes {
    count: usize,
    category: [u8; MOST_NODES],
    parent: [u8; MOST_NODES],
    at: [u16; MOST_NODES],
    len: [u8; MOST_NODES],
}

// A node's number, and whether it was none before.
#[derive(Clone, Copy)]
struct Added {
    node: usize,
    new: bool,
}

impl Nodes {
    // Node i + 1 has the category c and the path s.
    fn is_at(&self, t: &[u8], i: usize, c: u8, s: &[u8]) -> bool
        requires { i < most_nodes }
        ensures { result ≡ same_urn (urn c (fields 58 s.now)) (node_urn t.now self.now.category self.now.at self.now.len i) }
    {
        if c == self.category[i] {
            let p = text_at(t, &self.at, &self.len, i);
            return !base_text::compare::ends_differ(s, p) && base_text::compare::same(s, p);
        }
        false
    }

    // The number of the node of category c with the path s, from 1.
    fn find(&self, t: &[u8], c: u8, s: &[u8]) -> Option<usize>
        requires { self.now.count ≤ most_nodes }
        ensures number { FoundAs (number (tabulate (node_urn t.now self.now.category self.now.at self.now.len) self.now.count) c (fields 58 s.now)) result }
        ensures few { found_at_most self.now.count result }
    {
        for i in 0..self.count {
            if self.is_at(t, i, c, s) {
                return Some(i + 1);
            }
        }
        None
    }

    // The same, not looked for if it is known to be no node.
    fn find_unless(&self, t: &[u8], c: u8, s: &[u8], new: bool) -> Option<usize>
        requires { self.now.count ≤ most_nodes }
        ensures number { (new ≡ true → is_node (tabulate (node_urn t.now self.now.category self.now.at self.now.len) self.now.count) c (fields 58 s.now) ≡ false)
            → FoundAs (number (tabulate (node_urn t.now self.now.category self.now.at self.now.len) self.now.count) c (fields 58 s.now)) result }
        ensures few { found_at_most self.now.count result }
    {
        if new { None } else { self.find(t, c, s) }
    }

    // The node of category c with the path in the k bytes at `from`, under the node `parent`, is added unless it is there; none if
    // there is no room.
    fn add(
        &mut self,
        t: &[u8],
        c: u8,
        from: usize,
        k: usize,
        parent: usize,
        new: bool,
    ) -> Option<Added>
        requires { (self.old.count ≤ most_nodes) × (from < 65536) × (k < 256) × (parent ≤ most_nodes) }
        ensures adds_node { AddsNode t.now c from k parent self.old.count new self.old.category self.old.parent self.old.at self.old.len
            self.new.category self.new.parent self.new.at self.new.len self.new.count result }
        ensures few { few_added result × (self.new.count ≤ most_nodes) }
    {
        let path = base_text::cut::part(t, from, k);
        if let Some(node) = self.find_unless(t, c, path, new) {
            return Some(Added { node, new: false });
        }
        let n = self.count;
        if n < MOST_NODES {
            self.category[n] = c;
            self.parent[n] = small(parent);
            self.at[n] = short(from);
            self.len[n] = small(k);
            self.count = n + 1;
            return Some(Added {
                node: n + 1,
                new: true,
            });
        }
        None
    }

    // The ancestors of a path that is no node, and the path itself, are added, shortest first. A path that ends before the byte i is
    // no node if its parent is new, or if it is the whole path.
    fn add_path(&mut self, t: &[u8], c: u8, from: usize, k: usize) -> Option<Added>
        requires { (self.old.count ≤ most_nodes) × (from < 65536) × (k < 256) }
        ensures adds_path { AddsPath t.now c from k self.old.count self.old.category self.old.parent self.old.at self.old.len
            self.new.category self.new.parent self.new.at self.new.len self.new.count result }
        ensures few { few_added result × (self.new.count ≤ most_nodes) }
    {
        let w = base_text::cut::part(t, from, k);
        let e = w.len();
        let mut i = base_text::cut::find(w, b':');
        let mut r = self.add(t, c, from, i, 0, i == e)?;
        // Each step goes to the next colon, under the node that the one before made.
        while i < e {
            let start = i + 1;
            i = start + base_text::cut::find(&w[start..], b':');
            let new = r.new || i == e;
            r = self.add(t, c, from, i, r.node, new)?;
        }
        Some(r)
    }

    // The nodes of one URN are added, unless its path is a node already: then its ancestors are nodes too.
    fn add_urn(&mut self, t: &[u8], c: u8, from: usize, k: usize) -> Option<Added>
        requires { (self.old.count ≤ most_nodes) × (from < 65536) × (k < 256) }
        ensures adds_urn { AddsUrn t.now c from k self.old.count self.old.category self.old.parent self.old.at self.old.len
            self.new.category self.new.parent self.new.at self.new.len self.new.count result }
        ensures few { few_added result × (self.new.count ≤ most_nodes) }
    {
        if let Some(node) = self.find(t, c, base_text::cut::part(t, from, k)) {
            return Some(Added { node, new: false });
        }
        self.add_path(t, c, from, k)
    }
}

// The nodes of all URNs, and each URN's node: how many nodes there are, or none if there are more than 64.
// Promised for at most 256 URNs and arrays that are lent clear, so that nothing stands past the nodes. For more URNs and for other
// arrays all is left open, and so is what the arrays hold where none is answered. They are lent singly (a), as the clause has them.
pub fn add_all(
    t: &[u8],
    m: usize,
    category: &[u8; MOST_TABLE_URNS],
    path_at: &[u16; MOST_TABLE_URNS],
    path_len: &[u8; MOST_TABLE_URNS],
    node: &mut [u8; MOST_TABLE_URNS],
    cats: &mut [u8; MOST_NODES],
    parents: &mut [u8; MOST_NODES],
    at: &mut [u16; MOST_NODES],
    len: &mut [u8; MOST_NODES],
) -> Option<usize>
    ensures { m ≤ most_table_urns → Clear node.old cats.old parents.old at.old len.old
        → AllAdded t.now (node_urn t.now category.now path_at.now path_len.now) m
        node.new cats.new parents.new at.new len.new result }
{
    if MOST_TABLE_URNS < m {
        return None;
    }
    let mut nodes = Nodes {
        count: 0,
        category: *cats,
        parent: *parents,
        at: *at,
        len: *len,
    };
    for i in 0..m {
        let from = usize::from(path_at[i]);
        let k = usize::from(path_len[i]);
        let r = nodes.add_urn(t, category[i], from, k)?;
        node[i] = small(r.node);
    }
    let Nodes {
        count,
        category: node_category,
        parent: node_parent,
        at: node_at,
        len: node_len,
    } = nodes;
    *cats = node_category;
    *parents = node_parent;
    *at = node_at;
    *len = node_len;
    Some(count)
}
