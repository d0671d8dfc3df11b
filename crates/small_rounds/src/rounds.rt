// The rounds of refinement: the partition by signals, then by the classes of the targets, until nothing changes.
ghost use Rattle.std.specs.Prelude.{◌≡◌, ◌≤◌, ◌<◌, length, slice_index};
ghost use Rattle.base_lists.specs.Lists.{tabulate, all_below};
ghost use Rattle.theory_minimal.specs.Proposal.{class_of};
ghost use Rattle.theory_minimal.specs.Refine.{leader, same_row, same_target, refine, blocks};
ghost use Rattle.small_rounds.specs.Rows.{machine_in};

use crate::stored::Machine;

impl Machine<'_> {
    // The signal of state j, for any j: the byte at its place, 0 past the rows.
    pub fn signal(self, j: usize) -> u8
        ensures { result ≡ (machine_in self.entry.rows).signal j }
    {
        let at = j.saturating_mul(self.rows.head + self.rows.symbols);
        self.rows.bytes.get(at).copied().unwrap_or(0)
    }

    // Where state j goes on symbol s, for any two: the byte at that place, 0 past the rows.
    pub fn target(self, j: usize, s: usize) -> u8
        ensures { result ≡ (machine_in self.entry.rows).target j s }
    {
        let row = j.saturating_mul(self.rows.head + self.rows.symbols);
        let at = row.saturating_add(self.rows.head).saturating_add(s);
        self.rows.bytes.get(at).copied().unwrap_or(0)
    }

    // The class of where state j goes on symbol s, for any two and any classes: 0 where p has none for it.
    pub fn class_after(self, p: &[u8], j: usize, s: usize) -> u8
        ensures { result ≡ class_of p.now ((machine_in self.entry.rows).target j s) }
    {
        p.get(usize::from(self.target(j, s))).copied().unwrap_or(0)
    }

    // The class of where a state goes on symbol s, by where its targets begin.
    fn class_at(self, p: &[u8], j: usize, s: usize) -> u8
        requires { (length p.now ≡ self.rows.states) × (j < self.rows.states) × (s < self.rows.symbols) }
        ensures { result ≡ slice_index p.now ((machine_in self.entry.rows).target j s) }
    {
        let target = self.rows.bytes[j * (self.rows.head + self.rows.symbols) + self.rows.head + s];
        p[usize::from(target)]
    }

    // States i and j have one class, and so have their targets for each symbol.
    fn same_row(self, p: &[u8], i: usize, j: usize) -> bool
        requires { (length p.now ≡ self.rows.states) × (i < self.rows.states) × (j < self.rows.states) }
        ensures { result ≡ same_row (machine_in self.entry.rows) p.now i j }
    {
        p[i] == p[j] && self.same_targets(p, i, j)
    }

    // The targets have, for each symbol.
    fn same_targets(self, p: &[u8], i: usize, j: usize) -> bool
        requires { (length p.now ≡ self.rows.states) × (i < self.rows.states) × (j < self.rows.states) }
        ensures { result ≡ all_below self.entry.rows.symbols (same_target (machine_in self.entry.rows) p.now i j) }
    {
        (0..self.rows.symbols).all(|s| self.class_at(p, i, s) == self.class_at(p, j, s))
    }

    // The first state that the classes do not tell from state i.
    fn first_like(self, p: &[u8], i: usize) -> usize
        requires { (length p.now ≡ self.rows.states) × (i < self.rows.states) }
        ensures { (result ≡ leader (same_row (machine_in self.entry.rows) p.now) i) × (result ≤ i) }
    {
        (0..i).find(|&j| self.same_row(p, i, j)).unwrap_or(i)
    }

    // One round: the classes q after the classes p.
    fn refine(self, p: &[u8], q: &mut [u8])
        requires { (length p.now ≡ self.rows.states) × (length q.old ≡ self.rows.states) }
        ensures { q.new ≡ refine (machine_in self.entry.rows) p.now }
    {
        for i in 0..q.len() {
            q[i] = self.first_like(p, i) as u8;
        }
    }

    // The first partition: by the states' signals.
    fn signals(self, p: &mut [u8])
        requires { length p.old ≡ self.rows.states }
        ensures { p.new ≡ tabulate (machine_in self.entry.rows).signal self.entry.rows.states }
    {
        for i in 0..p.len() {
            p[i] = self.signal(i);
        }
    }

    // For each state the first equivalent one: rounds of refinement until nothing changes, at most as many as there are states.
    pub(crate) fn blocks(self, p: &mut [u8], q: &mut [u8])
        requires { (length p.old ≡ self.rows.states) × (length q.old ≡ self.rows.states) }
        ensures { p.new ≡ blocks (machine_in self.entry.rows) }
    {
        self.signals(p);
        for _ in 0..self.rows.states {
            self.refine(p, q);
            if *p == *q {
                return;
            }
            base_bytes::lent::copy(q, p);
        }
    }
}
