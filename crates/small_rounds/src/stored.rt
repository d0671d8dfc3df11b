// Whether there is a machine in the rows: the counts are in range, the bytes are there, every target is a state.
ghost use Rattle.std.specs.Prelude.{◌≡◌, true, false, ◌<◌, MatchOption, IsTrue, ◌↔◌};
ghost use Rattle.base_lists.specs.Lists.{all_below};
ghost use Rattle.small_rounds.specs.Stored.{row_leads, Room, Stored};
ghost use Rattle.small_rounds.specs.Rows.{machine_in, has_machine};

use base_numbers::MOST_STATES;

// A machine's rows: any bytes, with the numbers of states, of bytes before a state's targets, and of symbols.
#[derive(Clone, Copy)]
pub struct Rows<'a> {
    pub bytes: &'a [u8],
    pub states: usize,
    pub head: usize,
    pub symbols: usize,
}

// Rows that have a machine.
#[derive(Clone, Copy)]
pub struct Machine<'a> {
    pub rows: Rows<'a>,
    pub ghost stored: { Stored rows.bytes.now rows.states rows.head rows.symbols },
}

impl<'a> Rows<'a> {
    // All targets of state j are states.
    fn row_leads(self, j: usize) -> bool
        requires { Room self.bytes.now self.states self.head self.symbols × (j < self.states) }
        ensures { result ≡ row_leads (machine_in self.entry) j }
    {
        let a = j * (self.head + self.symbols) + self.head;
        (0..self.symbols).all(|s| usize::from(self.bytes[a + s]) < self.states)
    }

    // All targets of all states are.
    fn all_lead(self) -> bool
        requires { Room self.bytes.now self.states self.head self.symbols }
        ensures { result ≡ all_below self.entry.states (row_leads (machine_in self.entry)) }
    {
        (0..self.states).all(|j| self.row_leads(j))
    }

    // The counts are in range, and the bytes are there.
    fn has_room(self) -> bool
        ensures { IsTrue result ↔ Room self.entry.bytes.now self.entry.states self.entry.head self.entry.symbols }
    {
        (1..=MOST_STATES).contains(&self.states)
            && (1..=512).contains(&self.head)
            && self.symbols <= 512
            && self.states * (self.head + self.symbols) <= self.bytes.len()
    }

    // There is a machine in the rows.
    fn is_stored(self) -> bool
        ensures { result ≡ has_machine self.entry }
    {
        self.has_room() && self.all_lead()
    }

    // The machine in the rows.
    pub fn machine(self) -> Option<Machine<'a>>
        ensures { MatchOption result (has_machine self.entry ≡ false) (λ m. (has_machine self.entry ≡ true) × (m.rows ≡ self.entry)) }
    {
        if self.is_stored() {
            Some(Machine { rows: self })
        } else {
            None
        }
    }
}
