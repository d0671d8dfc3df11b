// The signals that a search has found.
ghost use Rattle.std.specs.Prelude.{◌≡◌, ◌≤◌, length};
ghost use Rattle.base_numbers.specs.Numbers.{most_signals};

use base_numbers::MOST_SIGNALS;

// Signals, numbered in the order in which they are found.
#[derive(Clone, Copy)]
pub(crate) struct Found {
    pub count: usize,
    pub signals: [u8; MOST_SIGNALS],
    pub ghost few: { count ≤ most_signals },
    pub ghost wide: { length signals ≡ most_signals },
}

impl Found {
    ghost use Rattle.std.specs.Prelude.{◌<◌, [], ◌∷◌, get_or, eqb, MatchOption};
    ghost use Rattle.base_lists.specs.Lists.{member_by, add_by, index_by};
    ghost use Rattle.table_kept.specs.Held.{signals_in};

    // Signal 0 alone.
    pub(crate) fn start() -> Found
        ensures { signals_in result ≡ 0 ∷ [] }
    {
        Found {
            count: 1,
            signals: [0u8; MOST_SIGNALS],
        }
    }

    // The signal with number i, or 0.
    pub(crate) fn at(self, i: usize) -> u8
        ensures { result ≡ get_or (signals_in self) i 0 }
    {
        self.signals[..self.count].get(i).copied().unwrap_or(0)
    }

    // Signal s is one of them.
    fn holds(self, s: u8) -> bool
        ensures { result ≡ member_by eqb s (signals_in self) }
    {
        self.signals[..self.count].iter().any(|x| s == *x)
    }

    // The number of signal s.
    pub(crate) fn number_of(self, s: u8) -> Option<usize>
        ensures { MatchOption result (index_by eqb s (signals_in self) ≡ self.count) (λ j. (j ≡ index_by eqb s (signals_in self)) × (j < self.count)) }
    {
        for i in 0..self.count {
            if self.signals[i] == s {
                return Some(i);
            }
        }
        None
    }

    // With signal s at the end, unless it is there.
    pub(crate) fn with(self, s: u8) -> Found
        requires { length (add_by eqb (signals_in self) s) ≤ most_signals }
        ensures { signals_in result ≡ add_by eqb (signals_in self) s }
    {
        if self.holds(s) {
            return self;
        }
        let mut signals = self.signals;
        signals[self.count] = s;
        Found {
            count: self.count + 1,
            signals,
        }
    }
}
