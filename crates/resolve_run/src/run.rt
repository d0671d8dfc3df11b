// Going through a value from entry to entry, with the state after those passed.
ghost use Rattle.std.specs.Prelude.{◌≡◌, ◌+◌, ◌*◌, ◌≤◌, suc, min, length, IfSome};
ghost use Rattle.base_numbers.specs.Numbers.{most_categories, most_value_bytes};
ghost use Rattle.machine_image.specs.Image.{signal_in};
ghost use Rattle.resolve_run.specs.declared.run.Current.TheVariants.{Direct};
ghost use Rattle.resolve_run.specs.Run.{start_now, target_now, state_of, tries_of, begin, moved, after_use, run_from};

use crate::entry::entry_at;
use base_numbers::MOST_CATEGORIES;
use node_search::uses::{Used, uses};
use node_step::{Progress, State, Status};
use table_decode::Decoded;

// What a walk goes by: symbols with their index and count, as a table's, and an image whose states have a byte for each of so
// many categories: the table's, or none in a small image.
#[derive(Clone, Copy)]
pub struct Walk<'a> {
    pub index: &'a [u8],
    pub symbols: &'a [u8],
    pub count: usize,
    pub categories: usize,
    pub image: &'a [u8],
}

impl Walk<'_> {
    // The target that the row of state j holds for the symbol of a used URN.
    fn target(&self, d: &Decoded, j: u8, c: u8, k: u8, whole: bool) -> u8
        ensures { result ≡ target_now d.now.inner self.now j c k whole }
    {
        let n = machine_symbols::number(
            self.index,
            self.symbols,
            self.count,
            &d.inner,
            c,
            k,
            whole,
        );
        machine_check::image::target(self.image, self.categories, j, n)
    }

    // The signal of state j.
    pub(crate) fn signal(&self, j: u8) -> u8
        ensures { result ≡ signal_in (min self.now.categories most_categories) self.now.image.now j }
    {
        machine_check::image::signal(self.image, self.categories, j)
    }
}

// Where a resolver is: at a state of direct resolution, with the candidates tried so far, or at a state of the image that it walks.
#[derive(Clone, Copy)]
pub enum Current<'a> {
    Direct { state: State, tries: u16 },
    Walking(Walk<'a>, u8),
}

impl Current<'_> {
    // The state of direct resolution: the start for a walk.
    pub fn state(&self) -> State
        ensures { result ≡ state_of self.now }
    {
        match self {
            Current::Direct { state, tries: _ } => *state,
            Current::Walking(_, _) => start(),
        }
    }

    // The candidates tried: none by a walk.
    pub fn tries(&self) -> u16
        ensures { result ≡ tries_of self.now }
    {
        match self {
            Current::Direct { state: _, tries } => *tries,
            Current::Walking(_, _) => 0,
        }
    }
}

// Where a resolver is after some entries, with the numbers of used and skipped ones.
#[derive(Clone, Copy)]
pub struct Point<'a> {
    pub current: Current<'a>,
    pub used: usize,
    pub skipped: usize,
}

// Signal 0, and every category open.
pub(crate) fn start() -> State
    ensures { result ≡ start_now }
{
    State {
        signal: 0,
        categories: [Progress {
            status: Status::Open,
        }; MOST_CATEGORIES],
    }
}

// At the start of direct resolution.
pub fn at_start<'a>() -> Current<'a>
    ensures { result ≡ Direct start_now 0 }
{
    Current::Direct {
        state: start(),
        tries: 0,
    }
}

// No entry read yet, and no candidate tried.
pub(crate) fn begin_at(x: Current) -> Point
    ensures { result ≡ begin x.entry }
{
    let current = match x {
        Current::Direct { state, tries: _ } => Current::Direct { state, tries: 0 },
        Current::Walking(walk, j) => Current::Walking(walk, j),
    };
    Point {
        current,
        used: 0,
        skipped: 0,
    }
}

// A used URN takes direct resolution one step on, or the walk to the target that the state's row holds for its symbol.
#[tactic(auto, unfolding(crate::specs::Run::moved))]
fn moved_by<'a>(d: &Decoded, current: Current<'a>, c: u8, k: u8, whole: bool) -> Current<'a>
    requires { tries_of current ≤ 40960 }
    ensures { result ≡ moved d.now.rows d.now.parent d.now.inner d.now.signals current.entry c k whole }
{
    match current {
        Current::Direct { state, tries } => {
            let counted = node_step::tries::step(d, state, usize::from(c), k, whole);
            Current::Direct {
                state: counted.state,
                tries: tries + u16::from(counted.tries),
            }
        }
        Current::Walking(walk, j) => Current::Walking(walk, walk.target(d, j, c, k, whole)),
    }
}

// One URI more, by what it is to the table.
fn taken<'a>(d: &Decoded, p: Point<'a>, found: Option<Used>) -> Point<'a>
    requires { (p.used + p.skipped ≤ most_value_bytes) × (tries_of p.current ≤ 10 * p.used) }
    ensures { result ≡ after_use d.now.rows d.now.parent d.now.inner d.now.signals p.entry found }
{
    match found {
        Some(u) => Point {
            current: moved_by(d, p.current, u.category, u.node, u.whole),
            used: p.used + 1,
            skipped: p.skipped,
        },
        None => Point {
            current: p.current,
            used: p.used,
            skipped: p.skipped + 1,
        },
    }
}

// From entry to entry through the value: where the resolver is at its end, unless it does not fit the grammar.
pub(crate) fn run<'a>(t: &[u8], d: &Decoded, from: Point<'a>, v: &[u8]) -> Option<Point<'a>>
    requires { (length v.now ≤ most_value_bytes) × (from.used + from.skipped ≡ 0) × (tries_of from.current ≡ 0) }
    ensures ends { result ≡ run_from t.now d.now v.now from.entry 0 }
    ensures few { IfSome result (λ p. p.used + p.skipped ≤ suc most_value_bytes) }
{
    let mut at = 0;
    let mut p = from;
    // Where the next entry begins is known only when one is read, so no range or chain goes over them.
    loop {
        let e = entry_at(v, at)?;
        let start = e.span.start;
        let end = start + e.span.len;
        let u = uses(t, d, &v[start..end]);
        p = taken(d, p, u);
        let Some(next) = e.next else {
            return Some(p);
        };
        at = next;
    }
}
