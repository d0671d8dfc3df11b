// The rows of the small image: each class by its first state.
ghost use Rattle.std.specs.Prelude.{◌≡◌, ℕ, ◌+◌, ◌*◌, ◌≤◌, ◌<◌, length};
ghost use Rattle.base_numbers.specs.Numbers.{most_states};
ghost use Rattle.theory_minimal.specs.Proposal.{first_of, small};
ghost use Rattle.small_rounds.specs.Rows.{machine_in};
ghost use Rattle.small_image.specs.Small.{small_states};
ghost use Rattle.small_write.specs.Rows.{row_of};

use small_rounds::Machine;

// The first state of class c.
fn first_of(p: &[u8], c: usize) -> usize
    ensures { result ≡ first_of p.now c }
{
    (0..p.len())
        .find(|&j| usize::from(p[j]) == c)
        .unwrap_or(p.len())
}

// The bytes of a class whose first state is f.
fn put_row(m: Machine, p: &[u8], row: &mut [u8], f: usize)
    requires { (length p.now ≡ m.rows.states) × (length row.old ≡ 1 + m.rows.symbols) × (f < m.rows.states) }
    ensures { row.new ≡ row_of (machine_in m.entry.rows) p.now f }
{
    row[0] = m.signal(f);
    for s in 0..m.rows.symbols {
        row[s + 1] = m.class_after(p, f, s);
    }
}

// The bytes of count classes.
pub(crate) fn put_rows(m: Machine, p: &[u8], out: &mut [u8], count: usize)
    requires { (length p.now ≡ m.rows.states) × (count ≤ most_states) × (length out.old ≡ count * (1 + m.rows.symbols))
        × ((c : ℕ) → c < count → first_of p.now c < m.rows.states) }
    ensures { out.new ≡ small_states (small (machine_in m.entry.rows) p.now) count }
{
    let width = 1 + m.rows.symbols;
    for c in 0..count {
        let f = first_of(p, c);
        put_row(m, p, &mut out[c * width..c * width + width], f);
    }
}
