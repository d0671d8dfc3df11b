// Classes by their first states: the first state of each state's class, and classes numbered in the order of these.
ghost use Rattle.std.specs.Prelude.{◌≡◌, ◌≤◌, ◌<◌, length};
ghost use Rattle.base_numbers.specs.Numbers.{most_states};
ghost use Rattle.base_lists.specs.Lists.{tabulate};
ghost use Rattle.theory_minimal.specs.Refine.{leader, leaders, same_class, block_number};
ghost use Rattle.small_classes.specs.Found.{Firsts};

// The first state of the class of state i.
fn first_same(p: &[u8], i: usize) -> usize
    requires { i < length p.now }
    ensures { (result ≡ leader (same_class p.now) i) × (result ≤ i) }
{
    (0..i).find(|&j| p[i] == p[j]).unwrap_or(i)
}

// For each state the first one of its class.
pub(crate) fn first_states(p: &[u8], q: &mut [u8])
    requires { (length p.now ≤ most_states) × (length q.old ≡ length p.now) }
    ensures { q.new ≡ leaders (same_class p.now) (length p.now) }
{
    for i in 0..p.len() {
        q[i] = first_same(p, i) as u8;
    }
}

// The classes of the blocks b, numbered by their first states.
pub(crate) fn number(b: &[u8], c: &mut [u8])
    requires { (length b.now ≤ most_states) × (length c.old ≡ length b.now) × Firsts b.now (length b.now) }
    ensures { c.new ≡ tabulate (block_number b.now) (length b.now) }
{
    let mut next: usize = 0;
    for i in 0..b.len() {
        let first = usize::from(b[i]);
        if first == i {
            c[i] = next as u8;
            next += 1;
        } else {
            c[i] = c[first];
        }
    }
}
