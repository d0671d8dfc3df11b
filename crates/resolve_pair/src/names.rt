// Whether two tables have a category in common, by the names of their categories. Tables hold no capital letter, so names are
// compared byte for byte.
ghost use Rattle.std.specs.Prelude.{◌≡◌, ℕ, ◌<◌, ◌≤◌, ◌↔◌, true, IsTrue};
ghost use Rattle.base_numbers.specs.Numbers.{most_categories};
ghost use Rattle.resolve_pair.specs.Alone.{other_at, none_at, apart_by};

use base_numbers::MOST_CATEGORIES;
use base_text::compare::same;
use node_search::texts::text_at;
use table_decode::Decoded;

// Category j of the table t has another name than x.
fn is_other(x: &[u8], t: &[u8], d: &Decoded, j: usize) -> bool
    requires { j < most_categories }
    ensures { result ≡ other_at x.now t.now d.now.name_at d.now.name_len j }
{
    !same(x, text_at(t, &d.name_at, &d.name_len, j))
}

// Each of the first n categories of the table t has another name than x.
fn none_is(x: &[u8], t: &[u8], d: &Decoded, n: usize) -> bool
    requires { n ≤ most_categories }
    ensures { IsTrue result ↔ ((j : ℕ) → j < n → other_at x.now t.now d.now.name_at d.now.name_len j ≡ true) }
{
    (0..n).all(|j| is_other(x, t, d, j))
}

// Each of the first n categories of the lamp table has another name than category i of the ring table.
fn none_has(ring: &[u8], r: &Decoded, lamp: &[u8], l: &Decoded, n: usize, i: usize) -> bool
    requires { (n ≤ most_categories) × (i < most_categories) }
    ensures { result ≡ none_at ring.now r.now.name_at r.now.name_len lamp.now l.now.name_at l.now.name_len n i }
{
    none_is(text_at(ring, &r.name_at, &r.name_len, i), lamp, l, n)
}

// No category of the one table is one of the other's.
#[tactic(auto, unfolding(crate::specs::Alone::apart_by))]
pub(crate) fn apart(ring: &[u8], r: &Decoded, lamp: &[u8], l: &Decoded) -> bool
    ensures { result ≡ apart_by ring.now r.now.name_at r.now.name_len r.now.categories lamp.now l.now.name_at l.now.name_len l.now.categories }
{
    let n = l.categories.min(MOST_CATEGORIES);
    for i in 0..r.categories.min(MOST_CATEGORIES) {
        if !none_has(ring, r, lamp, l, n, i) {
            return false;
        }
    }
    true
}
