// The names of a table's categories: their form, that none is listed twice, and the category of each URN.
//
// In: the names and the URNs as places in the bytes. Out: 7 and 8 as two tests, and each URN's category.
#![tactic(auto)]

ghost use Rattle.std.specs.Prelude.{◌≡◌, true, ◌≤◌, get_or, eqb};
ghost use Rattle.base_numbers.specs.Numbers.{most_categories, most_table_urns};
ghost use Rattle.base_lists.specs.Tests.{all, any, no_two};
ghost use Rattle.base_lists.specs.Lists.{tabulate, index_by};
ghost use Rattle.theory_resolution.specs.Names.{same_name};
ghost use Rattle.urn_names.specs.Urn.{stored_name};
ghost use Rattle.node_search.specs.Arrays.{text_in};
ghost use Rattle.table_names.specs.Categories.{names_in, all_listed, all_used, IndexIn, Fits, Indexed};

use base_bytes::numbers::{short, small};
use base_numbers::{MOST_CATEGORIES, MOST_TABLE_URNS};
use node_search::texts::text_at;

// Every name has its form. Past the 8 for which there is room a name is empty, here and below.
pub fn names_formed(
    t: &[u8],
    n: usize,
    at: &[u16; MOST_CATEGORIES],
    len: &[u8; MOST_CATEGORIES],
) -> bool
    ensures { result ≡ all stored_name (names_in t.now at.now len.now n) }
{
    (0..n).all(|i| urn_names::urn::stored_name(text_at(t, at, len, i)))
}

// The number of the first of n categories that has the name s.
fn name_index(
    t: &[u8],
    s: &[u8],
    n: usize,
    at: &[u16; MOST_CATEGORIES],
    len: &[u8; MOST_CATEGORIES],
) -> Option<usize>
    ensures { IndexIn n (index_by same_name s.now (names_in t.now at.now len.now n)) result }
{
    for i in 0..n {
        if base_text::compare::same(s, text_at(t, at, len, i)) {
            return Some(i);
        }
    }
    None
}

// Some category before category i has the same name.
fn listed_before(
    t: &[u8],
    i: usize,
    at: &[u16; MOST_CATEGORIES],
    len: &[u8; MOST_CATEGORIES],
) -> bool
    ensures { result ≡ any (λ x. same_name x (text_in most_categories t.now at.now len.now i)) (names_in t.now at.now len.now i) }
{
    name_index(t, text_at(t, at, len, i), i, at, len).is_some()
}

// No category is listed twice.
pub fn names_distinct(
    t: &[u8],
    n: usize,
    at: &[u16; MOST_CATEGORIES],
    len: &[u8; MOST_CATEGORIES],
) -> bool
    ensures { result ≡ no_two same_name (names_in t.now at.now len.now n) }
{
    (0..n).all(|i| !listed_before(t, i, at, len))
}

// Whether the category of each of m URNs is listed; then it is put into the array, and the URN's text is cut down to its path.
// What the arrays have is promised if all are listed, of a table of at most 8,192 bytes with at most 8 categories. Otherwise it is
// left open: no caller looks at them then.
pub fn index_urns(
    t: &[u8],
    n: usize,
    name_at: &[u16; MOST_CATEGORIES],
    name_len: &[u8; MOST_CATEGORIES],
    m: usize,
    at: &mut [u16; MOST_TABLE_URNS],
    len: &mut [u8; MOST_TABLE_URNS],
    category: &mut [u8; MOST_TABLE_URNS],
) -> bool
    ensures value { result ≡ all_listed (names_in t.now name_at.now name_len.now n) t.now at.old len.old m }
    ensures indexed { Fits t.now n m category.old → result ≡ true
        → Indexed t.now (names_in t.now name_at.now name_len.now n) at.old len.old m
        category.new at.new len.new }
{
    if MOST_TABLE_URNS < m {
        return false;
    }
    for i in 0..m {
        let u = text_at(t, at, len, i);
        let k = base_text::cut::find(u, b':');
        let found = name_index(t, &u[..k], n, name_at, name_len);
        let Some(c) = found else {
            return false;
        };
        // The path begins after the first colon, or at the end of a URN that has none.
        let e = u.len().min(k + 1);
        category[i] = small(c);
        at[i] = short(usize::from(at[i]) + e);
        len[i] = small(u.len() - e);
    }
    true
}

// Some URN is of category c.
fn has_category(category: &[u8; MOST_TABLE_URNS], m: usize, c: usize) -> bool
    requires { m ≤ most_table_urns }
    ensures { result ≡ any (λ x. eqb x c) (tabulate (λ j. get_or category.now j 0) m) }
{
    (0..m).any(|j| usize::from(category[j]) == c)
}

// Every one of n categories has one of m URNs; false if there is no room for so many.
pub fn all_used(category: &[u8; MOST_TABLE_URNS], m: usize, n: usize) -> bool
    ensures { result ≡ all_used category.now m n }
{
    m <= MOST_TABLE_URNS && (0..n).all(|c| has_category(category, m, c))
}
