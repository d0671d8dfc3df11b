// Stored tables: which bytes are a table, with which number the others are refused, and the table as arrays of numbers.
//
// In: any bytes. Out: a refusal, 4 to 12, or the table as small arrays.
//
//   forms.rt  the form of the URNs: 7
#![tactic(auto)]

mod forms;

ghost use Rattle.std.specs.Prelude.{◌≡◌};
ghost use Rattle.table_sections.specs.Held.{ReadAs};
ghost use Rattle.table_decode.specs.Tables.{table_refusal};
ghost use Rattle.table_decode.specs.Stages.{FormedAs, ListedAs};
ghost use Rattle.table_decode.specs.Decoded.{Means};

use base_numbers::{MOST_CATEGORIES, MOST_NODES, MOST_SIGNALS, MOST_TABLE_URNS, Refusal};
pub use node_search::decoded::Decoded;
use node_search::marks::Marks;
use table_sections::Counts;

// The nodes are numbered and the signals placed, with refusals 9 to 12.
fn place_signals(
    t: &[u8],
    l: Counts,
    name_at: &[u16; MOST_CATEGORIES],
    name_len: &[u8; MOST_CATEGORIES],
    signal: &[u8; MOST_TABLE_URNS],
    category: &[u8; MOST_TABLE_URNS],
    path_at: &[u16; MOST_TABLE_URNS],
    path_len: &[u8; MOST_TABLE_URNS],
) -> Result<Decoded, Refusal>
    requires { ListedAs t.now name_at.now name_len.now signal.now category.now path_at.now path_len.now l }
    ensures { Means t.now result }
{
    let mut node = [0u8; MOST_TABLE_URNS];
    let mut cats = [0u8; MOST_NODES];
    let mut parent = [0u8; MOST_NODES];
    let mut at = [0u16; MOST_NODES];
    let mut len = [0u8; MOST_NODES];
    let added = table_nodes::add_all(
        t,
        l.urns,
        category,
        path_at,
        path_len,
        &mut node,
        &mut cats,
        &mut parent,
        &mut at,
        &mut len,
    );
    let Some(nodes) = added else {
        return Err(table_places::by_texts(
            t,
            l.signals,
            l.categories,
            l.urns,
            signal,
            category,
            path_at,
            path_len,
        ));
    };
    let mut rows = [0u64; MOST_SIGNALS];
    table_places::by_nodes(l.signals, l.urns, signal, category, &node, &mut rows)?;
    let Marks { shared, inner } = node_search::marks::of_nodes(t, &cats, &parent, &at, &len, nodes);
    Ok(Decoded {
        categories: l.categories,
        signals: l.signals,
        nodes,
        name_at: *name_at,
        name_len: *name_len,
        category: cats,
        parent,
        at,
        len,
        shared,
        inner,
        rows,
    })
}

// The names of the categories and of the URNs are compared: refusal 8, then the rest.
fn judge_names(
    t: &[u8],
    l: Counts,
    name_at: &[u16; MOST_CATEGORIES],
    name_len: &[u8; MOST_CATEGORIES],
    at: &mut [u16; MOST_TABLE_URNS],
    len: &mut [u8; MOST_TABLE_URNS],
    signal: &[u8; MOST_TABLE_URNS],
) -> Result<Decoded, Refusal>
    requires { FormedAs t.now name_at.now name_len.now at.old len.old signal.now l }
    ensures { Means t.now result }
{
    let mut category = [0u8; MOST_TABLE_URNS];
    if table_names::names_distinct(t, l.categories, name_at, name_len)
        && table_names::index_urns(
            t,
            l.categories,
            name_at,
            name_len,
            l.urns,
            at,
            len,
            &mut category,
        )
        && table_names::all_used(&category, l.urns, l.categories)
    {
        return place_signals(t, l, name_at, name_len, signal, &category, at, len);
    }
    Err(Refusal::TableBadCategory)
}

// The names and URNs are looked through for their form: refusal 7, then the rest.
fn judge_forms(
    t: &[u8],
    l: Counts,
    name_at: &[u16; MOST_CATEGORIES],
    name_len: &[u8; MOST_CATEGORIES],
    at: &mut [u16; MOST_TABLE_URNS],
    len: &mut [u8; MOST_TABLE_URNS],
    signal: &[u8; MOST_TABLE_URNS],
) -> Result<Decoded, Refusal>
    requires { ReadAs t.now name_at.now name_len.now at.old len.old signal.now l }
    ensures { Means t.now result }
{
    if table_names::names_formed(t, l.categories, name_at, name_len)
        && forms::urns_formed(t, l.urns, at, len)
    {
        return judge_names(t, l, name_at, name_len, at, len, signal);
    }
    Err(Refusal::TableBadForm)
}

// A stored table, decoded. Open are: which of several equal texts of the table `name_at` and `at` name, and what `shared` has past
// the nodes.
pub fn decode(t: &[u8]) -> Result<Decoded, Refusal>
    ensures { Means t.now result }
{
    let mut name_at = [0u16; MOST_CATEGORIES];
    let mut name_len = [0u8; MOST_CATEGORIES];
    let mut at = [0u16; MOST_TABLE_URNS];
    let mut len = [0u8; MOST_TABLE_URNS];
    let mut signal = [0u8; MOST_TABLE_URNS];
    let l = table_sections::read(
        t,
        &mut name_at,
        &mut name_len,
        &mut at,
        &mut len,
        &mut signal,
    )?;
    judge_forms(t, l, &name_at, &name_len, &mut at, &mut len, &signal)
}

// The number with which a stored table is refused, or 0.
pub fn refusal(t: &[u8]) -> u8
    ensures { result ≡ table_refusal t.now }
{
    match decode(t) {
        Ok(_) => 0,
        Err(k) => u8::from(k),
    }
}
