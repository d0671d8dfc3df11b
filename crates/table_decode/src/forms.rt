// The form of the URNs: refusal 7.
ghost use Rattle.std.specs.Prelude.{◌≡◌, ◌≤◌};
ghost use Rattle.base_numbers.specs.Numbers.{most_table_urns};
ghost use Rattle.base_lists.specs.Cuts.{stretch};
ghost use Rattle.base_lists.specs.Tests.{all};
ghost use Rattle.base_lists.specs.Lists.{tabulate};
ghost use Rattle.urn_names.specs.Urn.{urn_ok};

use base_numbers::MOST_TABLE_URNS;
use node_search::texts::text_at;

// Every URN has its form.
pub(crate) fn urns_formed(
    t: &[u8],
    m: usize,
    at: &[u16; MOST_TABLE_URNS],
    len: &[u8; MOST_TABLE_URNS],
) -> bool
    requires { m ≤ most_table_urns }
    ensures { result ≡ all urn_ok (tabulate (stretch t.now at.now len.now) m) }
{
    (0..m).all(|i| urn_names::urn::urn_formed(text_at(t, at, len, i)))
}
