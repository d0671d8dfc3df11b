// The form of the last names: refusal 7.
ghost use Rattle.std.specs.Prelude.{◌≡◌};
ghost use Rattle.tree_nodes.specs.Tests.{lasts_formed};

use base_numbers::MOST_NODES;
use node_search::texts::text_at;
use tree_sections::Sections;
use urn_names::urn::stored_name;

// Every last name has its form, and there are at most 64.
pub fn lasts_formed(t: &[u8], s: &Sections) -> bool
    ensures { result ≡ lasts_formed t.now s.now.at s.now.len s.now.counts.nodes }
{
    s.counts.nodes <= MOST_NODES
        && (0..s.counts.nodes).all(|i| stored_name(text_at(t, &s.at, &s.len, i)))
}
