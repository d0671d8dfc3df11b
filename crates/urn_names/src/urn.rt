// Alert URNs in a value, without regard to letter case, and the forms that a table stores.
ghost use Rattle.std.specs.Prelude.{◌≡◌};
ghost use Rattle.base_ascii.specs.Ascii.{bytes};
ghost use Rattle.urn_names.specs.Urn.{begins, rest_ok, alert_urn, stored_name, urn_ok};

use crate::names::{InUri, Stored, name, names};
use base_numbers::MOST_URN_NAMES;
use base_text::cut::part;
use base_text::letter_case::same_lowered;

const SCHEME: [u8; 10] = *b"urn:alert:";

// The URI begins with `urn:alert:`, capitals or not. Small letters are the usual case: they are compared at once.
fn begins_alert(s: &[u8]) -> bool
    ensures { result ≡ begins (bytes "urn:alert:") s.now }
{
    let front = part(s, 0, 10);
    front == SCHEME.as_slice() || same_lowered(front, &SCHEME)
}

// What stands after `urn:alert:` is a category and one or more parts.
fn rest_formed(s: &[u8]) -> bool
    ensures { result ≡ rest_ok s.now }
{
    names::<InUri>(s).is_some_and(|n| 2 <= n)
}

// The URI is an alert URN.
pub fn is_alert_urn(uri: &[u8]) -> bool
    ensures { result ≡ alert_urn uri.now }
{
    begins_alert(uri) && rest_formed(part(uri, 10, uri.len()))
}

// A name as a table stores it: without capital letters.
pub fn stored_name(s: &[u8]) -> bool
    ensures { result ≡ stored_name s.now }
{
    name::<Stored>(s)
}

// A URN as a table stores it: a category and 1 to 8 parts, without capital letters.
pub fn urn_formed(s: &[u8]) -> bool
    ensures { result ≡ urn_ok s.now }
{
    names::<Stored>(s).is_some_and(|n| (2..=MOST_URN_NAMES).contains(&n))
}
