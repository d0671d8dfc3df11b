// Labels and names: those of a URI may have capital letters, those that a table stores may not.
ghost use Rattle.std.specs.Prelude.{◌≡◌, ◌≤◌, ℕ, Bool, false, length};
ghost use Rattle.base_lists.specs.Cuts.{run};
ghost use Rattle.urn_names.specs.Names.{label_byte, length_by};
ghost use Rattle.urn_names.specs.Urn.{stored_byte, count_by};
ghost use Rattle.urn_names.specs.Labels.{label_shape, label_by, name_by, colon_no_label, at_no_label, colon_not_stored, at_not_stored};

use base_numbers::MOST_LABEL_BYTES;
use base_text::cut::find;

// Which bytes may stand in a label. A colon and an `@` stand between labels.
pub(crate) trait LabelByte {
    ghost stands: { ℕ → Bool };

    ghost no_colon: { stands 58 ≡ false };

    ghost no_at: { stands 64 ≡ false };

    fn may_stand(b: u8) -> bool
        ensures { result ≡ stands b };
}

// In a URI: a letter, a digit or a hyphen.
pub(crate) struct InUri;

impl LabelByte for InUri {
    ghost stands = { label_byte };

    ghost no_colon = { colon_no_label };

    ghost no_at = { at_no_label };

    #[tactic(auto, unfolding(crate::specs::Names::label_byte), using(std::proofs::lemmas::Bool::Decides::nat_tests))]
    fn may_stand(b: u8) -> bool {
        b.is_ascii_alphanumeric() || b == b'-'
    }
}

// In a stored table: a small letter, a digit or a hyphen.
pub(crate) struct Stored;

impl LabelByte for Stored {
    ghost stands = { stored_byte };

    ghost no_colon = { colon_not_stored };

    ghost no_at = { at_not_stored };

    #[tactic(auto, unfolding(crate::specs::Names::label_byte, crate::specs::Urn::stored_byte), using(std::proofs::lemmas::Bool::Decides::nat_tests))]
    fn may_stand(b: u8) -> bool {
        b.is_ascii_lowercase() || b.is_ascii_digit() || b == b'-'
    }
}

// How many bytes at the front may stand in a label.
fn run<B: LabelByte>(s: &[u8]) -> usize
    ensures { result ≡ run B.stands s.now }
{
    s.iter().take_while(|b| B::may_stand(**b)).count()
}

// The n bytes at the front are no more than a label has, and at least one, and a hyphen stands at neither end.
fn label_shape(s: &[u8], n: usize) -> bool
    requires { n ≤ length s.now }
    ensures { result ≡ label_shape n s.now }
{
    (1..=MOST_LABEL_BYTES).contains(&n) && s[0] != b'-' && s[n - 1] != b'-'
}

// A label: at most 27 letters, digits and hyphens, at least one, and a hyphen at neither end.
fn label<B: LabelByte>(s: &[u8]) -> bool
    ensures { result ≡ label_by B.stands s.now }
{
    let k = run::<B>(s);
    k == s.len() && label_shape(s, k)
}

// A category or part: one label, or two with `@` between them. Each byte is looked at once.
pub(crate) fn name<B: LabelByte>(s: &[u8]) -> bool
    ensures { result ≡ name_by B.stands s.now }
{
    let k = run::<B>(s);
    if k == s.len() {
        return label_shape(s, k);
    }
    s[k] == b'@' && label_shape(s, k) && label::<B>(&s[k + 1..])
}

// How long the name up to the first colon or the end is, if it is of good form. One look at each byte where it has no `@`.
fn name_end<B: LabelByte>(s: &[u8]) -> Option<usize>
    ensures { result ≡ length_by (name_by B.stands) s.now }
{
    let k = run::<B>(s);
    if k < s.len() && s[k] != b':' {
        let e = find(s, b':');
        return if name::<B>(&s[..e]) { Some(e) } else { None };
    }
    if label_shape(s, k) { Some(k) } else { None }
}

// How many names stand between the colons, if all are of good form.
pub(crate) fn names<B: LabelByte>(s: &[u8]) -> Option<usize>
    ensures { result ≡ count_by (name_by B.stands) s.now }
{
    let mut rest = s;
    let mut count: usize = 0;
    // How long a name is is known only when it is read, so no chain goes over them.
    loop {
        let k = name_end::<B>(rest)?;
        count += 1;
        if k == rest.len() {
            return Some(count);
        }
        rest = &rest[k + 1..];
    }
}
