// The plain resolver by a table that is decoded already: whoever needs the decoded table too, or resolves many values,
// decodes it once.
ghost use Rattle.std.specs.Prelude.{◌≡◌, cond, eqb};
ghost use Rattle.base_numbers.specs.Refusals.{refusal_number};
ghost use Rattle.value_reader.specs.Value.{refusal_of};
ghost use Rattle.resolve_library.specs.Resolve.{refused as refused_with, tried_as};
ghost use Rattle.resolve_library.specs.ByTable.{tried_by, accepted_by, plain_by};

use crate::PlainResolution;
use base_numbers::Refusal;
use resolve_run::Resolution;
use resolve_run::answer::{direct, value_first};
use resolve_run::run::at_start;
use table_decode::Decoded;

// An answer with its tries, of which a refused one has none.
fn with_tries(a: Resolution, tries: u16) -> PlainResolution
    ensures { result ≡ tried_as a tries }
{
    PlainResolution {
        refusal: a.refusal,
        signal: a.signal,
        used: a.used,
        skipped: a.skipped,
        tries: if a.refusal == 0 { tries } else { 0 },
    }
}

// The answer by a table that is refused with r: the value's number comes first.
pub(crate) fn untried(v: &[u8], r: Refusal) -> PlainResolution
    ensures { result ≡ tried_as (refused_with (cond (eqb (refusal_of v.now) 0) (refusal_number r) (refusal_of v.now))) 0 }
{
    with_tries(value_first(v, u8::from(r)), 0)
}

// The value v with what is decoded of the table t, and the tries.
pub(crate) fn tried(t: &[u8], d: &Decoded, v: &[u8]) -> PlainResolution
    ensures { result ≡ tried_by t.now d.now v.now }
{
    let e = direct(t, d, at_start(), v);
    with_tries(e.answer, e.last.tries())
}

// The value v with what is decoded of the table t.
#[tactic(auto, unfolding(crate::specs::ByTable::accepted_by))]
pub fn accepted(t: &[u8], d: &Decoded, v: &[u8]) -> Resolution
    ensures { result ≡ accepted_by t.now d.now v.now }
{
    direct(t, d, at_start(), v).answer
}

// The same, or the refusal that is decoded.
#[tactic(auto, unfolding(crate::specs::ByTable::plain_by))]
pub fn plain(t: &[u8], d: &Result<Decoded, Refusal>, v: &[u8]) -> Resolution
    ensures { result ≡ plain_by t.now d.now v.now }
{
    match d {
        Ok(d) => accepted(t, d, v),
        Err(r) => value_first(v, u8::from(*r)),
    }
}
