// One value of a message that has several: direct resolution goes on from what is carried.
ghost use Rattle.std.specs.Prelude.{◌≡◌, ◌<◌, length};
ghost use Rattle.base_numbers.specs.Numbers.{most_categories, most_values};
ghost use Rattle.base_numbers.specs.Refusals.{refusal_number};
ghost use Rattle.table_decode.specs.Tables.{table_of};
ghost use Rattle.table_decode.specs.Decoded.{DecodedAs};
ghost use Rattle.resolve_record.specs.Record.{counted as counted_of};
ghost use Rattle.resolve_record.specs.Coded.{Fits};
ghost use Rattle.resolve_library.specs.Feed.{unchanged as unchanged_with, read_from};

use crate::Fed;
use base_numbers::Refusal;
use resolve_record::Carried;
use resolve_run::Resolution;
use resolve_run::answer::{refused, resolved};
use resolve_run::run::Current;
use table_decode::Decoded;

// A refused value changes nothing.
pub(crate) fn unchanged(r: Refusal, carried: Carried) -> Fed
    ensures { result ≡ unchanged_with (refusal_number r) carried }
{
    Fed {
        answer: refused(u8::from(r)),
        carried,
    }
}

// A value that is refused for its own sake is counted.
fn counted(answer: Resolution, carried: Carried) -> Fed
    requires { carried.values < most_values }
    ensures { result ≡ record { answer = answer; carried = counted_of carried } }
{
    Fed {
        answer,
        carried: Carried {
            values: carried.values + 1,
            ..carried
        },
    }
}

// One value more, from a record that fits the table and has room for it.
pub(crate) fn read_from(t: &[u8], d: &Decoded, carried: Carried, v: &[u8]) -> Fed
    requires { DecodedAs t.now d.now × Fits (table_of t.now) carried × (length carried.status ≡ most_categories) × (carried.values < most_values) }
    ensures { result ≡ read_from t.now carried v.now }
{
    let from = Current::Direct {
        state: resolve_record::state(carried),
        tries: 0,
    };
    let e = resolved(t, d, from, v);
    if e.answer.refusal != 0 {
        return counted(e.answer, carried);
    }
    Fed {
        answer: e.answer,
        carried: resolve_record::after(e.last.state(), carried.values + 1),
    }
}
