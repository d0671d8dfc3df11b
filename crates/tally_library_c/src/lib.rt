// The monthly count for C, in libtally.a: a table, the records, the counts and a value are each a pointer and a length. It calls
// the library's function of its name. The header is include/tally.h.
#![tactic(auto)]

ghost use Rattle.tally_library.specs.Tally.{Tallied};

use resolve_run::Resolution;
use tally_library::Tally;

// alert_resolution tally_value(const uint8_t *table, size_t len, alert_tally *records, size_t n,
//                              uint32_t *refusals, size_t m, const uint8_t *value, size_t value_len);
#[unsafe(no_mangle)]
pub extern "C" fn tally_value(
    t: &[u8],
    records: &mut [Tally],
    refusals: &mut [u32],
    v: &[u8],
) -> Resolution
    ensures { Tallied t.now records.old refusals.old v.now result records.new refusals.new }
{
    tally_library::tally_value(t, records, refusals, v)
}
