// Logs of calls for C, in libcall_log.a: a table and a log are each a pointer and a length. It calls the library's function of its
// name. The header is include/call_log.h.
#![tactic(auto)]

ghost use Rattle.std.specs.Prelude.{◌≡◌};
ghost use Rattle.log_library.specs.Verdict.{verdict_of};

use log_library::{Verdict, c};

// typedef struct { uint8_t refusal, agrees; uint16_t call; uint8_t signal, used, skipped; } call_log_verdict;
// call_log_verdict call_log_check(const uint8_t *table, size_t len, const uint8_t *log, size_t log_len);
#[unsafe(no_mangle)]
pub extern "C" fn call_log_check(t: &[u8], log: &[u8]) -> Verdict
    ensures { result ≡ verdict_of t.now log.now }
{
    c::call_log_check(t, log)
}
