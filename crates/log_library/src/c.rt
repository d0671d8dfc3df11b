// The same as C asks it: the crate log_library_c exports this under its name.
ghost use Rattle.std.specs.Prelude.{◌≡◌};
ghost use Rattle.log_library.specs.Verdict.{verdict_of};

use crate::Verdict;

// The verdict on a log by the table t.
pub fn call_log_check(t: &[u8], log: &[u8]) -> Verdict
    ensures { result ≡ verdict_of t.now log.now }
{
    crate::check(t, log)
}
