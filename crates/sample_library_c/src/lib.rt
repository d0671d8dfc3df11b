// Sample values for C, in libsample_value.a: a table and a buffer are each a pointer and a length, the seed is lent. It calls the
// library's function of its name. The header is include/sample_value.h.
#![tactic(auto)]

ghost use Rattle.std.specs.Prelude.{◌≡◌, length};
ghost use Rattle.sample_library.specs.Sample.{made_of, buffer_of, answer_of};

use sample_library::Answer;
use sample_seed::Seed;

// sample_made sample_value_make(const uint8_t *table, size_t len, sample_seed *seed, uint8_t *buf, size_t room);
#[unsafe(no_mangle)]
pub extern "C" fn sample_value_make(t: &[u8], seed: &mut Seed, buf: &mut [u8]) -> Answer
    ensures { (result ≡ answer_of (made_of t.now seed.old.x (length buf.old)))
        × (seed.new.x ≡ (made_of t.now seed.old.x (length buf.old)).seed)
        × (buf.new ≡ buffer_of t.now seed.old.x buf.old) }
{
    sample_library::sample_value_make(t, seed, buf)
}
