// Smaller machines for C, in libsmall_machine.a: a table, an image, a proposal and a buffer are each a pointer and a length. Each
// calls the library's function of its name. The header is include/small_machine.h.
#![tactic(auto)]

ghost use Rattle.std.specs.Prelude.{◌≡◌, length};
ghost use Rattle.small_library.specs.Smaller.{classes_refusal, small_from, small_buffer, proposed_from, proposed_buffer};

use base_bytes::Built;
use small_library::c;

// uint8_t machine_classes_check(const uint8_t *table, size_t len, const uint8_t *image, size_t image_len,
//                               const uint8_t *classes, size_t classes_len);
#[unsafe(no_mangle)]
pub extern "C" fn machine_classes_check(table: &[u8], image: &[u8], classes: &[u8]) -> u8
    ensures { result ≡ classes_refusal table.now image.now classes.now }
{
    c::machine_classes_check(table, image, classes)
}

// machine_built machine_small_write(const uint8_t *table, size_t len, const uint8_t *image, size_t image_len,
//                                   const uint8_t *classes, size_t classes_len, uint8_t *buf, size_t room);
#[unsafe(no_mangle)]
pub extern "C" fn machine_small_write(
    table: &[u8],
    image: &[u8],
    classes: &[u8],
    buf: &mut [u8],
) -> Built
    ensures value { result ≡ small_from table.now image.now classes.now (length buf.old) }
    ensures buf_after { buf.new ≡ small_buffer table.now image.now classes.now (length buf.old) }
{
    c::machine_small_write(table, image, classes, buf)
}

// machine_built machine_propose(const uint8_t *table, size_t len, const uint8_t *image, size_t image_len,
//                               uint8_t *buf, size_t room);
#[unsafe(no_mangle)]
pub extern "C" fn machine_propose(table: &[u8], image: &[u8], buf: &mut [u8]) -> Built
    ensures value { result ≡ proposed_from table.now image.now (length buf.old) }
    ensures buf_after { buf.new ≡ proposed_buffer table.now image.now (length buf.old) }
{
    c::machine_propose(table, image, buf)
}
