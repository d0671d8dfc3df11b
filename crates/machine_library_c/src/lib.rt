// Signal tables and their machines for C, in libsignal_table.a: a table, an image, a URI and a buffer are each a pointer and a
// length. Each calls the library's function of its name. The header is include/signal_table.h.
#![tactic(auto)]

ghost use Rattle.std.specs.Prelude.{◌≡◌, length};
ghost use Rattle.table_decode.specs.Tables.{table_refusal};
ghost use Rattle.machine_library.specs.Built.{built_from, buffer_from, check_from};
ghost use Rattle.machine_library.specs.Matching.{match_of};

use base_bytes::Built;
use machine_library::{Match, c};

// uint8_t signal_table_refusal(const uint8_t *table, size_t len);
#[unsafe(no_mangle)]
pub extern "C" fn signal_table_refusal(table: &[u8]) -> u8
    ensures { result ≡ table_refusal table.now }
{
    c::signal_table_refusal(table)
}

// typedef struct { uint8_t refusal; size_t len; } machine_built;
// machine_built machine_build(const uint8_t *table, size_t len, uint8_t *buf, size_t room);
#[unsafe(no_mangle)]
pub extern "C" fn machine_build(table: &[u8], buf: &mut [u8]) -> Built
    ensures value { result ≡ built_from table.now (length buf.old) }
    ensures buf_after { buf.new ≡ buffer_from table.now (length buf.old) }
{
    c::machine_build(table, buf)
}

// uint8_t machine_check(const uint8_t *table, size_t len, const uint8_t *image, size_t image_len);
#[unsafe(no_mangle)]
pub extern "C" fn machine_check(table: &[u8], image: &[u8]) -> u8
    ensures { result ≡ check_from table.now image.now }
{
    c::machine_check(table, image)
}

// typedef struct { uint8_t refusal, used, category, node, whole; uint32_t compared; } alert_match;
// alert_match signal_table_match(const uint8_t *table, size_t len, const uint8_t *uri, size_t uri_len);
#[unsafe(no_mangle)]
pub extern "C" fn signal_table_match(table: &[u8], uri: &[u8]) -> Match
    ensures { result ≡ match_of table.now uri.now }
{
    c::signal_table_match(table, uri)
}
