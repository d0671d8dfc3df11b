// The resolvers for C, in libresolver.a: a table, an image and a value are each a pointer and a length, a carried record is 10
// bytes. Each calls the library's function of its name. The header is include/resolver.h.
#![tactic(auto)]

ghost use Rattle.std.specs.Prelude.{◌≡◌};
ghost use Rattle.resolve_library.specs.Resolve.{plain_with, machine_of};
ghost use Rattle.resolve_record.specs.Record.{carried_in, carried_bytes};
ghost use Rattle.resolve_library.specs.Feed.{feed_of};
ghost use Rattle.resolve_early.specs.Early.{early_of};
ghost use Rattle.resolve_available.specs.Available.{available_of};
ghost use Rattle.resolve_pair.specs.Pair.{pair_of};
ghost use Rattle.resolve_small.specs.Resolve.{resolved_small};

use resolve_early::Early;
use resolve_library::{PlainResolution, c};
use resolve_pair::Pair;
use resolve_run::Resolution;

// typedef struct { uint8_t refusal, signal, used, skipped; } alert_resolution;
// typedef struct { uint8_t refusal, signal, used, skipped; uint16_t tries; } alert_plain;
// alert_plain resolve_plain(const uint8_t *table, size_t len, const uint8_t *value, size_t value_len);
#[unsafe(no_mangle)]
pub extern "C" fn resolve_plain(t: &[u8], v: &[u8]) -> PlainResolution
    ensures { result ≡ plain_with t.now v.now }
{
    c::resolve_plain(t, v)
}

// alert_resolution resolve_machine(const uint8_t *table, size_t len, const uint8_t *image, size_t image_len,
//                                  const uint8_t *value, size_t value_len);
#[unsafe(no_mangle)]
pub extern "C" fn resolve_machine(t: &[u8], image: &[u8], v: &[u8]) -> Resolution
    ensures { result ≡ machine_of t.now image.now v.now }
{
    c::resolve_machine(t, image, v)
}

// alert_resolution resolve_small(const uint8_t *table, size_t len, const uint8_t *small, size_t small_len,
//                                const uint8_t *value, size_t value_len);
// By a small image, which only this function reads.
#[unsafe(no_mangle)]
pub extern "C" fn resolve_small(t: &[u8], small: &[u8], v: &[u8]) -> Resolution
    ensures { result ≡ resolved_small t.now small.now v.now }
{
    c::resolve_small(t, small, v)
}

// typedef struct { uint8_t signal, status[8], values; } alert_record;
// alert_resolution resolve_feed(const uint8_t *table, size_t len, alert_record *record, const uint8_t *value, size_t value_len);
// One value of a message that has several; the record is all zero before the first.
#[unsafe(no_mangle)]
pub extern "C" fn resolve_feed(t: &[u8], b: &mut [u8; 10], v: &[u8]) -> Resolution
    ensures value { result ≡ (feed_of t.now (carried_in b.old) v.now).answer }
    ensures b_after { b.new ≡ carried_bytes (feed_of t.now (carried_in b.old) v.now).carried }
{
    c::resolve_feed(t, b, v)
}

// typedef struct { uint8_t refusal, signal, entries; } alert_early;
// alert_early resolve_early(const uint8_t *table, size_t len, const uint8_t *value, size_t value_len);
// The signal as soon as no further URN could change it, and how many entries that took.
#[unsafe(no_mangle)]
pub extern "C" fn resolve_early(t: &[u8], v: &[u8]) -> Early
    ensures { result ≡ early_of t.now v.now }
{
    c::resolve_early(t, v)
}

// alert_resolution resolve_available(const uint8_t *table, size_t len, uint32_t available, const uint8_t *value, size_t value_len);
// The signal among those that can be given just now, bit s for signal s; signal 0 always can.
#[unsafe(no_mangle)]
pub extern "C" fn resolve_available(t: &[u8], set: u32, v: &[u8]) -> Resolution
    ensures { result ≡ available_of t.now set v.now }
{
    c::resolve_available(t, set, v)
}

// typedef struct { uint8_t refusal, ring, lamp; } alert_pair;
// alert_pair resolve_pair(const uint8_t *ring, size_t ring_len, const uint8_t *lamp, size_t lamp_len,
//                         const uint8_t *value, size_t value_len);
// The signal of a ring table and that of a lamp table, which have no category in common.
#[unsafe(no_mangle)]
pub extern "C" fn resolve_pair(ring: &[u8], lamp: &[u8], v: &[u8]) -> Pair
    ensures { result ≡ pair_of ring.now lamp.now v.now }
{
    c::resolve_pair(ring, lamp, v)
}
