// The resolvers as C asks them: the crate resolve_library_c exports each of these under its name. A carried record is 10 bytes.
ghost use Rattle.std.specs.Prelude.{◌≡◌};
ghost use Rattle.resolve_library.specs.Resolve.{plain_with, machine_of};
ghost use Rattle.resolve_record.specs.Record.{carried_in, carried_bytes};
ghost use Rattle.resolve_library.specs.Feed.{feed_of};
ghost use Rattle.resolve_early.specs.Early.{early_of};
ghost use Rattle.resolve_available.specs.Available.{available_of};
ghost use Rattle.resolve_pair.specs.Pair.{pair_of};
ghost use Rattle.resolve_small.specs.Resolve.{resolved_small};

use crate::PlainResolution;
use resolve_early::Early;
use resolve_pair::Pair;
use resolve_run::Resolution;

// By the table alone.
pub fn resolve_plain(t: &[u8], v: &[u8]) -> PlainResolution
    ensures { result ≡ plain_with t.now v.now }
{
    crate::plain(t, v)
}

// By the table's machine, as it is stored.
pub fn resolve_machine(t: &[u8], image: &[u8], v: &[u8]) -> Resolution
    ensures { result ≡ machine_of t.now image.now v.now }
{
    crate::machine(t, image, v)
}

// By a small image, which only this function reads.
pub fn resolve_small(t: &[u8], small: &[u8], v: &[u8]) -> Resolution
    ensures { result ≡ resolved_small t.now small.now v.now }
{
    resolve_small::resolve(t, small, v)
}

// One value of a message that has several; the record is all zero before the first.
pub fn resolve_feed(t: &[u8], b: &mut [u8; 10], v: &[u8]) -> Resolution
    ensures value { result ≡ (feed_of t.now (carried_in b.old) v.now).answer }
    ensures b_after { b.new ≡ carried_bytes (feed_of t.now (carried_in b.old) v.now).carried }
{
    let f = crate::feed(t, resolve_record::load(b), v);
    resolve_record::store(b, f.carried);
    f.answer
}

// The signal as soon as no further URN could change it, and how many entries that took.
pub fn resolve_early(t: &[u8], v: &[u8]) -> Early
    ensures { result ≡ early_of t.now v.now }
{
    resolve_early::resolve(t, v)
}

// The signal among those that can be given just now, bit s for signal s; signal 0 always can.
pub fn resolve_available(t: &[u8], set: u32, v: &[u8]) -> Resolution
    ensures { result ≡ available_of t.now set v.now }
{
    resolve_available::resolve(t, set, v)
}

// The signal of a ring table and that of a lamp table, which have no category in common.
pub fn resolve_pair(ring: &[u8], lamp: &[u8], v: &[u8]) -> Pair
    ensures { result ≡ pair_of ring.now lamp.now v.now }
{
    resolve_pair::resolve(ring, lamp, v)
}
