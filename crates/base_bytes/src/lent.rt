// Lent bytes: others copied over them.
ghost use Rattle.std.specs.Prelude.{◌≡◌};
ghost use Rattle.base_lists.specs.Lists.{laid};

// The bytes over the front of the part, as far as it goes. One by one: the library's copy makes the archives for C need `memmove`.
pub fn copy(bytes: &[u8], part: &mut [u8])
    ensures { part.new ≡ laid bytes.now part.old }
{
    for i in 0..bytes.len().min(part.len()) {
        part[i] = bytes[i];
    }
}
