// Numbers cut to one byte or two.
ghost use Rattle.std.specs.Prelude.{◌≡◌, ◌%◌};

// A number in its last byte.
pub fn small(x: usize) -> u8
    ensures { result ≡ x % 256 }
{
    (x % 256) as u8
}

// A number in its last two bytes.
pub fn short(x: usize) -> u16
    ensures { result ≡ x % 65536 }
{
    (x % 65536) as u16
}
