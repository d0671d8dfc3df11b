// The same as C asks it: the crate small_library_c exports each of these under its name.
ghost use Rattle.std.specs.Prelude.{◌≡◌, length};
ghost use Rattle.small_library.specs.Smaller.{classes_refusal, small_from, small_buffer, proposed_from, proposed_buffer};

use base_bytes::Built;

// 0 if the classes fit the image's machine, else the number of what is wrong.
pub fn machine_classes_check(table: &[u8], image: &[u8], classes: &[u8]) -> u8
    ensures { result ≡ classes_refusal table.now image.now classes.now }
{
    crate::check(table, image, classes)
}

// The small image of the classes, written to the buffer.
pub fn machine_small_write(table: &[u8], image: &[u8], classes: &[u8], buf: &mut [u8]) -> Built
    ensures value { result ≡ small_from table.now image.now classes.now (length buf.old) }
    ensures buf_after { buf.new ≡ small_buffer table.now image.now classes.now (length buf.old) }
{
    crate::write(table, image, classes, buf)
}

// The classes of the smallest machine, written to the buffer.
pub fn machine_propose(table: &[u8], image: &[u8], buf: &mut [u8]) -> Built
    ensures value { result ≡ proposed_from table.now image.now (length buf.old) }
    ensures buf_after { buf.new ≡ proposed_buffer table.now image.now (length buf.old) }
{
    crate::propose(table, image, buf)
}
