// The same as C asks it: the crate machine_library_c exports each of these under its name.
ghost use Rattle.std.specs.Prelude.{◌≡◌, length};
ghost use Rattle.table_decode.specs.Tables.{table_refusal};
ghost use Rattle.machine_library.specs.Built.{built_from, buffer_from, check_from};
ghost use Rattle.machine_library.specs.Matching.{match_of};

use crate::matching::Match;
use base_bytes::Built;

// 0 if the table is well-formed, else the number that refuses it.
pub fn signal_table_refusal(table: &[u8]) -> u8
    ensures { result ≡ table_refusal table.now }
{
    crate::refusal(table)
}

// The table's machine, written to the buffer.
pub fn machine_build(table: &[u8], buf: &mut [u8]) -> Built
    ensures value { result ≡ built_from table.now (length buf.old) }
    ensures buf_after { buf.new ≡ buffer_from table.now (length buf.old) }
{
    crate::build(table, buf)
}

// 0 if the image is a right machine of the table, else the number of what is wrong.
pub fn machine_check(table: &[u8], image: &[u8]) -> u8
    ensures { result ≡ check_from table.now image.now }
{
    crate::check(table, image)
}

// What a URI is to the table.
pub fn signal_table_match(table: &[u8], uri: &[u8]) -> Match
    ensures { result ≡ match_of table.now uri.now }
{
    crate::match_urn(table, uri)
}
