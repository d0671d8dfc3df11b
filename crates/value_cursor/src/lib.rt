// The cursor over the value of a SIP Alert-Info field (RFC 3261, section 20.4).
//
// In: any bytes, and a position in them. Out: what stands there, which is the value's last entry, an entry with the position of
// the next one, or no entry. Or the whole value in one pass: whether it fits, how many entries it has, and where one of them
// lies. An entry's URI is told by its place; nothing is copied.
//
//   classes.rt      what each of the 256 bytes may be part of
//   cursor.rt       a position in the value, and passing white space, a token or a quoted string
//   alert_param.rt  passing a parameter and an entry, which RFC 3261 calls alert-param
//   pass.rt         a pass over the whole value, from entry to entry
#![tactic(auto)]

mod alert_param;
mod classes;
mod cursor;
mod pass;

pub use alert_param::{Found, Span};
pub use cursor::Cursor;
pub use pass::{Scan, scan_value};
