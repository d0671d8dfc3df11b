// Numbers in decimal.
use std::str;

// The number of at most 32 bits that the digits say; none if it is longer, or they are no digits.
pub fn number(text: &[u8]) -> Option<u32> {
    if text.iter().all(|b| b.is_ascii_digit()) {
        str::from_utf8(text).ok()?.parse().ok()
    } else {
        None
    }
}
