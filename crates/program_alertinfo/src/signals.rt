// A set of signals as a person writes it: their numbers, from 0 to 31, with commas between.
use crate::numbers::number;

// The set, bit s for signal s; none if the text is not of that form.
pub fn read(text: &[u8]) -> Option<u32> {
    let mut set = 0u32;
    for part in text.split(|b| *b == b',') {
        match number(part) {
            Some(s) if s < 32 => set |= 1 << s,
            _ => return None,
        }
    }
    Some(set)
}
