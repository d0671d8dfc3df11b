// Numbers of 32 bits.

// One more digit of a number up to 4,294,967,295.
fn more(n: u64, b: u8) -> u64 {
    match b {
        b'0'..=b'9' if n <= 429496729 => n * 10 + u64::from(b - b'0'),
        _ => n,
    }
}

pub fn number(s: &[u8]) -> u32 {
    let mut n = 0;
    for b in s {
        n = more(n, *b);
    }
    u32::try_from(n).unwrap_or(0)
}
