// Reads lines of test cases: words with single spaces between, bytes in hex, numbers in decimal.
//
// In: a file's bytes. Out: its lines' words, bytes and numbers.
#![tactic(auto)]

ghost use Rattle.std.specs.Prelude.{◌≡◌, ◌≤◌, ◌<◌, ◌/◌, min, length, get_or, take};
ghost use Rattle.base_lists.specs.Lists.{tabulate, over};
ghost use Rattle.base_lists.specs.Cuts.{up_to, past};
ghost use Rattle.program_lines.specs.Lines.{part_of};
ghost use Rattle.program_lines.specs.Numbers.{digit_of, more_digits, number_of, hex_digit, hex_pair};

// The first byte, 0 if there is none.
pub fn first(s: &[u8]) -> u8
    ensures { result ≡ get_or s.now 0 0 }
{
    s.first().copied().unwrap_or(0)
}

// The bytes before the first `mark`; all if there is none.
#[tactic(auto, unfolding(crate::specs::Lines::part_of))]
pub fn before(s: &[u8], mark: u8) -> &[u8]
    ensures { result.now ≡ up_to mark s.now }
{
    part(s, mark, 0)
}

// The bytes after the first `mark`; none if there is none.
pub fn after(s: &[u8], mark: u8) -> &[u8]
    ensures { result.now ≡ past mark s.now }
{
    let end = before(s, mark).len();
    if end < s.len() { &s[end + 1..] } else { &[] }
}

// Part k, counted from 0, where parts end at `mark`; empty if there is none.
pub fn part(s: &[u8], mark: u8, k: usize) -> &[u8]
    ensures { result.now ≡ part_of mark k s.now }
{
    s.split(|b| *b == mark).nth(k).unwrap_or(&[])
}

// Word k of a line, counted from 0; empty if there is none.
pub fn word(line: &[u8], k: usize) -> &[u8]
    ensures { result.now ≡ part_of 32 k line.now }
{
    part(line, b' ', k)
}

// What a decimal digit stands for; 0 for any other byte.
#[tactic(auto, unfolding(crate::specs::Numbers::digit_of))]
fn digit(b: u8) -> usize
    ensures value { result ≡ digit_of b }
    ensures upper_bound { result < 10 }
{
    match b {
        b'0'..=b'9' => usize::from(b - b'0'),
        _ => 0,
    }
}

// One more digit after n, unless there are nine.
fn more_digits(n: usize, b: u8) -> usize
    ensures { result ≡ more_digits n b }
{
    if n < 100000000 { n * 10 + digit(b) } else { n }
}

// The number that decimal digits say, of at most nine digits: further ones are left out.
pub fn number(s: &[u8]) -> usize
    ensures { result ≡ number_of 0 s.now }
{
    s.iter().fold(0, |n, b| more_digits(n, *b))
}

// What a hex digit stands for, of small letters; 0 for any other byte.
#[tactic(auto, unfolding(crate::specs::Numbers::hex_digit))]
fn hex_digit(b: u8) -> u8
    ensures value { result ≡ hex_digit b }
    ensures upper_bound { result < 16 }
{
    match b {
        b'0'..=b'9' => b - b'0',
        b'a'..=b'f' => b - b'a' + 10,
        _ => 0,
    }
}

// Puts the bytes that hex says at the front of `out`, as many as there are whole pairs and as `out` holds, and answers
// their number. A lone `-` says no bytes.
pub fn decode(text: &[u8], out: &mut [u8]) -> usize
    ensures value { result ≡ min (length text.now / 2) (length out.old) }
    ensures out_after { out.new ≡ over (tabulate (hex_pair text.now) result) out.old }
    ensures upper_bound { (result ≤ length out.new) × (result ≡ length (take result out.new)) }
{
    let n = (text.len() / 2).min(out.len());
    for k in 0..n {
        let high = hex_digit(text[2 * k]);
        let low = hex_digit(text[2 * k + 1]);
        out[k] = high * 16 + low;
    }
    n
}
