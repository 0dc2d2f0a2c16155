// A line: the operation's number in two hexadecimal digits, then each word in eight, after a space.
ghost use Rattle.std.specs.Prelude.{◌≡◌, ◌*◌, ◌≤◌, true, false, length, take};
ghost use Rattle.replay.specs.Lines.{digit_of, Spells, Fields, Parses};

// The number of a hexadecimal digit in lower case.
fn digit(c: u8) -> Option<u32>
    ensures { result ≡ digit_of c }
{
    match c {
        b'0'..=b'9' => Some((c - b'0') as u32),
        b'a'..=b'f' => Some((c - b'a') as u32 + 10),
        _ => None,
    }
}

// The number that up to eight digits spell; None where a byte is no digit.
fn number(text: &[u8]) -> Option<u32>
    requires { length text.now ≤ 8 }
    ensures { Spells text.now result }
{
    let mut n: u32 = 0;
    for &byte in text {
        n = n * 16 + digit(byte)?;
    }
    Some(n)
}

// Puts the words of a text, each after a space, at the start of `words`, and answers whether it is such a text.
fn fields(text: &[u8], words: &mut [u32], count: usize) -> bool
    requires { (length text.now ≡ 9 * count) × (count ≤ length words.old) }
    ensures { Fields text.now count (take count words.new) result }
{
    for i in 0..count {
        let at = 9 * i;
        if text[at] != b' ' {
            return false;
        }
        let Some(word) = number(&text[at + 1..at + 9]) else {
            return false;
        };
        words[i] = word;
    }
    true
}

// The number of the line's operation, whose words are put at the start of `words`; None where the line is no case.
pub fn parse(line: &[u8], words: &mut [u32]) -> Option<u32>
    requires { 28 ≤ length words.old }
    ensures { Parses line.now words.new result }
{
    if line.len() < 2 {
        return None;
    }
    let n = number(&line[..2])?;
    // The operations' numbers are those from 1 to 35.
    if n < 1 {
        return None;
    }
    if n > 35 {
        return None;
    }
    let count = crate::operation::count(n);
    if line.len() != 2 + 9 * count {
        return None;
    }
    if fields(&line[2..], words, count) {
        Some(n)
    } else {
        None
    }
}
