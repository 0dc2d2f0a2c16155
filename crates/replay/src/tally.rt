// Counts of cases and of mismatches, by the operation's number. Place 0 counts the lines that are no case.
ghost use Rattle.std.specs.Prelude.{◌≡◌, ◌<◌, ◌≤◌, length, take};
ghost use Rattle.replay.specs.Tallies.{one_more, bumped, place_of, cases_after, misses_after, state_of, After, Fed, finished, total_from};

use crate::outcome::Outcome;

// One more, where that is a u64.
fn one_more(n: u64) -> u64
    ensures { result ≡ one_more n }
{
    n.saturating_add(1)
}

fn bump(counts: &mut [u64], place: usize)
    requires { place < length counts.old }
    ensures { counts.new ≡ bumped counts.old place }
{
    counts[place] = one_more(counts[place]);
}

fn count(o: Outcome, cases: &mut [u64], misses: &mut [u64])
    requires { (place_of o < length cases.old) × (place_of o < length misses.old) }
    ensures cases_after { cases.new ≡ cases_after o cases.old }
    ensures misses_after { misses.new ≡ misses_after o misses.old }
{
    match o {
        Outcome::Match(n) => bump(cases, n as usize),
        Outcome::Mismatch(n) => {
            bump(cases, n as usize);
            bump(misses, n as usize);
        }
        Outcome::Bad => bump(cases, 0),
    }
}

// Takes one byte. The line so far is the first `at` bytes of `line`, and the answer is how many there are then.
fn step(line: &mut [u8], at: usize, byte: u8, cases: &mut [u64], misses: &mut [u64]) -> usize
    requires { (length line.old ≡ 256) × (at ≤ 256) × (36 ≤ length cases.old) × (36 ≤ length misses.old) }
    ensures upper_bound { result ≤ 256 }
    ensures after { After (state_of (take at line.old) cases.old misses.old) byte
        (state_of (take result line.new) cases.new misses.new) }
{
    if byte == b'\n' {
        count(crate::outcome::of(&line[..at]), cases, misses);
        return 0;
    }
    if at < 256 {
        line[at] = byte;
        return at + 1;
    }
    at
}

// Takes a text, byte after byte.
pub fn feed(text: &[u8], line: &mut [u8], at: usize, cases: &mut [u64], misses: &mut [u64]) -> usize
    requires { (length line.old ≡ 256) × (at ≤ 256) × (36 ≤ length cases.old) × (36 ≤ length misses.old) }
    ensures upper_bound { result ≤ 256 }
    ensures fed { Fed text.now (state_of (take at line.old) cases.old misses.old)
        (state_of (take result line.new) cases.new misses.new) }
{
    let mut length = at;
    for &byte in text {
        length = step(line, length, byte, cases, misses);
    }
    length
}

// A line that the input leaves without its end is no case.
pub fn finish(at: usize, cases: &mut [u64])
    requires { 36 ≤ length cases.old }
    ensures { cases.new ≡ finished at cases.old }
{
    if at > 0 {
        bump(cases, 0);
    }
}

// The sum of all places, as a u64.
pub fn total(counts: &[u64]) -> u64
    ensures { result ≡ total_from 0 counts.now }
{
    let mut sum: u64 = 0;
    for &count in counts {
        sum = sum.wrapping_add(count);
    }
    sum
}
