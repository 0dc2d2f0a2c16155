// Reads recorded cases, a line each, and says of each operation how many there were and in how many our answer is another, and how many lines were
// no case. Rust's own operators and the reference say what is recorded; some lines are wrong or no case, so that the counts are not all zeros.
#![tactic(auto)]

mod answer;
mod line;
mod operation;
mod outcome;
mod tally;
mod words;

ghost use Rattle.std.specs.Prelude.{◌≡◌, ◌≤◌, length, IfSome};

const STDIN: i32 = 0;

const STDOUT: i32 = 1;

// Reads once; None at the end of the input. The line that was left without its end is the first bytes of `line`, `at` before and as many as the answer says after.
fn turn(line: &mut [u8], at: usize, cases: &mut [u64], misses: &mut [u64]) -> Option<usize>
    requires { (length line.old ≡ 256) × (at ≤ 256) × (36 ≤ length cases.old) × (36 ≤ length misses.old) }
    ensures { IfSome result (λ left. left ≤ 256) }
{
    let mut buf = io::large_buffer();
    let n = io::read_full(STDIN, &mut buf);
    if n == 0 {
        return None;
    }
    Some(tally::feed(&buf[..n], line, at, cases, misses))
}

// A proved loop has to end, and nothing says that the input does. So the loop has a number of turns that no run uses up.
fn replay(cases: &mut [u64], misses: &mut [u64])
    requires { (36 ≤ length cases.old) × (36 ≤ length misses.old) }
{
    let mut line = [0u8; 256];
    let mut at: usize = 0;
    for _ in 0..u64::MAX {
        let Some(left) = turn(&mut line, at, cases, misses) else {
            break;
        };
        at = left;
    }
    tally::finish(at, cases);
}

// Printed by io's functions: std's `println!` takes the runtime, a handle that this program's `main` does not have.
fn print_operation(number: usize, cases: u64, misses: u64) {
    io::print_hex(STDOUT, number as u64, 2);
    io::write_all(STDOUT, b" ");
    io::print_decimal(STDOUT, cases);
    io::write_all(STDOUT, b" ");
    io::print_decimal(STDOUT, misses);
    io::write_all(STDOUT, b"\n");
}

fn print_total(cases: u64, misses: u64, bad: u64) {
    io::write_all(STDOUT, b"lines ");
    io::print_decimal(STDOUT, cases);
    io::write_all(STDOUT, b" mismatches ");
    io::print_decimal(STDOUT, misses);
    io::write_all(STDOUT, b" bad ");
    io::print_decimal(STDOUT, bad);
    io::write_all(STDOUT, b"\n");
}

fn report(cases: &[u64], misses: &[u64])
    requires { (36 ≤ length cases.now) × (36 ≤ length misses.now) }
{
    for i in 1..36 {
        print_operation(i, cases[i], misses[i]);
    }
    print_total(tally::total(cases), tally::total(misses), cases[0]);
}

fn main() {
    let mut cases = [0u64; 36];
    let mut misses = [0u64; 36];
    replay(&mut cases, &mut misses);
    report(&cases, &misses);
}
