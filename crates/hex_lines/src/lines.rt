// The lines of a dump: a name, a blank and bytes in hexadecimal. A name is lent with its blank.
ghost use Rattle.std.specs.Prelude.{◌+◌, ◌*◌, ◌≤◌, length};

use crate::hex::{Number, Spelled, put_hex, put_numbers, put_spelled};
use io::write_all;

fn write_bytes(to: i32, bytes: &[u8])
    requires { length bytes.now ≤ 16384 }
{
    let mut text = [0u8; 32768];
    put_hex(&mut text, bytes);
    let end = 2 * bytes.len();
    write_all(to, &text[..end]);
}

fn write_numbers<T: Spelled>(to: i32, numbers: &[T])
    requires { T.SIZE * length numbers.now ≤ 16384 }
{
    let mut bytes = [0u8; 16384];
    put_spelled(&mut bytes, numbers);
    let end = T::SIZE * numbers.len();
    write_bytes(to, &bytes[..end]);
}

// The first `count` words from `at` on, within a line.
pub fn words_part(to: i32, words: &[u32], at: usize, count: usize)
    requires { (at + count ≤ length words.now) × (count ≤ 4096) }
{
    let end = at + count;
    write_numbers(to, &words[at..end]);
}

// The line of the first `count` bytes.
pub fn bytes_line(to: i32, name: &[u8], bytes: &[u8], count: usize)
    requires { (count ≤ length bytes.now) × (count ≤ 16384) }
{
    write_all(to, name);
    write_bytes(to, &bytes[..count]);
    write_all(to, b"\n");
}

// The line of the first `count` numbers, as the rule spells them.
pub fn spelled_line<T: Spelled>(to: i32, name: &[u8], numbers: &[T], count: usize)
    requires { (count ≤ length numbers.now) × (T.SIZE * count ≤ 16384) }
{
    write_all(to, name);
    write_numbers(to, &numbers[..count]);
    write_all(to, b"\n");
}

// The line of the first `count` numbers of any kind.
pub fn numbers_line<T: Number>(to: i32, name: &[u8], numbers: &[T], count: usize)
    requires { (count ≤ length numbers.now) × (T.SIZE * count ≤ 16384) }
{
    let mut bytes = [0u8; 16384];
    put_numbers(&mut bytes, &numbers[..count]);
    bytes_line(to, name, &bytes, T::SIZE * count);
}

pub fn refused_line(to: i32, number: u64) {
    write_all(to, b"refused ");
    io::print_decimal(to, number);
    write_all(to, b"\n");
}
