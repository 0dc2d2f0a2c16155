// Extremes of words that are no NaN's, by their floats: without a test for one, they take a fifth of the time.
ghost use Rattle.std.specs.Prelude.{true, ◌≡◌};
ghost use Rattle.entries.specs.Plain.{Number};
ghost use Rattle.float32.specs.Extremes.{vmin_word, vmax_word};
ghost use Rattle.polygon_boxes.specs.Numbers.{Numbers};

use float32::extremes::{vmax, vmin};
use math::words3::Words3;

fn is_number(word: u32) -> bool
    ensures { result ≡ true → Number word }
{
    word % 0x8000_0000 <= 0x7f80_0000
}

pub fn are_numbers(w: Words3) -> bool
    ensures { result ≡ true → Numbers w }
{
    is_number(w.x) & is_number(w.y) & is_number(w.z)
}

pub fn all_three(a: Words3, b: Words3, c: Words3) -> bool
    ensures { result ≡ true → Numbers a × Numbers b × Numbers c }
{
    are_numbers(a) & are_numbers(b) & are_numbers(c)
}

pub fn all_four(a: Words3, b: Words3, c: Words3, d: Words3) -> bool
    ensures { result ≡ true → Numbers a × Numbers b × Numbers c × Numbers d }
{
    all_three(a, b, c) & are_numbers(d)
}

fn lesser(a: u32, b: u32) -> u32
    requires { Number a × Number b }
    ensures { (result ≡ vmin_word a b) × Number result }
{
    f32::to_bits(vmin(f32::from_bits(a), f32::from_bits(b)))
}

fn greater(a: u32, b: u32) -> u32
    requires { Number a × Number b }
    ensures { (result ≡ vmax_word a b) × Number result }
{
    f32::to_bits(vmax(f32::from_bits(a), f32::from_bits(b)))
}

pub fn low3(a: u32, b: u32, c: u32) -> u32
    requires { Number a × Number b × Number c }
    ensures { result ≡ vmin_word (vmin_word a b) c }
{
    lesser(lesser(a, b), c)
}

pub fn high3(a: u32, b: u32, c: u32) -> u32
    requires { Number a × Number b × Number c }
    ensures { result ≡ vmax_word (vmax_word a b) c }
{
    greater(greater(a, b), c)
}

pub fn low4(a: u32, b: u32, c: u32, d: u32) -> u32
    requires { Number a × Number b × Number c × Number d }
    ensures { result ≡ vmin_word (vmin_word (vmin_word a b) c) d }
{
    lesser(lesser(lesser(a, b), c), d)
}

pub fn high4(a: u32, b: u32, c: u32, d: u32) -> u32
    requires { Number a × Number b × Number c × Number d }
    ensures { result ≡ vmax_word (vmax_word (vmax_word a b) c) d }
{
    greater(greater(greater(a, b), c), d)
}
