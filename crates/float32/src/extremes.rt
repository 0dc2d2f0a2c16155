// The lesser and the greater of two: the source's, where a NaN or a tie keeps the second, and Rust's own, which skip a NaN.
ghost use Rattle.std.specs.Prelude.{◌≡◌};
ghost use Rattle.float32.specs.Extremes.{vmin_of, vmax_of, vmin_word, vmax_word, min_number_of, max_number_of};

pub fn vmin(a: f32, b: f32) -> f32
    ensures { result ≡ vmin_of a b }
{
    if a < b { a } else { b }
}

pub fn vmax(a: f32, b: f32) -> f32
    ensures { result ≡ vmax_of a b }
{
    if a > b { a } else { b }
}

// `vmin` of the words' floats. The word is copied, so that a NaN keeps its bits.
pub fn vmin_word(a: u32, b: u32) -> u32
    ensures { result ≡ vmin_word a b }
{
    if crate::words::value(a) < crate::words::value(b) {
        a
    } else {
        b
    }
}

// `vmax` of the words' floats. The word is copied, so that a NaN keeps its bits.
pub fn vmax_word(a: u32, b: u32) -> u32
    ensures { result ≡ vmax_word a b }
{
    if crate::words::value(a) > crate::words::value(b) {
        a
    } else {
        b
    }
}

// Rust's `f32::min`: the number where the other is a NaN. std's own leaves open which of 0 and -0 it answers, and rule F5 says which.
pub fn min_number(a: f32, b: f32) -> f32
    ensures { result ≡ min_number_of a b }
{
    if a != a {
        b
    } else if b < a {
        b
    } else {
        a
    }
}

// Rust's `f32::max`: the number where the other is a NaN. std's own leaves open which of 0 and -0 it answers, and rule F5 says which.
pub fn max_number(a: f32, b: f32) -> f32
    ensures { result ≡ max_number_of a b }
{
    if a != a {
        b
    } else if b > a {
        b
    } else {
        a
    }
}
