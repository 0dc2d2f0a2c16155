// Floats to integers, as Rust's casts have them.
ghost use Rattle.std.specs.Prelude.{◌≡◌, ◌<◌};
ghost use Rattle.float32.specs.CastSteps.{cut_size, number_word};
ghost use Rattle.float32.specs.Casts.{cast_i32, low16, low16bits, signed16, short_of, truncated_of, vertex_of};

fn number_word(x: f32) -> u32
    ensures { result ≡ number_word x }
{
    // `to_bits` is undefined at a NaN.
    if x != x { 0 } else { f32::to_bits(x) }
}

// Without a branch: a shift by more places than there are digits leaves nothing.
fn cut_size(pattern: u32) -> u32
    ensures { result ≡ cut_size pattern }
{
    // The digits with the leading one are the number itself where the exponent's field is 158.
    let digits = ((0x0080_0000 + pattern % 0x0080_0000) as u64) * 256;
    let places = 158 - (pattern / 0x0080_0000).min(158);
    ((digits >> places.min(32)) as u32).min(0x8000_0000)
}

// Rust's `x as i32`: toward zero, to the nearest end of the range where it is out of it, and 0 for a NaN.
pub fn to_i32(x: f32) -> i32
    ensures { result ≡ cast_i32 x }
{
    let word = number_word(x);
    let size = cut_size(word % 0x8000_0000);
    if word < 0x8000_0000 {
        size.min(2147483647) as i32
    } else {
        -(size as i64) as i32
    }
}

// The low 16 bits of n, in two's complement.
pub fn low_bits(n: i32) -> u32
    ensures { result ≡ low16bits n }
{
    n.cast_unsigned() % 65536
}

// The number that 16 bits stand for, in two's complement.
fn of_bits(b: u32) -> i16
    requires { b < 65536 }
    ensures { result ≡ signed16 b }
{
    (b as u16).cast_signed()
}

// The low 16 bits of a saturated i32, as a signed number.
pub fn wrap_i16(n: i32) -> i16
    ensures { result ≡ low16 n }
{
    of_bits(low_bits(n))
}

// A node value: `x as i32 as i16`, which wraps and does not clamp.
pub fn to_short(x: f32) -> i16
    ensures { result ≡ short_of x }
{
    wrap_i16(to_i32(x))
}

// A query's corner: NaN to 0, clamped to 32767 either way, then truncated.
pub fn truncated(x: f32) -> i16
    ensures { result ≡ truncated_of x }
{
    let word = number_word(x);
    let size = cut_size(word % 0x8000_0000).min(32767) as i16;
    if word < 0x8000_0000 { size } else { -size }
}

// A vertex value, as vertices are stored: a rule of its own, which C calls by this name, although it rounds as a query's corner does.
pub fn vertex_value(x: f32) -> i16
    ensures { result ≡ vertex_of x }
{
    truncated(x)
}
