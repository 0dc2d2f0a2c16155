// The square root, correctly rounded.
ghost use Rattle.std.specs.Prelude.{◌≡◌, ◌<◌, ◌≤◌, ◌^◌};
ghost use Rattle.std.specs.Float.{binary32};
ghost use Rattle.float32.specs.SquareRoot.{isqrt, sqrt_of};
ghost use Rattle.float32.specs.RootSteps.{Scales, root_bits};

// The whole part of √n, by Newton's iteration: from any guess above 0 one step leads to the root or above it, and from above each step falls.
fn isqrt(n: u64, guess: u64) -> u64
    requires { (n < 2 ^ 48) × (0x0080_0000 ≤ guess) × (guess < 0x0200_0000) }
    ensures { result ≡ isqrt n }
{
    let mut root = (guess + n / guess) / 2;
    while n < root * root {
        root = (root + n / root) / 2;
    }
    root
}

// 1 or √2, in units of 2^-30.
fn factor(odd: u32) -> u64
    ensures { (1073741824 ≤ result) × (result ≤ 1518500250) }
{
    if odd == 0 { 1073741824 } else { 1518500250 }
}

// √(significand * 2^(23 + odd)) within 0.007 %, so that one step of `isqrt` is nearly always enough. For significand / 2^23 = 2 - y it is the cubic
// nearest to √(2 - y), in units of 2^-30.
fn guess(significand: u32, odd: u32) -> u64
    requires { (0x0080_0000 ≤ significand) × (significand < 0x0100_0000) }
    ensures { (0x0080_0000 ≤ result) × (result < 0x0200_0000) }
{
    let y = (0x0100_0000 - significand) as u64;
    let bend = 35565631 + y * 26776358 / 0x0080_0000;
    let slope = 382447310 + y * bend / 0x0080_0000;
    let root = 1518605656 - y * slope / 0x0080_0000;
    root * factor(odd) / 0x0020_0000_0000
}

// The number significand * 2^exponent / 2^275, with a significand of 24 digits.
#[derive(Clone, Copy)]
struct Scaled {
    significand: u32,
    exponent: u32,
}

// The number of a pattern that is above zero and finite.
fn parts(pattern: u32) -> Scaled
    requires { (0 < pattern) × (pattern < 0x7f80_0000) }
    ensures { Scales pattern result.significand result.exponent }
{
    if pattern < 0x0080_0000 {
        // Subnormal: the leading digit moves to the place that it has in a normal number.
        let places = u32::leading_zeros(pattern) - 8;
        Scaled {
            significand: pattern << places,
            exponent: 126 - places,
        }
    } else {
        Scaled {
            significand: 0x0080_0000 + pattern % 0x0080_0000,
            exponent: pattern / 0x0080_0000 + 125,
        }
    }
}

// The pattern of the root of significand * 2^exponent / 2^275. The exponent is halved, and an odd one leaves a 2 in the radicand.
fn root_bits(significand: u32, exponent: u32) -> u32
    requires { (0x0080_0000 ≤ significand) × (significand < 0x0100_0000) × (exponent < 380) }
    ensures { result ≡ root_bits significand exponent }
{
    let n = (significand as u64) << (23 + exponent % 2);
    let root = isqrt(n, guess(significand, exponent % 2));
    // The radicand is whole, so √n is above root + 1/2 exactly where n is above root * (root + 1), and there is no tie.
    if n - root * root > root {
        (exponent / 2) * 0x0080_0000 + ((root + 1) as u32)
    } else {
        (exponent / 2) * 0x0080_0000 + (root as u32)
    }
}

// √x, to the nearest: a zero keeps its sign, and a negative number has no root.
pub fn sqrt(x: f32) -> f32
    ensures { result ≡ sqrt_of binary32 x }
{
    let pattern = crate::words::bits(x);
    if pattern == 0 {
        return x;
    }
    if pattern < 0x7f80_0000 {
        let scaled = parts(pattern);
        return f32::from_bits(root_bits(scaled.significand, scaled.exponent));
    }
    if pattern == 0x7f80_0000 {
        return x;
    }
    if pattern == 0x8000_0000 {
        return x;
    }
    0.0 / 0.0
}
