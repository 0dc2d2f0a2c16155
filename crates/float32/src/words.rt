// A stored float is a word, its 32 bits; a float that is computed with is an f32.
ghost use Rattle.std.specs.Prelude.{◌≡◌};
ghost use Rattle.std.specs.Float.{binary32};
ghost use Rattle.std.specs.Float.Ieee.{of_bits, to_bits};

// The float that a word stands for; each NaN's pattern gives the NaN.
pub fn value(word: u32) -> f32
    ensures { result ≡ of_bits binary32 word }
{
    // `from_bits` is undefined at a NaN.
    if word % 0x8000_0000 > 0x7f80_0000 {
        0.0 / 0.0
    } else {
        f32::from_bits(word)
    }
}

// The word of a float; 7FC00000 hexadecimal for a NaN.
pub fn bits(x: f32) -> u32
    ensures { result ≡ to_bits binary32 x }
{
    // `to_bits` is undefined at a NaN.
    if x != x { 0x7fc0_0000 } else { f32::to_bits(x) }
}
