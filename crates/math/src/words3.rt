// A stored point: three words, so that a NaN that is copied keeps its bits.
ghost use Rattle.std.specs.Prelude.{◌≡◌};
ghost use Rattle.math.specs.Stored.{values_of, bits_of, vmin_words_of, vmax_words_of};

use crate::vec3::Vec3;

#[repr(C)]
#[derive(Clone, Copy)]
pub struct Words3 {
    pub x: u32,
    pub y: u32,
    pub z: u32,
}

pub fn values(w: Words3) -> Vec3
    ensures { result ≡ values_of w }
{
    Vec3 {
        x: float32::words::value(w.x),
        y: float32::words::value(w.y),
        z: float32::words::value(w.z),
    }
}

pub fn bits(v: Vec3) -> Words3
    ensures { result ≡ bits_of v }
{
    Words3 {
        x: float32::words::bits(v.x),
        y: float32::words::bits(v.y),
        z: float32::words::bits(v.z),
    }
}

pub fn vmin_words(a: Words3, b: Words3) -> Words3
    ensures { result ≡ vmin_words_of a b }
{
    Words3 {
        x: float32::extremes::vmin_word(a.x, b.x),
        y: float32::extremes::vmin_word(a.y, b.y),
        z: float32::extremes::vmin_word(a.z, b.z),
    }
}

pub fn vmax_words(a: Words3, b: Words3) -> Words3
    ensures { result ≡ vmax_words_of a b }
{
    Words3 {
        x: float32::extremes::vmax_word(a.x, b.x),
        y: float32::extremes::vmax_word(a.y, b.y),
        z: float32::extremes::vmax_word(a.z, b.z),
    }
}
