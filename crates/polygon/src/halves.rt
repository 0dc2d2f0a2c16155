// A record of 16 bytes as eight numbers of two bytes.
ghost use Rattle.std.specs.Prelude.{◌≡◌, ◌+◌, ◌≤◌, length};
ghost use Rattle.std.proofs.lemmas.List.Edits.{sets};
ghost use Rattle.base.specs.LittleEndian.{le_at};
ghost use Rattle.float32.specs.Casts.{low16bits, signed16};
ghost use Rattle.polygon.specs.Halves.{four_bytes, halves_bytes, halves_at};

use base::little_endian::{put_le, two_at};

// Each is named by the byte where it begins.
#[derive(Clone, Copy)]
pub struct Halves {
    pub at0: u16,
    pub at2: u16,
    pub at4: u16,
    pub at6: u16,
    pub at8: u16,
    pub at10: u16,
    pub at12: u16,
    pub at14: u16,
}

// The two bytes of an i16 as one number.
pub fn half_of(v: i16) -> u16
    ensures { result ≡ low16bits v }
{
    float32::casts::low_bits(v as i32) as u16
}

// The i16 of two bytes.
pub fn short_of(half: u16) -> i16
    ensures { result ≡ signed16 half }
{
    float32::casts::wrap_i16(half as i32)
}

pub fn half_at(bytes: &[u8], at: usize) -> u16
    requires { at + 2 ≤ length bytes.now }
    ensures { result ≡ le_at 2 bytes.now at }
{
    two_at(bytes, at) as u16
}

pub fn halves_at(bytes: &[u8], at: usize) -> Halves
    requires { at + 16 ≤ length bytes.now }
    ensures { result ≡ halves_at bytes.now at }
{
    Halves {
        at0: half_at(bytes, at),
        at2: half_at(bytes, at + 2),
        at4: half_at(bytes, at + 4),
        at6: half_at(bytes, at + 6),
        at8: half_at(bytes, at + 8),
        at10: half_at(bytes, at + 10),
        at12: half_at(bytes, at + 12),
        at14: half_at(bytes, at + 14),
    }
}

fn put_four(out: &mut [u8], at: usize, a: u16, b: u16, c: u16, d: u16)
    requires { at + 8 ≤ length out.old }
    ensures { out.new ≡ sets out.old at (four_bytes a b c d) }
{
    put_le(out, at, 2, a as u64);
    put_le(out, at + 2, 2, b as u64);
    put_le(out, at + 4, 2, c as u64);
    put_le(out, at + 6, 2, d as u64);
}

pub fn put_halves(out: &mut [u8], at: usize, h: Halves)
    requires { at + 16 ≤ length out.old }
    ensures { out.new ≡ sets out.old at (halves_bytes h) }
{
    put_four(out, at, h.at0, h.at2, h.at4, h.at6);
    put_four(out, at + 8, h.at8, h.at10, h.at12, h.at14);
}
