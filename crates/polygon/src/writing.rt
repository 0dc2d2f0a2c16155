// A polygon's record.
ghost use Rattle.std.specs.Prelude.{◌≡◌, ◌+◌, ◌/◌, ◌%◌, ◌≤◌, length};
ghost use Rattle.std.proofs.lemmas.List.Edits.{sets};
ghost use Rattle.polygon.specs.Polygons.{nan_or, word_or, round_halves, triangle_halves, box_halves, halves_of, polygon_bytes};
ghost use Rattle.polygon.specs.Answers.{Wrote};

use crate::halves::{Halves, half_of, put_halves};
use crate::{Polygon, WriteRefusal};

// A NaN's word as it is; any other word would make a number of a NaN.
fn nan_or(word: u32) -> u32
    ensures { result ≡ nan_or word }
{
    let x = float32::words::value(word);
    if x != x { word } else { 0x7fc0_0000 }
}

// A float's word; of a NaN, `nan`, if that is a NaN's word.
pub fn word_or(x: f32, nan: u32) -> u32
    ensures { result ≡ word_or x nan }
{
    if x != x {
        nan_or(nan)
    } else {
        float32::words::bits(x)
    }
}

// A word's halves.
fn low_of(word: u32) -> u16
    ensures { result ≡ word % 65536 }
{
    (word % 65536) as u16
}

fn high_of(word: u32) -> u16
    ensures { result ≡ word / 65536 }
{
    (word / 65536) as u16
}

// A sphere, a capsule or a cylinder: the second index stands behind the radius.
fn round_halves(kind: u16, i1: u16, i2: u16, radius: u32) -> Halves
    ensures { result ≡ round_halves kind i1 i2 radius }
{
    Halves {
        at0: kind,
        at2: i1,
        at4: low_of(radius),
        at6: high_of(radius),
        at8: i2,
        at10: 0,
        at12: 0,
        at14: 0,
    }
}

// The kind, 0, takes the place of the area's low three bits.
fn triangle_halves(area: u32, v1: u16, v2: u16, v3: u16, e1: i16, e2: i16, e3: i16) -> Halves
    ensures { result ≡ triangle_halves area v1 v2 v3 e1 e2 e3 }
{
    Halves {
        at0: low_of(area) / 8 * 8,
        at2: high_of(area),
        at4: v1,
        at6: v2,
        at8: v3,
        at10: half_of(e1),
        at12: half_of(e2),
        at14: half_of(e3),
    }
}

fn box_halves(i1: i16, i2: i16, i3: i16, i4: i16) -> Halves
    ensures { result ≡ box_halves i1 i2 i3 i4 }
{
    Halves {
        at0: 3,
        at2: 0,
        at4: half_of(i1),
        at6: half_of(i2),
        at8: half_of(i3),
        at10: half_of(i4),
        at12: 0,
        at14: 0,
    }
}

fn halves_of(p: Polygon) -> Halves
    ensures { result ≡ halves_of p }
{
    match p {
        Polygon::Triangle {
            area,
            nan,
            v1,
            v2,
            v3,
            e1,
            e2,
            e3,
        } => triangle_halves(word_or(area, nan), v1, v2, v3, e1, e2, e3),
        Polygon::Sphere { index, radius, nan } => round_halves(1, index, 0, word_or(radius, nan)),
        Polygon::Capsule {
            i1,
            i2,
            radius,
            nan,
        } => round_halves(2, i1, i2, word_or(radius, nan)),
        Polygon::Box { i1, i2, i3, i4 } => box_halves(i1, i2, i3, i4),
        Polygon::Cylinder {
            i1,
            i2,
            radius,
            nan,
        } => round_halves(4, i1, i2, word_or(radius, nan)),
    }
}

pub fn put_polygon(out: &mut [u8], at: usize, p: Polygon)
    requires { at + 16 ≤ length out.old }
    ensures { out.new ≡ sets out.old at (polygon_bytes p) }
{
    put_halves(out, at, halves_of(p));
}

// The record in the first 16 bytes, or a refusal that changes none.
pub fn write(out: &mut [u8], p: Polygon) -> Result<(), WriteRefusal>
    ensures { Wrote p out.old out.new result }
{
    if out.len() < 16 {
        return Err(WriteRefusal::BufferTooShort);
    }
    put_polygon(out, 0, p);
    Ok(())
}
