// The polygon of a record.
ghost use Rattle.std.specs.Prelude.{◌≡◌, ◌+◌, ◌%◌, ◌<◌, ◌≤◌, length};
ghost use Rattle.polygon.specs.Polygons.{joined, kind_at, triangle_of, box_of, polygon_of, polygon_at};
ghost use Rattle.polygon.specs.Answers.{read_of};

use crate::halves::{Halves, halves_at, short_of};
use crate::{Polygon, ReadRefusal};

fn joined(low: u16, high: u16) -> u32
    ensures { result ≡ joined low high }
{
    low as u32 + 65536 * (high as u32)
}

// The kind is no part of the area.
fn triangle_of(h: Halves) -> Polygon
    ensures { result ≡ triangle_of h }
{
    let area = joined(h.at0 / 8 * 8, h.at2);
    Polygon::Triangle {
        area: float32::words::value(area),
        nan: area,
        v1: h.at4,
        v2: h.at6,
        v3: h.at8,
        e1: short_of(h.at10),
        e2: short_of(h.at12),
        e3: short_of(h.at14),
    }
}

fn box_of(h: Halves) -> Polygon
    ensures { result ≡ box_of h }
{
    Polygon::Box {
        i1: short_of(h.at4),
        i2: short_of(h.at6),
        i3: short_of(h.at8),
        i4: short_of(h.at10),
    }
}

// By returns and no match: the arms of a match copy the polygon, and reading takes 1.2 to 1.7 times the instructions.
fn polygon_of(h: Halves) -> Polygon
    ensures { result ≡ polygon_of h }
{
    let kind = h.at0 % 8;
    if kind == 0 {
        return triangle_of(h);
    }
    if kind == 3 {
        return box_of(h);
    }
    let nan = joined(h.at4, h.at6);
    let radius = float32::words::value(nan);
    if kind == 1 {
        return Polygon::Sphere {
            index: h.at2,
            radius,
            nan,
        };
    }
    if kind == 2 {
        return Polygon::Capsule {
            i1: h.at2,
            i2: h.at8,
            radius,
            nan,
        };
    }
    Polygon::Cylinder {
        i1: h.at2,
        i2: h.at8,
        radius,
        nan,
    }
}

fn low_bits(byte: u8) -> u32
    ensures { result ≡ byte % 8 }
{
    (byte as u32) % 8
}

// The kind of the record at `at`, 0 to 7.
pub fn kind_at(bytes: &[u8], at: usize) -> u32
    requires { at < length bytes.now }
    ensures { result ≡ kind_at bytes.now at }
{
    low_bits(bytes[at])
}

// The polygon of the record at `at`, whose kind is known.
pub fn polygon_at(bytes: &[u8], at: usize) -> Polygon
    requires { at + 16 ≤ length bytes.now }
    ensures { result ≡ polygon_at bytes.now at }
{
    polygon_of(halves_at(bytes, at))
}

// The polygon of the first 16 bytes, or why there is none.
pub fn read(bytes: &[u8]) -> Result<Polygon, ReadRefusal>
    ensures { result ≡ read_of bytes.now }
{
    if bytes.len() < 16 {
        return Err(ReadRefusal::ShortRecord);
    }
    if kind_at(bytes, 0) > 4 {
        return Err(ReadRefusal::UnknownKind);
    }
    Ok(polygon_at(bytes, 0))
}
