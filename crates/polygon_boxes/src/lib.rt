// The box of a polygon over its vertices, which are three words each. A vertex that is not there is zero.
#![tactic(auto)]

ghost use Rattle.std.specs.Prelude.{◌≡◌, ◌+◌, ◌*◌, ◌≤◌, length};
ghost use Rattle.polygon_boxes.specs.Boxes.{vertex_words, three_box, four_box, grown_box, pair_box, bbox_of};
ghost use Rattle.polygon_boxes.specs.Numbers.{Numbers};

use math::vec3::{Vec3, vadd_f, vmax, vmin};
use math::words3::{Words3, bits, values, vmax_words, vmin_words};
use numbers::{all_three, high3, high4, low3, low4};
use polygon::Polygon;
use polygon::halves::half_of;

pub mod kinds;
pub mod numbers;
pub mod triangles;

// Words, so that a NaN that is copied keeps its bits.
#[repr(C)]
#[derive(Clone, Copy)]
pub struct PolygonBox {
    pub min: Words3,
    pub max: Words3,
}

// A vertex that is there.
pub fn near_words(vertices: &[u32], i: u16) -> Words3
    requires { 3 * i + 3 ≤ length vertices.now }
    ensures { result ≡ vertex_words vertices.now i }
{
    let at = 3 * (i as usize);
    Words3 {
        x: vertices[at],
        y: vertices[at + 1],
        z: vertices[at + 2],
    }
}

pub fn vertex_words(vertices: &[u32], i: u16) -> Words3
    ensures { result ≡ vertex_words vertices.now i }
{
    if 3 * (i as usize) + 3 <= vertices.len() {
        near_words(vertices, i)
    } else {
        Words3 { x: 0, y: 0, z: 0 }
    }
}

// Of words that are no NaN's, without a branch.
fn number_box(a: Words3, b: Words3, c: Words3) -> PolygonBox
    requires { Numbers a × Numbers b × Numbers c }
    ensures { result ≡ three_box a b c }
{
    PolygonBox {
        min: Words3 {
            x: low3(a.x, b.x, c.x),
            y: low3(a.y, b.y, c.y),
            z: low3(a.z, b.z, c.z),
        },
        max: Words3 {
            x: high3(a.x, b.x, c.x),
            y: high3(a.y, b.y, c.y),
            z: high3(a.z, b.z, c.z),
        },
    }
}

// Word by word, whatever they are.
fn word_box(a: Words3, b: Words3, c: Words3) -> PolygonBox
    ensures { result ≡ three_box a b c }
{
    PolygonBox {
        min: vmin_words(vmin_words(a, b), c),
        max: vmax_words(vmax_words(a, b), c),
    }
}

fn three_box(a: Words3, b: Words3, c: Words3) -> PolygonBox
    ensures { result ≡ three_box a b c }
{
    if all_three(a, b, c) {
        number_box(a, b, c)
    } else {
        word_box(a, b, c)
    }
}

// Beside the box of three: one for any number of vertices would be a loop over an array in place of straight words.
fn number_box_4(a: Words3, b: Words3, c: Words3, d: Words3) -> PolygonBox
    requires { Numbers a × Numbers b × Numbers c × Numbers d }
    ensures { result ≡ four_box a b c d }
{
    PolygonBox {
        min: Words3 {
            x: low4(a.x, b.x, c.x, d.x),
            y: low4(a.y, b.y, c.y, d.y),
            z: low4(a.z, b.z, c.z, d.z),
        },
        max: Words3 {
            x: high4(a.x, b.x, c.x, d.x),
            y: high4(a.y, b.y, c.y, d.y),
            z: high4(a.z, b.z, c.z, d.z),
        },
    }
}

fn word_box_4(a: Words3, b: Words3, c: Words3, d: Words3) -> PolygonBox
    ensures { result ≡ four_box a b c d }
{
    let three = word_box(a, b, c);
    PolygonBox {
        min: vmin_words(three.min, d),
        max: vmax_words(three.max, d),
    }
}

// From low to high, and the radius further either way.
fn grown_box(low: Vec3, high: Vec3, radius: f32) -> PolygonBox
    ensures { result ≡ grown_box low high radius }
{
    PolygonBox {
        min: bits(vadd_f(low, -radius)),
        max: bits(vadd_f(high, radius)),
    }
}

fn pair_box(a: Words3, b: Words3, radius: f32) -> PolygonBox
    ensures { result ≡ pair_box a b radius }
{
    let first = values(a);
    let second = values(b);
    grown_box(vmin(first, second), vmax(first, second), radius)
}

// Only a triangle's vertex numbers have a flag in bit 15.
pub fn bbox(p: Polygon, vertices: &[u32]) -> PolygonBox
    ensures { result ≡ bbox_of p vertices.now }
{
    match p {
        Polygon::Triangle { v1, v2, v3, .. } => kinds::triangle_box(v1, v2, v3, vertices),
        Polygon::Sphere { index, radius, .. } => kinds::sphere_box(index, radius, vertices),
        Polygon::Capsule { i1, i2, radius, .. } => kinds::capsule_box(i1, i2, radius, vertices),
        Polygon::Box { i1, i2, i3, i4 } => kinds::box_box(
            half_of(i1),
            half_of(i2),
            half_of(i3),
            half_of(i4),
            vertices,
        ),
        Polygon::Cylinder { i1, i2, radius, .. } => kinds::capsule_box(i1, i2, radius, vertices),
    }
}
