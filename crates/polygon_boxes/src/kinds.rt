// The boxes of the other kinds by the numbers of their vertices: what `bbox` makes of a polygon, without one.
ghost use Rattle.std.specs.Prelude.{◌≡◌};
ghost use Rattle.math.specs.Stored.{values_of};
ghost use Rattle.polygon_boxes.specs.Boxes.{vertex_words, grown_box, pair_box, four_box, triangle_box};

use crate::numbers::all_four;
use crate::triangles::within_4;
use crate::{
    PolygonBox, grown_box, near_words, number_box_4, pair_box, three_box, vertex_words, word_box_4,
};
use math::words3::values;

// Bit 15 of a triangle's vertex numbers is a flag.
pub fn triangle_box(v1: u16, v2: u16, v3: u16, vertices: &[u32]) -> PolygonBox
    ensures { result ≡ triangle_box vertices.now v1 v2 v3 }
{
    let a = vertex_words(vertices, v1 % 32768);
    let b = vertex_words(vertices, v2 % 32768);
    let c = vertex_words(vertices, v3 % 32768);
    three_box(a, b, c)
}

pub fn sphere_box(index: u16, radius: f32, vertices: &[u32]) -> PolygonBox
    ensures { result ≡ grown_box (values_of (vertex_words vertices.now index)) (values_of (vertex_words vertices.now index)) radius }
{
    let centre = values(vertex_words(vertices, index));
    grown_box(centre, centre, radius)
}

// Of a cylinder too.
pub fn capsule_box(i1: u16, i2: u16, radius: f32, vertices: &[u32]) -> PolygonBox
    ensures { result ≡ pair_box (vertex_words vertices.now i1) (vertex_words vertices.now i2) radius }
{
    let a = vertex_words(vertices, i1);
    let b = vertex_words(vertices, i2);
    pair_box(a, b, radius)
}

pub fn box_box(i1: u16, i2: u16, i3: u16, i4: u16, vertices: &[u32]) -> PolygonBox
    ensures { result ≡ four_box (vertex_words vertices.now i1) (vertex_words vertices.now i2)
        (vertex_words vertices.now i3)
        (vertex_words vertices.now i4) }
{
    if within_4(i1, i2, i3, i4, vertices.len()) {
        let a = near_words(vertices, i1);
        let b = near_words(vertices, i2);
        let c = near_words(vertices, i3);
        let d = near_words(vertices, i4);
        if all_four(a, b, c, d) {
            return number_box_4(a, b, c, d);
        }
    }
    let a = vertex_words(vertices, i1);
    let b = vertex_words(vertices, i2);
    let c = vertex_words(vertices, i3);
    let d = vertex_words(vertices, i4);
    word_box_4(a, b, c, d)
}
