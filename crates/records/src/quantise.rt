// A point in units of the quantum, as records hold it.
ghost use Rattle.std.specs.Prelude.{true, false, cond, ◌≡◌, ℕ};
ghost use Rattle.std.specs.Float.{binary32};
ghost use Rattle.std.specs.Float.Ieee.{of_bits, lt, neg};
ghost use Rattle.std.specs.Float.Ieee.Exact.{HasValue};
ghost use Rattle.float32.specs.Casts.{short_of};
ghost use Rattle.math.specs.Stored.{values_of};
ghost use Rattle.math.specs.Vec3s.{sub_of, vmul_of};
ghost use Rattle.records.specs.Quantise.{quantise_of, quantise_query_of};
ghost use Rattle.records.specs.Steps.Cut.{Inside, InsideAll, Whole, shorts_of};

use crate::BoundVertex;
use math::vec3::Vec3;
use math::words3::Words3;

fn scaled(v: Words3, cen: Vec3, inverse: Vec3) -> Vec3
    ensures { result ≡ vmul_of (sub_of (values_of v) cen) inverse }
{
    math::vec3::vmul(math::words3::values(v).sub(cen), inverse)
}

// A corner of a node's box, which wraps and does not clamp.
pub fn quantise(v: Words3, cen: Vec3, inverse: Vec3) -> BoundVertex
    ensures { result ≡ quantise_of v cen inverse }
{
    let d = scaled(v, cen, inverse);
    let x = float32::casts::to_short(d.x);
    let y = float32::casts::to_short(d.y);
    let z = float32::casts::to_short(d.z);
    BoundVertex(x, y, z)
}

// A corner of a query's box, which is clamped.
pub fn quantise_query(v: Vec3, cen: Vec3, inverse: Vec3) -> BoundVertex
    ensures { result ≡ quantise_query_of v cen inverse }
{
    let d = math::vec3::vmul(v.sub(cen), inverse);
    let x = float32::casts::truncated(d.x);
    let y = float32::casts::truncated(d.y);
    let z = float32::casts::truncated(d.z);
    BoundVertex(x, y, z)
}

// A box in units of the quantum.
#[derive(Clone, Copy)]
pub struct BoundBox {
    pub min: BoundVertex,
    pub max: BoundVertex,
}

fn inside(x: f32) -> bool
    ensures { result ≡ true → Inside x }
{
    (x > -32768.0) & (x < 32768.0)
}

// Whether no value of a box wraps: all six compared without a branch, four and two at once.
fn all_inside(d: Vec3, e: Vec3) -> bool
    ensures { result ≡ true → InsideAll d × InsideAll e }
{
    ((inside(d.x) & inside(d.y)) & (inside(d.z) & inside(e.x))) & (inside(e.y) & inside(e.z))
}

// A float from 0 to 32768 without its fraction. With 2^23 added it is rounded to a whole number, which may be the next one.
fn whole(a: f32) -> f32
    ensures { (n : ℕ) → Whole n a → HasValue result false n 1 }
{
    let near = (a + 8388608.0) - 8388608.0;
    let less = near - 1.0;
    if a < near { less } else { near }
}

fn size(x: f32) -> f32
    ensures { result ≡ cond (lt x (of_bits binary32 0)) (neg x) x }
{
    if x < 0.0 { -x } else { x }
}

// A node value that does not wrap: several are cut at once, where `to_short` moves the digits of each by another number of places.
fn short_inside(x: f32) -> i16
    requires { Inside x }
    ensures { result ≡ short_of x }
{
    let n = whole(size(x)) as i16;
    if x < 0.0 { -n } else { n }
}

fn shorts_inside(d: Vec3) -> BoundVertex
    requires { InsideAll d }
    ensures { result ≡ shorts_of d }
{
    let x = short_inside(d.x);
    let y = short_inside(d.y);
    let z = short_inside(d.z);
    BoundVertex(x, y, z)
}

// Both corners of a node's box.
pub fn quantise_box(min: Words3, max: Words3, cen: Vec3, inverse: Vec3) -> BoundBox
    ensures { (result.min ≡ quantise_of min cen inverse) × (result.max ≡ quantise_of max cen inverse) }
{
    let d = scaled(min, cen, inverse);
    let e = scaled(max, cen, inverse);
    if all_inside(d, e) {
        return BoundBox {
            min: shorts_inside(d),
            max: shorts_inside(e),
        };
    }
    BoundBox {
        min: quantise(min, cen, inverse),
        max: quantise(max, cen, inverse),
    }
}
