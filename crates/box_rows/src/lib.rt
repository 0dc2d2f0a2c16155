// A box through a matrix, for a call that has the matrix in registers. math's `transform_box` is the composites': with a second caller
// it would stay out of line, and the matrix would be stored for it. What is here goes into its one caller.
#![tactic(auto)]

ghost use Rattle.std.specs.Prelude.{◌≡◌};
ghost use Rattle.math.specs.Transform.{abs_row, centre_image, extent_image, transform_box};

use math::aabb::Aabb;
use math::mat4::{Mat4, Vec4};
use math::vec3::Vec3;

// The centre through the matrix, divided by its w.
fn centre_image(b: Aabb, m: Mat4) -> Vec3
    ensures { result ≡ centre_image b m }
{
    let centre = b.max.add(b.min).scale(0.5);
    let p = m.transform_point(centre);
    let inv = 1.0 / p.w;
    Vec3 {
        x: p.x * inv,
        y: p.y * inv,
        z: p.z * inv,
    }
}

fn abs_row(r: Vec4) -> Vec4
    ensures { result ≡ abs_row r }
{
    Vec4 {
        x: float32::signs::abs(r.x),
        y: float32::signs::abs(r.y),
        z: float32::signs::abs(r.z),
        w: float32::signs::abs(r.w),
    }
}

// The half extent through the matrix of absolute values, of which a direction needs three rows.
fn extent_image(b: Aabb, m: Mat4) -> Vec3
    ensures { result ≡ extent_image b m }
{
    let extent = b.max.sub(b.min).scale(0.5);
    let row3 = m.row3;
    let rows = Mat4 {
        row0: abs_row(m.row0),
        row1: abs_row(m.row1),
        row2: abs_row(m.row2),
        row3: row3,
    };
    rows.transform_vector(extent).abs()
}

// The box around the centre's image. The extent comes first: with the division last a call takes a quarter less.
pub fn transform_box(b: Aabb, m: Mat4) -> Aabb
    ensures { result ≡ transform_box b m }
{
    let extent = extent_image(b, m);
    let centre = centre_image(b, m);
    Aabb {
        min: centre.sub(extent),
        max: centre.add(extent),
    }
}
