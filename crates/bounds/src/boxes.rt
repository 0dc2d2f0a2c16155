// A box through a matrix.
ghost use Rattle.std.specs.Prelude.{◌≡◌};
ghost use Rattle.math.specs.Transform.{transform_box};

use math::aabb::Aabb;
use math::mat4::{Mat4, Vec4};
use math::vec3::Vec3;

// The matrix by its rows and the box by its numbers: all of the matrix goes in registers, and a number of the box is loaded as it
// was stored.
#[unsafe(no_mangle)]
pub extern "C" fn bounds_transform_box_rows(
    row0: Vec4,
    row1: Vec4,
    row2: Vec4,
    row3: Vec4,
    min_x: f32,
    min_y: f32,
    min_z: f32,
    max_x: f32,
    max_y: f32,
    max_z: f32,
) -> Aabb
    ensures { result ≡ transform_box
        (record {
          min = record { x = min_x; y = min_y; z = min_z };
          max = record { x = max_x; y = max_y; z = max_z };
        })
        (record { row0 = row0; row1 = row1; row2 = row2; row3 = row3 }) }
{
    let b = Aabb {
        min: Vec3 {
            x: min_x,
            y: min_y,
            z: min_z,
        },
        max: Vec3 {
            x: max_x,
            y: max_y,
            z: max_z,
        },
    };
    let m = Mat4 {
        row0: row0,
        row1: row1,
        row2: row2,
        row3: row3,
    };
    box_rows::transform_box(b, m)
}
