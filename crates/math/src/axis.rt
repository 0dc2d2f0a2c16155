// One axis of a point.
ghost use Rattle.std.specs.Prelude.{◌≡◌};
ghost use Rattle.math.specs.Axes.{coordinate};

use crate::vec3::Vec3;

#[derive(Clone, Copy)]
pub enum Axis {
    X,
    Y,
    Z,
}

pub fn coordinate(a: Axis, v: Vec3) -> f32
    ensures { result ≡ coordinate a v }
{
    match a {
        Axis::X => v.x,
        Axis::Y => v.y,
        Axis::Z => v.z,
    }
}
