// Vertices in units of a geometry's quantum, as its records hold them.
#![tactic(auto)]

ghost use Rattle.std.specs.Prelude.{◌≡◌};
ghost use Rattle.std.specs.Float.{binary32};
ghost use Rattle.std.specs.Float.Ieee.{of_int};
ghost use Rattle.vertices.specs.Vertices.{quantum_of_box, stored_of, read_back_of};

use math::aabb::Aabb;
use math::vec3::{Vec3, vdiv, vmul};
use records::BoundVertex;

// Half the box in 32767 parts. A tree's quantum is another one.
pub fn quantum(b: Aabb) -> Vec3
    ensures { result ≡ quantum_of_box b }
{
    let half = b.max.sub(b.min).scale(0.5);
    Vec3 {
        x: half.x / 32767.0,
        y: half.y / 32767.0,
        z: half.z / 32767.0,
    }
}

pub fn stored(v: Vec3, quantum: Vec3) -> BoundVertex
    ensures { result ≡ stored_of v quantum }
{
    let d = vdiv(v, quantum);
    let x = float32::casts::vertex_value(d.x);
    let y = float32::casts::vertex_value(d.y);
    let z = float32::casts::vertex_value(d.z);
    BoundVertex(x, y, z)
}

// A whole number of 16 bits as a float, exactly.
fn of_short(n: i16) -> f32
    ensures { result ≡ of_int binary32 n }
{
    n as f32
}

// The point that a stored vertex stands for.
pub fn read_back(v: BoundVertex, quantum: Vec3) -> Vec3
    ensures { result ≡ read_back_of v quantum }
{
    let units = Vec3 {
        x: of_short(v.0),
        y: of_short(v.1),
        z: of_short(v.2),
    };
    vmul(units, quantum)
}
