// The frame of a prepared mesh, and its quantum.
ghost use Rattle.std.specs.Prelude.{◌≡◌};
ghost use Rattle.meshes.specs.Meshes.{box_of};
ghost use Rattle.vertices.specs.Vertices.{quantum_of_box};
ghost use Rattle.prepared.specs.Rebuilt.{radius_of, frame_of};

use bvh::slices::BuiltTree;
use math::vec3::Vec3;
use math::words3::{Words3, bits, values};
use meshes::Frame;
use meshes::checking::box_of;

// The units in which the vertices of a geometry with this frame are stored.
pub fn quantum_of(frame: Frame) -> Vec3
    ensures { result ≡ quantum_of_box (box_of frame) }
{
    vertices::quantum(box_of(frame))
}

// The distance from a centre to a corner, as a word.
fn radius_of(corner: Words3, cen: Vec3) -> u32
    ensures { result ≡ radius_of corner cen }
{
    let length = values(corner).sub(cen).length();
    float32::words::bits(length)
}

// A tree's box, its centre, and the distance from there to the box's greatest corner.
pub fn frame_of(t: BuiltTree) -> Frame
    ensures { result ≡ frame_of t }
{
    let min = t.min;
    let max = t.max;
    let scale = t.scale;
    let cen = scale.cen;
    let center = bits(cen);
    Frame {
        box_min: min,
        box_max: max,
        box_center: center,
        sphere_center: center,
        sphere_radius: radius_of(max, cen),
    }
}
