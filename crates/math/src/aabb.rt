// A box is two points.
ghost use Rattle.std.specs.Prelude.{◌≡◌};
ghost use Rattle.math.specs.Transform.{centre_image, extent_image, transform_box};

use crate::mat4::Mat4;
use crate::vec3::Vec3;

#[repr(C)]
#[derive(Clone, Copy)]
pub struct Aabb {
    pub min: Vec3,
    pub max: Vec3,
}

// The centre through the matrix, divided by its w.
fn centre_image(b: Aabb, m: Mat4) -> Vec3
    ensures { result ≡ centre_image b m }
{
    let centre = b.max.add(b.min).scale(0.5);
    let p = m.transform_point(centre);
    let inv = 1.0 / p.w;
    Vec3 {
        x: p.x * inv,
        y: p.y * inv,
        z: p.z * inv,
    }
}

// The half extent through the matrix of absolute values.
fn extent_image(b: Aabb, m: Mat4) -> Vec3
    ensures { result ≡ extent_image b m }
{
    let extent = b.max.sub(b.min).scale(0.5);
    m.abs().transform_vector(extent).abs()
}

// The box around the centre's image. Only the centre is divided by w.
pub fn transform_box(b: Aabb, m: Mat4) -> Aabb
    ensures { result ≡ transform_box b m }
{
    let centre = centre_image(b, m);
    let extent = extent_image(b, m);
    Aabb {
        min: centre.sub(extent),
        max: centre.add(extent),
    }
}
