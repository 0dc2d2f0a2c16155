// The normal of a triangle where it stands, and that of a vertex.
ghost use Rattle.std.specs.Prelude.{◌≡◌};
ghost use Rattle.by_normals.specs.Normals.{facing, is_origin, vertex_normal};

use math::vec3::Vec3;

// Rule S2's normal of the corners the other way round.
pub fn facing(a: Vec3, b: Vec3, c: Vec3) -> Vec3
    ensures { result ≡ facing a b c }
{
    rings::normals::normal(c, b, a)
}

// -0 is zero, a NaN is not.
fn is_origin(p: Vec3) -> bool
    ensures { result ≡ is_origin p }
{
    p.x == 0.0 && p.y == 0.0 && p.z == 0.0
}

// The sum, normed, unless it is zero.
pub fn vertex_normal(sum: Vec3) -> Vec3
    ensures { result ≡ vertex_normal sum }
{
    if is_origin(sum) {
        return sum;
    }
    math::vec3::norm(sum)
}
