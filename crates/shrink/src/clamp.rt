// After a pass every vertex is brought into the box, less the margin or 0.025.
ghost use Rattle.std.specs.Prelude.{◌≡◌, ◌*◌, length};
ghost use Rattle.shrink.specs.Clamping.{inset_of, clamp_of, clamped_words};

use math::aabb::Aabb;
use math::vec3::Vec3;

pub fn inset(b: Aabb, center: Vec3, margin: f32) -> Aabb
    ensures { result ≡ inset_of b center margin }
{
    let k = float32::extremes::max_number(margin, 0.025);
    Aabb {
        min: math::vec3::vadd_f(b.min, k).sub(center),
        max: math::vec3::vadd_f(b.max, -k).sub(center),
    }
}

pub fn clamp(b: Aabb, s: Vec3) -> Vec3
    ensures { result ≡ clamp_of b s }
{
    math::vec3::vmax(math::vec3::vmin(s, b.max), b.min)
}

// Every point, clamped. The slice is as long as the points' words.
pub fn clamp_points(points: &mut [u32], v: usize, b: Aabb)
    requires { length points.old ≡ 3 * v }
    ensures { points.new ≡ clamped_words b points.old v }
{
    for i in 0..v {
        let s = points::vertex_at(points, i);
        points::put_point(points, i, clamp(b, s));
    }
}
