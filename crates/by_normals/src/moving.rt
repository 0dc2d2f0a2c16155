// Every vertex, moved along the normal of its sum.
ghost use Rattle.std.specs.Prelude.{◌≡◌, ℕ, ◌+◌, ◌*◌, ◌≤◌, ◌<◌, length};
ghost use Rattle.corners.specs.Corners.{in_turn};
ghost use Rattle.math.specs.declared.vec3.Vec3.{Vec3};
ghost use Rattle.points.specs.Points.{vertex_at, words_of};
ghost use Rattle.by_normals.specs.Normals.{placed_of, pushed_of, by_normals};
ghost use Rattle.by_normals.specs.Steps.Sums.{Placeable};

use math::mat4::Mat4;
use math::vec3::Vec3;
use points::{put_point, vertex_at};

fn pushed(from: Vec3, sum: Vec3, by: f32) -> Vec3
    ensures { result ≡ pushed_of from sum by }
{
    from.add(crate::normals::vertex_normal(sum).scale(by))
}

// The points hold the vertices' sums before, and the moved vertices after.
fn put_pushed(vertices: &[u32], v: usize, by: f32, points: &mut [u32])
    requires { (3 * v ≤ length vertices.now) × (length points.old ≡ 3 * v) }
    ensures { (sum : ℕ → Vec3) → ((i : ℕ) → i < v → vertex_at points.old i ≡ sum i)
        → points.new ≡ in_turn v (λ i. words_of (pushed_of (vertex_at vertices.now i) (sum i) by)) }
{
    for i in 0..v {
        let sum = vertex_at(points, i);
        put_point(points, i, pushed(vertex_at(vertices, i), sum, by));
    }
}

// Rule S9, of n polygons. The slice is as long as the points' words.
pub fn by_normals(
    corners: &[u32],
    n: usize,
    vertices: &[u32],
    v: usize,
    center: Vec3,
    transform: Mat4,
    margin: f32,
    points: &mut [u32],
)
    requires { Placeable (placed_of corners.now vertices.now v center transform) n points.old }
    ensures { points.new ≡ by_normals (placed_of corners.now vertices.now v center transform) n margin }
{
    crate::sums::put_sums(corners, n, vertices, v, center, transform, points);
    put_pushed(vertices, v, -margin, points);
}
