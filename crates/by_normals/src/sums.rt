// The normals of each vertex's triangles, summed up in the words of the points.
ghost use Rattle.std.specs.Prelude.{◌≡◌, ◌+◌, ◌*◌, ◌≤◌, ◌<◌, length};
ghost use Rattle.std.proofs.lemmas.List.Edits.{sets};
ghost use Rattle.math.specs.Vec3s.{add_of};
ghost use Rattle.points.specs.Points.{vertex_at, words_of};
ghost use Rattle.by_normals.specs.Normals.{placed_of};
ghost use Rattle.by_normals.specs.Steps.Sums.{Placeable, Sums};

use math::mat4::Mat4;
use math::vec3::Vec3;
use points::{put_point, vertex_at, vertex_pos};
use rings::normals::wide;

fn add_at(points: &mut [u32], i: usize, n: Vec3)
    requires { 3 * i + 3 ≤ length points.old }
    ensures { points.new ≡ sets points.old (3 * i) (words_of (add_of (vertex_at points.old i) n)) }
{
    let sum = vertex_at(points, i).add(n);
    put_point(points, i, sum);
}

// The normal of triangle p, added at each of its corners; nothing of a triangle that has a corner past the vertices.
fn add_triangle(
    corners: &[u32],
    vertices: &[u32],
    v: usize,
    center: Vec3,
    transform: Mat4,
    p: usize,
    points: &mut [u32],
)
    requires { (Placeable (placed_of corners.now vertices.now v center transform) (p + 1) points.old)
        × (Sums (placed_of corners.now vertices.now v center transform) (3 * p) points.old) }
    ensures { Sums (placed_of corners.now vertices.now v center transform) (3 * p + 3) points.new }
{
    let at = 3 * p;
    let a = wide(corners[at]);
    let b = wide(corners[at + 1]);
    let c = wide(corners[at + 2]);
    if a >= v {
        return;
    }
    if b >= v {
        return;
    }
    if c >= v {
        return;
    }
    let n = crate::normals::facing(
        vertex_pos(vertices, a, center, transform),
        vertex_pos(vertices, b, center, transform),
        vertex_pos(vertices, c, center, transform),
    );
    add_at(points, a, n);
    add_at(points, b, n);
    add_at(points, c, n);
}

// The sums over n polygons. The slice is as long as the points' words.
pub fn put_sums(
    corners: &[u32],
    n: usize,
    vertices: &[u32],
    v: usize,
    center: Vec3,
    transform: Mat4,
    points: &mut [u32],
)
    requires { Placeable (placed_of corners.now vertices.now v center transform) n points.old }
    ensures { Sums (placed_of corners.now vertices.now v center transform) (3 * n) points.new }
{
    side_chains::chains::clear(points);
    for p in 0..n {
        add_triangle(corners, vertices, v, center, transform, p, points);
    }
}
