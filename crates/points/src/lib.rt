// Points that lie as words, three a point: read, stored, and brought to where their bound stands.
#![tactic(auto)]

ghost use Rattle.std.specs.Prelude.{◌≡◌, ◌+◌, ◌*◌, ◌≤◌, length};
ghost use Rattle.std.proofs.lemmas.List.Edits.{sets};
ghost use Rattle.base.specs.Lists.{over};
ghost use Rattle.math.specs.Transform.{xyz, point_of};
ghost use Rattle.math.specs.Vec3s.{add_of};
ghost use Rattle.points.specs.Points.{vertex_at, words_of, pos_of, positions_of};

use math::mat4::Mat4;
use math::vec3::Vec3;
use math::words3::Words3;

pub fn vertex_at(words: &[u32], i: usize) -> Vec3
    requires { 3 * i + 3 ≤ length words.now }
    ensures { result ≡ vertex_at words.now i }
{
    let at = 3 * i;
    math::words3::values(Words3 {
        x: words[at],
        y: words[at + 1],
        z: words[at + 2],
    })
}

pub fn put_point(points: &mut [u32], i: usize, p: Vec3)
    requires { 3 * i + 3 ≤ length points.old }
    ensures { points.new ≡ sets points.old (3 * i) (words_of p) }
{
    let w = math::words3::bits(p);
    let at = 3 * i;
    points[at] = w.x;
    points[at + 1] = w.y;
    points[at + 2] = w.z;
}

fn position(v: Vec3, center: Vec3, transform: Mat4) -> Vec3
    ensures { result ≡ xyz (point_of transform (add_of v center)) }
{
    let p = transform.transform_point(v.add(center));
    Vec3 {
        x: p.x,
        y: p.y,
        z: p.z,
    }
}

// Where vertex i stands once its bound is in its place.
pub fn vertex_pos(vertices: &[u32], i: usize, center: Vec3, transform: Mat4) -> Vec3
    requires { 3 * i + 3 ≤ length vertices.now }
    ensures { result ≡ pos_of transform center vertices.now i }
{
    position(vertex_at(vertices, i), center, transform)
}

// Where the first v vertices stand; the words behind them stay.
pub fn put_positions(vertices: &[u32], v: usize, center: Vec3, transform: Mat4, points: &mut [u32])
    requires { (3 * v ≤ length vertices.now) × (3 * v ≤ length points.old) }
    ensures { points.new ≡ over (positions_of transform center vertices.now v) points.old }
{
    for i in 0..v {
        put_point(points, i, vertex_pos(vertices, i, center, transform));
    }
}
