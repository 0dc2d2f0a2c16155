// The normal of each polygon over the vertices as given.
ghost use Rattle.std.specs.Prelude.{◌≡◌, ◌+◌, ◌*◌, ◌≤◌, ◌<◌, length};
ghost use Rattle.rings.specs.Normals.{origin, normal_of, polygon_normal};
ghost use Rattle.rings.specs.Steps.Stored.{put_normal, Normals};

use math::vec3::Vec3;
use points::vertex_at;

pub fn normal(a: Vec3, b: Vec3, c: Vec3) -> Vec3
    ensures { result ≡ normal_of a b c }
{
    math::vec3::norm(c.sub(b).cross(a.sub(b)))
}

fn origin() -> Vec3
    ensures { result ≡ origin }
{
    Vec3 {
        x: 0.0,
        y: 0.0,
        z: 0.0,
    }
}

pub fn wide(x: u32) -> usize
    ensures { result ≡ x }
{
    x as usize
}

fn polygon_normal(corners: &[u32], vertices: &[u32], v: usize, p: usize) -> Vec3
    requires { (3 * p + 3 ≤ length corners.now) × (3 * v ≤ length vertices.now) }
    ensures { result ≡ polygon_normal corners.now vertices.now v p }
{
    let at = 3 * p;
    let a = wide(corners[at]);
    let b = wide(corners[at + 1]);
    let c = wide(corners[at + 2]);
    if a >= v {
        return origin();
    }
    if b >= v {
        return origin();
    }
    if c >= v {
        return origin();
    }
    normal(
        vertex_at(vertices, a),
        vertex_at(vertices, b),
        vertex_at(vertices, c),
    )
}

pub fn put_normal(ns: &mut [f32], i: usize, p: Vec3)
    requires { 3 * i + 3 ≤ length ns.old }
    ensures { ns.new ≡ put_normal ns.old i p }
{
    let at = 3 * i;
    ns[at] = p.x;
    ns[at + 1] = p.y;
    ns[at + 2] = p.z;
}

// The normals of the n polygons.
pub fn put_normals(corners: &[u32], n: usize, vertices: &[u32], v: usize, ns: &mut [f32])
    requires { (3 * n ≤ length corners.now) × (3 * v ≤ length vertices.now) × (3 * n ≤ length ns.old) }
    ensures { Normals corners.now vertices.now v ns.new n }
{
    for p in 0..n {
        put_normal(ns, p, polygon_normal(corners, vertices, v, p));
    }
}
