// Every vertex of a mesh, moved by a margin.
ghost use Rattle.std.specs.Prelude.{◌≡◌, ℕ, ◌+◌, ◌*◌, ◌≤◌, ◌<◌, length, get_or};
ghost use Rattle.rings.specs.Meshes.{mesh_of, shrunk_at, by_margin};
ghost use Rattle.rings.specs.Steps.Gathering.{Gathered, Movable};

use crate::moving::{Push, normal_at};
use crate::normals::{put_normal, wide};
use math::vec3::Vec3;
use points::{put_point, vertex_at};

// The normals of a polygon and of its ring, one after the other.
fn gather(normals: &[f32], poly: usize, ring: &[u32], count: usize, ns: &mut [f32])
    requires { (3 * poly + 3 ≤ length normals.now) × (count ≤ length ring.now) × (3 * count + 3 ≤ length ns.old)
        × ((k : ℕ) → k < count → 3 * get_or ring.now k 0 + 3 ≤ length normals.now) }
    ensures { Gathered normals.now poly ring.now count ns.new }
{
    put_normal(ns, 0, normal_at(normals, poly));
    for k in 0..count {
        put_normal(ns, k + 1, normal_at(normals, wide(ring[k])));
    }
}

// Vertex i, moved. The ring and its normals are work.
pub fn shrunk_at(
    corners: &[u32],
    links: &[u32],
    n: usize,
    vertices: &[u32],
    v: usize,
    firsts: &[u32],
    normals: &[f32],
    by: f32,
    i: usize,
    ring: &mut [u32],
    ns: &mut [f32],
) -> Vec3
    requires { (Movable (mesh_of corners.now links.now n vertices.now v) firsts.now normals.now ring.old ns.old) × (i < v) }
    ensures { result ≡ shrunk_at (mesh_of corners.now links.now n vertices.now v) by i }
{
    let from = vertex_at(vertices, i);
    // A vertex without a side has the word 0xffff_ffff in the lent buffer, which has no room for an Option (fixed memory).
    let side = wide(firsts[i]);
    if side == 0xffff_ffff {
        return from;
    }
    let poly = side / 3;
    let count = crate::ring::ring(corners, links, n, i as u32, side, ring);
    gather(normals, poly, ring, count, ns);
    crate::moving::moved(ns, count + 1, Push { from: from, by: by })
}

// All the vertices, moved by the margin. The slice is as long as the points' words.
pub fn by_margin(
    corners: &[u32],
    links: &[u32],
    n: usize,
    vertices: &[u32],
    v: usize,
    firsts: &[u32],
    normals: &[f32],
    margin: f32,
    ring: &mut [u32],
    ns: &mut [f32],
    points: &mut [u32],
)
    requires { (Movable (mesh_of corners.now links.now n vertices.now v) firsts.now normals.now ring.old ns.old)
        × (length points.old ≡ 3 * v) }
    ensures { points.new ≡ by_margin (mesh_of corners.now links.now n vertices.now v) margin }
{
    let by = -margin;
    for i in 0..v {
        put_point(
            points,
            i,
            shrunk_at(
                corners, links, n, vertices, v, firsts, normals, by, i, ring, ns,
            ),
        );
    }
}
