// Whether a margin moves no vertex. Where a triangle has a corner past the vertices it passes only then.
ghost use Rattle.std.specs.Prelude.{◌≡◌, ◌*◌, length};
ghost use Rattle.rings.specs.Meshes.{mesh_of};
ghost use Rattle.rings.specs.Steps.Gathering.{Movable};
ghost use Rattle.trial.specs.Steps.Trying.{Stayed};

use points::vertex_at;

// The vertices are moved one by one, up to the first that is not where it was: where there is none the points are whole.
pub fn all_stay(
    corners: &[u32],
    links: &[u32],
    n: usize,
    vertices: &[u32],
    v: usize,
    firsts: &[u32],
    normals: &[f32],
    margin: f32,
    ring: &mut [u32],
    ns: &mut [f32],
    points: &mut [u32],
) -> bool
    requires { (Movable (mesh_of corners.now links.now n vertices.now v) firsts.now normals.now ring.old ns.old)
        × (length points.old ≡ 3 * v) }
    ensures { Stayed (mesh_of corners.now links.now n vertices.now v) margin points.new result }
{
    let by = -margin;
    for i in 0..v {
        points::put_point(
            points,
            i,
            rings::vertex::shrunk_at(
                corners, links, n, vertices, v, firsts, normals, by, i, ring, ns,
            ),
        );
        if rays::check::has_moved(vertex_at(vertices, i), vertex_at(points, i)) {
            return false;
        }
    }
    true
}
