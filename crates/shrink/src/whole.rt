// Rules S1 to S8 together: the vertices of a bound, moved by the first margin that passes, and clamped.
ghost use Rattle.rings.specs.Meshes.{mesh_of};
ghost use Rattle.shrink.specs.Shrinking.{Shrunk};
ghost use Rattle.shrink.specs.Steps.Work.{Shrinkable};

use math::aabb::Aabb;
use math::vec3::Vec3;

// What shrinking reads of a bound: its box, the centre that the vertices are about, and the margin.
#[derive(Clone, Copy)]
pub struct Bound {
    pub extent: Aabb,
    pub center: Vec3,
    pub margin: f32,
}

// Where no margin passes the points are work too, and the vertices are shrunk by their normals (rule S9).
pub fn shrink(
    bound: Bound,
    tri: &[u32],
    t: usize,
    corners: &[u32],
    links: &[u32],
    n: usize,
    vertices: &[u32],
    v: usize,
    firsts: &mut [u32],
    normals: &mut [f32],
    ring: &mut [u32],
    ns: &mut [f32],
    olds: &mut [f32],
    news: &mut [f32],
    points: &mut [u32],
) -> Option<f32>
    requires { Shrinkable (mesh_of corners.now links.now n vertices.now v) tri.now t firsts.old normals.old
        ring.old ns.old olds.old news.old points.old }
    ensures { Shrunk bound (mesh_of corners.now links.now n vertices.now v) points.new result }
{
    rings::normals::put_normals(corners, n, vertices, v, normals);
    rings::firsts::put_firsts(corners, n, v, firsts);
    let bad = rays::check::begin(tri, t, vertices, v, olds);
    let start = crate::margin::start_margin(bound.margin, bound.extent.min, bound.extent.max);
    let margin = crate::search::first_margin(
        bad, tri, t, corners, links, n, vertices, v, firsts, normals, start, olds, ring, ns, news,
        points,
    )?;
    crate::clamp::clamp_points(
        points,
        v,
        crate::clamp::inset(bound.extent, bound.center, margin),
    );
    Some(margin)
}
