// Rules S1 to S9 together, over the corners and links of a mesh.
ghost use Rattle.std.specs.Prelude.{◌≡◌};
ghost use Rattle.rings.specs.Meshes.{mesh_of};
ghost use Rattle.shrink.specs.Shrinking.{Shrunk as ByMargin};
ghost use Rattle.shrinking.specs.Whole.{bound_of, infinite_start, ShrunkTo};
ghost use Rattle.shrinking.specs.Steps.Work.{Meshed};

use math::aabb::Aabb;
use math::mat4::Mat4;
use math::vec3::Vec3;
use shrink::whole::Bound;

// What shrinking reads of a geometry: its box, the centre that its vertices are about, its margin, and its transform.
#[repr(C)]
#[derive(Clone, Copy)]
pub struct Geometry {
    pub extent: Aabb,
    pub center: Vec3,
    pub margin: f32,
    pub transform: Mat4,
}

// Whether the margin to begin with is +infinity, which a NaN is not.
pub fn infinite_start(g: Geometry) -> bool
    ensures { result ≡ infinite_start g }
{
    let start = shrink::margin::start_margin(g.margin, g.extent.min, g.extent.max);
    start == float32::words::value(0x7f80_0000)
}

fn bound_of(g: Geometry) -> Bound
    ensures { result ≡ bound_of g }
{
    let extent = g.extent;
    let center = g.center;
    Bound {
        extent: extent,
        center: center,
        margin: g.margin,
    }
}

// Rules S1 to S8, with the triangles laid out and a ring's work at hand.
fn by_margin(
    bound: Bound,
    corners: &[u32],
    links: &[u32],
    n: usize,
    vertices: &[u32],
    v: usize,
    tri: &mut [u32],
    firsts: &mut [u32],
    normals: &mut [f32],
    olds: &mut [f32],
    news: &mut [f32],
    points: &mut [u32],
) -> Option<f32>
    requires { Meshed (mesh_of corners.now links.now n vertices.now v) tri.old firsts.old normals.old olds.old news.old
        points.old }
    ensures { ByMargin bound (mesh_of corners.now links.now n vertices.now v) points.new result }
{
    let t = rays::triangles::compact(corners, n, tri);
    let mut ring = [0u32; 63];
    let mut ns = [0.0f32; 192];
    shrink::whole::shrink(
        bound, tri, t, corners, links, n, vertices, v, firsts, normals, &mut ring, &mut ns, olds,
        news, points,
    )
}

// The margin that passed. Where none does the vertices are shrunk by their normals, and by the margin that is given.
pub fn shrunk_points(
    geometry: Geometry,
    corners: &[u32],
    links: &[u32],
    n: usize,
    vertices: &[u32],
    v: usize,
    tri: &mut [u32],
    firsts: &mut [u32],
    normals: &mut [f32],
    olds: &mut [f32],
    news: &mut [f32],
    points: &mut [u32],
) -> Option<f32>
    requires { Meshed (mesh_of corners.now links.now n vertices.now v) tri.old firsts.old normals.old olds.old news.old
        points.old }
    ensures { ShrunkTo geometry (mesh_of corners.now links.now n vertices.now v) points.new result }
{
    let found = by_margin(
        bound_of(geometry),
        corners,
        links,
        n,
        vertices,
        v,
        tri,
        firsts,
        normals,
        olds,
        news,
        points,
    );
    let Some(margin) = found else {
        by_normals::moving::by_normals(
            corners,
            n,
            vertices,
            v,
            geometry.center,
            geometry.transform,
            geometry.margin,
            points,
        );
        return None;
    };
    Some(margin)
}
