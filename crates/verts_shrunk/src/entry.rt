// The shrunk vertices of polygon records over their vertices.
ghost use Rattle.std.specs.Prelude.{◌≡◌, ◌+◌, ◌*◌, ◌≤◌, length};
ghost use Rattle.shrinking.specs.Whole.{mesh_in, ShrunkTo};
ghost use Rattle.verts_shrunk.specs.Answers.{short_of, short, shrunk_by, Answered};
ghost use Rattle.verts_shrunk.specs.Steps.Work.{Lent};

use corners::kinds_known;
use shrinking::whole::{Geometry, infinite_start};

// Why nothing is shrunk.
#[derive(Clone, Copy)]
pub enum ShrinkRefusal {
    TooManyPolygons,
    TooManyVertices,
    BufferTooShort,
    UnknownKind,
    InfiniteMargin,
}

// By what the vertices are shrunk.
#[derive(Clone, Copy)]
pub enum Shrunk {
    ByMargin(f32),
    ByNormals,
    NoVertices,
}

// The margin that passed, or else the normals.
impl From<Option<f32>> for Shrunk {
    ghost from_gives = { λ margin by. by ≡ shrunk_by margin };

    fn from(margin: Option<f32>) -> Shrunk {
        match margin {
            Some(margin) => Shrunk::ByMargin(margin),
            None => Shrunk::ByNormals,
        }
    }
}

// The lengths of the lent buffers, by which the contract of `bounds_calculate_verts_shrunk` says when one is too short.
#[derive(Clone, Copy)]
pub struct Lengths {
    pub polygons: usize,
    pub vertices: usize,
    pub points: usize,
    pub corners: usize,
    pub tri: usize,
    pub firsts: usize,
    pub spare: usize,
    pub links: usize,
    pub normals: usize,
    pub olds: usize,
    pub news: usize,
}

// Whether a buffer of the vertices is too short, or one of the polygons.
fn vertices_short(n: usize, v: usize, l: Lengths) -> bool
    requires { (n ≤ 32767) × (v ≤ 32768) }
    ensures { result ≡ short_of n v l }
{
    l.polygons < 16 * n || l.vertices < 3 * v || l.points < 3 * v || l.firsts < 3 * n + v
}

// Whether a buffer is too short for n polygons and v vertices.
fn too_short(n: usize, v: usize, l: Lengths) -> bool
    requires { (n ≤ 32767) × (v ≤ 32768) }
    ensures { result ≡ short n v l }
{
    let words = 3 * n;
    let rows = 9 * n;
    vertices_short(n, v, l)
        || l.corners < words
        || l.tri < words
        || l.spare < words
        || l.links < words
        || l.normals < words
        || l.olds < rows
        || l.news < rows
}

// The corners and links of the records, and the vertices shrunk over them. The points have room for just the vertices.
fn shrink_polygons(
    geometry: Geometry,
    n: usize,
    polygons: &[u8],
    v: usize,
    vertices: &[u32],
    points: &mut [u32],
    corners: &mut [u32],
    tri: &mut [u32],
    firsts: &mut [u32],
    spare: &mut [u32],
    links: &mut [u32],
    normals: &mut [f32],
    olds: &mut [f32],
    news: &mut [f32],
) -> Option<f32>
    requires { Lent n polygons.now v vertices.now points.old corners.old tri.old firsts.old spare.old links.old normals.old
        olds.old news.old }
    ensures { ShrunkTo geometry (mesh_in n polygons.now v vertices.now) points.new result }
{
    corners::unpack_corners(polygons, n, corners);
    let words = 3 * n;
    edges::links::links_of(&corners[..words], tri, firsts, spare, links);
    shrinking::whole::shrunk_points(
        geometry,
        &corners[..words],
        &links[..words],
        n,
        vertices,
        v,
        tri,
        firsts,
        normals,
        olds,
        news,
        points,
    )
}

// Shrinks v vertices of n polygon records: three words each go to the front of `points`. The slices behind it are to work in.
pub fn calculate_verts_shrunk(
    geometry: Geometry,
    n: usize,
    polygons: &[u8],
    v: usize,
    vertices: &[u32],
    points: &mut [u32],
    corners: &mut [u32],
    tri: &mut [u32],
    firsts: &mut [u32],
    spare: &mut [u32],
    links: &mut [u32],
    normals: &mut [f32],
    olds: &mut [f32],
    news: &mut [f32],
) -> Result<Shrunk, ShrinkRefusal>
    ensures { Answered geometry n polygons.now v vertices.now
        (record {
          polygons = length polygons.now;
          vertices = length vertices.now;
          points = length points.old;
          corners = length corners.old;
          tri = length tri.old;
          firsts = length firsts.old;
          spare = length spare.old;
          links = length links.old;
          normals = length normals.old;
          olds = length olds.old;
          news = length news.old;
        })
        points.old points.new result }
{
    if n > 32767 {
        return Err(ShrinkRefusal::TooManyPolygons);
    }
    if v > 32768 {
        return Err(ShrinkRefusal::TooManyVertices);
    }
    let lengths = Lengths {
        polygons: polygons.len(),
        vertices: vertices.len(),
        points: points.len(),
        corners: corners.len(),
        tri: tri.len(),
        firsts: firsts.len(),
        spare: spare.len(),
        links: links.len(),
        normals: normals.len(),
        olds: olds.len(),
        news: news.len(),
    };
    if too_short(n, v, lengths) {
        return Err(ShrinkRefusal::BufferTooShort);
    }
    if !kinds_known(polygons, n) {
        return Err(ShrinkRefusal::UnknownKind);
    }
    if v == 0 {
        return Ok(Shrunk::NoVertices);
    }
    if infinite_start(geometry) {
        return Err(ShrinkRefusal::InfiniteMargin);
    }
    Ok(Shrunk::from(shrink_polygons(
        geometry,
        n,
        polygons,
        v,
        vertices,
        &mut points[..3 * v],
        corners,
        tri,
        firsts,
        spare,
        links,
        normals,
        olds,
        news,
    )))
}
