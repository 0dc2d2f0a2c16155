// The shrunk vertices of a geometry.
ghost use Rattle.std.specs.Prelude.{◌≡◌, length};
ghost use Rattle.verts_shrunk.specs.Answers.{work_words};
ghost use Rattle.shrink_answers.specs.Interface.{AnsweredIn};

use shrink_answers::ShrinkAnswer;
use shrinking::whole::Geometry;
use verts_shrunk::entry::calculate_verts_shrunk;

// The words and floats that polygons and vertices are shrunk in, all parts together.
#[unsafe(no_mangle)]
pub extern "C" fn bounds_shrink_work_len(polygons: u32, vertices: u32) -> u64
    ensures { result ≡ work_words polygons vertices }
{
    shrink_answers::work_len(polygons, vertices)
}

// Shrinks the vertices, three words each, of polygon records: the points are written to the front of `points`. What it works in is lent in
// eight parts: corners, tri, firsts, spare and links of words, normals, olds and news of floats.
#[unsafe(no_mangle)]
pub extern "C" fn bounds_calculate_verts_shrunk(
    geometry: Geometry,
    polygon_count: usize,
    polygons: &[u8],
    vertex_count: usize,
    vertices: &[u32],
    points: &mut [u32],
    corners: &mut [u32],
    tri: &mut [u32],
    firsts: &mut [u32],
    spare: &mut [u32],
    links: &mut [u32],
    normals: &mut [f32],
    olds: &mut [f32],
    news: &mut [f32],
) -> ShrinkAnswer
    ensures { AnsweredIn geometry polygon_count polygons.now vertex_count vertices.now
        (record {
          polygons = length polygons.now;
          vertices = length vertices.now;
          points = length points.old;
          corners = length corners.old;
          tri = length tri.old;
          firsts = length firsts.old;
          spare = length spare.old;
          links = length links.old;
          normals = length normals.old;
          olds = length olds.old;
          news = length news.old;
        })
        points.old points.new result }
{
    shrink_answers::answer(calculate_verts_shrunk(
        geometry,
        polygon_count,
        polygons,
        vertex_count,
        vertices,
        points,
        corners,
        tri,
        firsts,
        spare,
        links,
        normals,
        olds,
        news,
    ))
}
