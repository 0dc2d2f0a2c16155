// Kind 4, once the checks are passed: the records linked, the vertices shrunk, listed by octants and stored.
#![tactic(auto)]

ghost use Rattle.prepared.specs.Answers.{hull, geometry_work};
ghost use Rattle.prepared.specs.Steps.Shapes.{GeometryRoom, GeometryShaped};

use geometry_hull::shrink_and_store;
use linking::link_mesh;
use math::vec3::Vec3;
use meshes::{Bound, Counts};
use octants::lists::OctantCounts;

// Kind 4, whole. The slices behind the octants are to work in.
pub fn shape_geometry(
    bound: Bound,
    counts: Counts,
    quantum: Vec3,
    polygons: &[u8],
    vertices: &[u32],
    polygons_out: &mut [u8],
    shrunk: &mut [u8],
    shrunk_floats: &mut [u32],
    octants: &mut [u32],
    entries: &mut [u32],
    places: &mut [u32],
    temp: &mut [u32],
    stack: &mut [u32],
    rows: &mut [u32],
    points: &mut [u32],
    centres: &mut [f32],
    olds: &mut [f32],
    news: &mut [f32],
) -> OctantCounts
    requires { GeometryRoom counts.polygons counts.vertices polygons.now vertices.now polygons_out.old
        (hull shrunk.old shrunk_floats.old octants.old)
        (geometry_work entries.old places.old temp.old stack.old rows.old points.old centres.old olds.old news.old) }
    ensures { GeometryShaped bound counts.polygons counts.vertices quantum polygons.now vertices.now
        polygons_out.old polygons_out.new
        (hull shrunk.old shrunk_floats.old octants.old)
        (hull shrunk.new shrunk_floats.new octants.new) result }
{
    let p = counts.polygons;
    let v = counts.vertices;
    link_mesh(
        polygons,
        p,
        polygons_out,
        entries,
        places,
        temp,
        stack,
        rows,
    );
    if v == 0 {
        return OctantCounts {
            c0: 0,
            c1: 0,
            c2: 0,
            c3: 0,
            c4: 0,
            c5: 0,
            c6: 0,
            c7: 0,
        };
    }
    shrink_and_store(
        bound,
        p,
        v,
        quantum,
        vertices,
        shrunk,
        shrunk_floats,
        octants,
        entries,
        places,
        temp,
        stack,
        rows,
        &mut points[..3 * v],
        centres,
        olds,
        news,
    )
}
