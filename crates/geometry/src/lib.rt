// Preparing a mesh of kind 4: the checks, and what follows where they pass.
#![tactic(auto)]

ghost use Rattle.meshes.specs.Meshes.{mesh_of};
ghost use Rattle.prepared.specs.Answers.{lists, hull, geometry_work, geometry_lengths, GeometryAnswered};

use checked_geometry::prepare_checked;
use meshes::checking::refusal_as;
use meshes::kind::Kind;
use meshes::{Bound, BvhLengths, Counts, Lengths, PrepareRefusal};
use prepared::Prepared;

// Prepares a mesh of kind 4. What kind 8 alone is lent is told by its lengths, so that both kinds ask for the same buffers.
pub fn prepare_geometry(
    bound: Bound,
    counts: Counts,
    others: BvhLengths,
    polygons: &[u8],
    numbers: &[u8],
    mats: &[u32],
    vertices: &[u32],
    list: &mut [u8],
    indices: &mut [u8],
    polygons_out: &mut [u8],
    stored: &mut [u8],
    floats: &mut [u32],
    shrunk: &mut [u8],
    shrunk_floats: &mut [u32],
    octants: &mut [u32],
    entries: &mut [u32],
    places: &mut [u32],
    temp: &mut [u32],
    stack: &mut [u32],
    rows: &mut [u32],
    points: &mut [u32],
    centres: &mut [f32],
    olds: &mut [f32],
    news: &mut [f32],
) -> Result<Prepared, PrepareRefusal>
    ensures { GeometryAnswered (mesh_of bound counts polygons.now numbers.now mats.now vertices.now)
        (geometry_lengths (mesh_of bound counts polygons.now numbers.now mats.now vertices.now)
        (lists list.old indices.old polygons_out.old stored.old floats.old)
        (hull shrunk.old shrunk_floats.old octants.old)
        (geometry_work entries.old places.old temp.old stack.old rows.old points.old
        centres.old olds.old news.old) others) result
        (lists list.old indices.old polygons_out.old stored.old floats.old)
        (lists list.new indices.new polygons_out.new stored.new floats.new)
        (hull shrunk.old shrunk_floats.old octants.old)
        (hull shrunk.new shrunk_floats.new octants.new) }
{
    let lengths = Lengths {
        polygons: polygons.len(),
        numbers: numbers.len(),
        mats: mats.len(),
        vertices: vertices.len(),
        list: list.len(),
        indices: indices.len(),
        polygons_out: polygons_out.len(),
        stored: stored.len(),
        floats: floats.len(),
        shrunk: shrunk.len(),
        shrunk_floats: shrunk_floats.len(),
        octants: octants.len(),
        node_bytes: others.node_bytes,
        tree_bytes: others.tree_bytes,
        order: others.order,
        entries: entries.len(),
        places: places.len(),
        temp: temp.len(),
        stack: stack.len(),
        rows: rows.len(),
        points: points.len(),
        sorted: others.sorted,
        centres: centres.len(),
        olds: olds.len(),
        news: news.len(),
    };
    refusal_as(
        Kind::Geometry,
        bound,
        counts,
        lengths,
        polygons,
        numbers,
        mats,
    )?;
    Ok(prepare_checked(
        bound,
        counts,
        others,
        polygons,
        numbers,
        mats,
        vertices,
        list,
        indices,
        polygons_out,
        stored,
        floats,
        shrunk,
        shrunk_floats,
        octants,
        entries,
        places,
        temp,
        stack,
        rows,
        points,
        centres,
        olds,
        news,
    ))
}
