// Preparing a mesh of kind 8: the checks, and what follows where they pass, with polygons or without.
#![tactic(auto)]

ghost use Rattle.bvh.specs.Entry.{outputs};
ghost use Rattle.meshes.specs.Meshes.{mesh_of};
ghost use Rattle.prepared.specs.Answers.{lists, bvh_work, bvh_lengths, BvhAnswered};

use checked_bvh::ending::finish_empty;
use checked_bvh::prepare_tree;
use meshes::checking::refusal_as;
use meshes::kind::Kind;
use meshes::{Bound, Counts, GeometryLengths, Lengths, PrepareRefusal};
use prepared::Prepared;

// Prepares a mesh of kind 8. What kind 4 alone is lent is told by its lengths, so that both kinds ask for the same buffers.
// Not one function with `prepare_geometry`: the C functions lend each kind its own buffers, and their contracts say that no other is written.
pub fn prepare_bvh(
    bound: Bound,
    counts: Counts,
    others: GeometryLengths,
    polygons: &[u8],
    numbers: &[u8],
    mats: &[u32],
    vertices: &[u32],
    list: &mut [u8],
    indices: &mut [u8],
    polygons_out: &mut [u8],
    stored: &mut [u8],
    floats: &mut [u32],
    node_bytes: &mut [u8],
    tree_bytes: &mut [u8],
    order: &mut [u16],
    entries: &mut [u32],
    places: &mut [u32],
    temp: &mut [u32],
    stack: &mut [u32],
    rows: &mut [u32],
    points: &mut [u32],
    sorted: &mut [u8],
    centres: &mut [f32],
) -> Result<Prepared, PrepareRefusal>
    ensures { BvhAnswered (mesh_of bound counts polygons.now numbers.now mats.now vertices.now)
        (bvh_lengths (mesh_of bound counts polygons.now numbers.now mats.now vertices.now)
        (lists list.old indices.old polygons_out.old stored.old floats.old)
        (outputs node_bytes.old tree_bytes.old order.old)
        (bvh_work entries.old places.old temp.old stack.old rows.old points.old
        sorted.old centres.old) others) result
        (lists list.old indices.old polygons_out.old stored.old floats.old)
        (lists list.new indices.new polygons_out.new stored.new floats.new)
        (outputs node_bytes.old tree_bytes.old order.old)
        (outputs node_bytes.new tree_bytes.new order.new) }
{
    let lengths = Lengths {
        polygons: polygons.len(),
        numbers: numbers.len(),
        mats: mats.len(),
        vertices: vertices.len(),
        list: list.len(),
        indices: indices.len(),
        polygons_out: polygons_out.len(),
        stored: stored.len(),
        floats: floats.len(),
        shrunk: others.shrunk,
        shrunk_floats: others.shrunk_floats,
        octants: others.octants,
        node_bytes: node_bytes.len(),
        tree_bytes: tree_bytes.len(),
        order: order.len(),
        entries: entries.len(),
        places: places.len(),
        temp: temp.len(),
        stack: stack.len(),
        rows: rows.len(),
        points: points.len(),
        sorted: sorted.len(),
        centres: centres.len(),
        olds: others.olds,
        news: others.news,
    };
    refusal_as(Kind::Bvh, bound, counts, lengths, polygons, numbers, mats)?;
    if counts.polygons == 0 {
        return Ok(finish_empty(
            bound, counts, numbers, mats, vertices, list, indices, stored, floats,
        ));
    }
    prepare_tree(
        bound,
        counts,
        others,
        polygons,
        numbers,
        mats,
        vertices,
        list,
        indices,
        polygons_out,
        stored,
        floats,
        node_bytes,
        tree_bytes,
        order,
        entries,
        places,
        temp,
        stack,
        rows,
        points,
        sorted,
        centres,
    )
}
