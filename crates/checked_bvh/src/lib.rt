// Preparing a mesh of kind 8 that passed the checks: the tree over its polygons, these in the order of its leaves; then what both kinds end with.
#![tactic(auto)]

pub mod ending;

ghost use Rattle.bvh.specs.Entry.{outputs};
ghost use Rattle.meshes.specs.Meshes.{mesh_of};
ghost use Rattle.prepared.specs.Answers.{lists, bvh_work, bvh_lengths, BvhAnswered};
ghost use Rattle.checked_bvh.specs.Steps.Ending.{Growing};

use crate::ending::finish_tree;
use bvh_shape::shape_bvh;
use meshes::{Bound, Counts, GeometryLengths, PrepareRefusal};
use prepared::Prepared;
use rows::ranges::RANGE_LIMIT;

// Prepares a mesh with polygons that passed the checks.
pub fn prepare_tree(
    bound: Bound,
    counts: Counts,
    others: GeometryLengths,
    polygons: &[u8],
    numbers: &[u8],
    mats: &[u32],
    vertices: &[u32],
    list: &mut [u8],
    indices: &mut [u8],
    polygons_out: &mut [u8],
    stored: &mut [u8],
    floats: &mut [u32],
    node_bytes: &mut [u8],
    tree_bytes: &mut [u8],
    order: &mut [u16],
    entries: &mut [u32],
    places: &mut [u32],
    temp: &mut [u32],
    stack: &mut [u32],
    rows: &mut [u32],
    points: &mut [u32],
    sorted: &mut [u8],
    centres: &mut [f32],
) -> Result<Prepared, PrepareRefusal>
    requires { Growing (mesh_of bound counts polygons.now numbers.now mats.now vertices.now)
        (lists list.old indices.old polygons_out.old stored.old floats.old)
        (outputs node_bytes.old tree_bytes.old order.old)
        (bvh_work entries.old places.old temp.old stack.old rows.old points.old sorted.old centres.old) others }
    ensures { BvhAnswered (mesh_of bound counts polygons.now numbers.now mats.now vertices.now)
        (bvh_lengths (mesh_of bound counts polygons.now numbers.now mats.now vertices.now)
        (lists list.old indices.old polygons_out.old stored.old floats.old)
        (outputs node_bytes.old tree_bytes.old order.old)
        (bvh_work entries.old places.old temp.old stack.old rows.old points.old
        sorted.old centres.old) others) result
        (lists list.old indices.old polygons_out.old stored.old floats.old)
        (lists list.new indices.new polygons_out.new stored.new floats.new)
        (outputs node_bytes.old tree_bytes.old order.old)
        (outputs node_bytes.new tree_bytes.new order.new) }
{
    let built = shape_bvh(
        bound,
        counts,
        polygons,
        numbers,
        vertices,
        polygons_out,
        node_bytes,
        tree_bytes,
        order,
        entries,
        places,
        temp,
        stack,
        rows,
        points,
        sorted,
        centres,
        RANGE_LIMIT,
    );
    finish_tree(
        built, counts, mats, vertices, list, indices, stored, floats, sorted,
    )
}
