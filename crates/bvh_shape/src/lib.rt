// What kind 8 makes of the polygons of a mesh: their tree, the polygons in the order of its leaves, and the numbers of their materials in it.
#![tactic(auto)]

ghost use Rattle.std.specs.Prelude.{◌≡◌, ◌<◌, Ok};
ghost use Rattle.bvh.specs.Entry.{outputs};
ghost use Rattle.bvh.specs.declared.slices.BuiltTree.{BuiltTree};
ghost use Rattle.prepared.specs.Answers.{bvh_work};
ghost use Rattle.prepared.specs.Steps.Shapes.{BvhRoom, BvhShapedBy};
ghost use Rattle.bvh_shape.specs.Sorting.{Sortable, Sorted};

use bvh::slices::{BuildRefusal, BuiltTree};
use edges::entry::update_edge_indices;
use meshes::{Bound, Counts};
use rebuild::rebuild_bvh;
use reorder::renumbering::reorder_bytes;

// Links the polygons that stand in the order of the leaves, and puts the numbers of their materials in it; nothing where the tree is refused.
// The links are never refused here.
fn link_and_sort(
    built: Result<BuiltTree, BuildRefusal>,
    p: usize,
    numbers: &[u8],
    polygons_out: &mut [u8],
    order: &[u16],
    entries: &mut [u32],
    places: &mut [u32],
    temp: &mut [u32],
    stack: &mut [u32],
    rows: &mut [u32],
    sorted: &mut [u8],
)
    requires { (t : BuiltTree) → built ≡ Ok t → Sortable p numbers.now polygons_out.old order.now entries.old places.old temp.old
        stack.old rows.old sorted.old }
    ensures { Sorted built p numbers.now order.now polygons_out.old polygons_out.new
        sorted.old sorted.new }
{
    if let Ok(_) = built {
        let _ = update_edge_indices(polygons_out, p, entries, places, temp, stack, rows);
        reorder_bytes(numbers, order, p, sorted);
    }
}

// The tree over the polygons, these in the order of its leaves with their links, and the numbers of their materials in the same order in `sorted`.
// The links that the polygons came with are not made anew before the tree is built: that would leave no trace. No range has more than `limit` nodes.
// There is a polygon: without one there is no tree (01).
pub fn shape_bvh(
    bound: Bound,
    counts: Counts,
    polygons: &[u8],
    numbers: &[u8],
    vertices: &[u32],
    polygons_out: &mut [u8],
    node_bytes: &mut [u8],
    tree_bytes: &mut [u8],
    order: &mut [u16],
    entries: &mut [u32],
    places: &mut [u32],
    temp: &mut [u32],
    stack: &mut [u32],
    rows: &mut [u32],
    points: &mut [u32],
    sorted: &mut [u8],
    centres: &mut [f32],
    limit: usize,
) -> Result<BuiltTree, BuildRefusal>
    requires { (BvhRoom counts.polygons counts.vertices polygons.now numbers.now vertices.now polygons_out.old
        (outputs node_bytes.old tree_bytes.old order.old)
        (bvh_work entries.old places.old temp.old stack.old rows.old points.old sorted.old centres.old)) × (0 < limit) × (0 < counts.polygons) }
    ensures { BvhShapedBy limit bound counts.polygons counts.vertices polygons.now numbers.now vertices.now
        polygons_out.old polygons_out.new
        (outputs node_bytes.old tree_bytes.old order.old)
        (outputs node_bytes.new tree_bytes.new order.new)
        sorted.new result }
{
    let built = rebuild_bvh(
        bound.center,
        bound.transform,
        counts.polygons,
        counts.vertices,
        polygons,
        vertices,
        polygons_out,
        node_bytes,
        tree_bytes,
        order,
        entries,
        places,
        temp,
        stack,
        rows,
        centres,
        points,
        limit,
    );
    link_and_sort(
        built,
        counts.polygons,
        numbers,
        polygons_out,
        order,
        entries,
        places,
        temp,
        stack,
        rows,
        sorted,
    );
    built
}
