// The tree over the polygons of a mesh, and the polygons in the order of its leaves.
#![tactic(auto)]

ghost use Rattle.std.specs.Prelude.{◌≡◌, ◌*◌, ◌<◌, ◌≤◌, length, take, Ok};
ghost use Rattle.base.specs.Lists.{over};
ghost use Rattle.bvh.specs.Build.{kept};
ghost use Rattle.bvh.specs.Entry.{outputs, lent, lengths_of};
ghost use Rattle.bvh.specs.declared.slices.BuiltTree.{BuiltTree};
ghost use Rattle.points.specs.Points.{positions_of};
ghost use Rattle.polygon_items.specs.Items.{items_of};
ghost use Rattle.reorder.specs.Reordering.{rebuilt_of};
ghost use Rattle.reorder.specs.Steps.Lent.{Rebuildable};
ghost use Rattle.rebuild.specs.Rebuilding.{polygon_entries, Rebuilt};
ghost use Rattle.rebuild.specs.Steps.Room.{Meshed, BuildRoom};

use bvh::slices::{BuildRefusal, BuiltTree};
use math::mat4::Mat4;
use math::vec3::Vec3;
use points::put_positions;
use polygon_items::put_items;
use reorder::renumbering::rebuild_records;

// Rule K2: a leaf has at most so many polygons.
pub const LEAF_LIMIT: u32 = 4;

// The boxes of p polygons as entries of a build, over v vertices where they stand.
fn put_entries(
    center: Vec3,
    transform: Mat4,
    p: usize,
    v: usize,
    polygons: &[u8],
    vertices: &[u32],
    points: &mut [u32],
    entries: &mut [u32],
)
    requires { (v ≤ 32768) × (3 * v ≤ length vertices.now) × (3 * v ≤ length points.old) × (16 * p ≤ length polygons.now)
        × (7 * p ≤ length entries.old) }
    ensures { entries.new
        ≡ over (items_of p polygons.now (positions_of transform center vertices.now v)) entries.old }
{
    put_positions(vertices, v, center, transform, points);
    let words = 3 * v;
    put_items(p, polygons, &points[..words], entries);
}

// The records in the order of the leaves; none where the build is refused. The words are to work in.
fn put_records(
    built: Result<BuiltTree, BuildRefusal>,
    polygons: &[u8],
    order: &[u16],
    p: usize,
    temp: &mut [u32],
    out: &mut [u8],
)
    requires { (b : BuiltTree) → built ≡ Ok b → Rebuildable p order.now temp.old polygons.now out.old }
    ensures { out.new ≡ kept built (rebuilt_of p (take p order.now) polygons.now) out.old }
{
    if let Ok(_) = built {
        rebuild_records(polygons, order, p, temp, out);
    }
}

// The tree over p polygons with v vertices, and the polygons in the order of its leaves. It is refused only where it has too many nodes, and then
// nothing is written. No range of it has more than `limit` nodes. The work is lent in a build's six parts, and as many words as the vertices have.
// Without polygons there is to be no tree (01), so that one at least is asked for.
pub fn rebuild_bvh(
    center: Vec3,
    transform: Mat4,
    p: usize,
    v: usize,
    polygons: &[u8],
    vertices: &[u32],
    out: &mut [u8],
    node_bytes: &mut [u8],
    tree_bytes: &mut [u8],
    order: &mut [u16],
    entries: &mut [u32],
    places: &mut [u32],
    temp: &mut [u32],
    stack: &mut [u32],
    rows: &mut [u32],
    centres: &mut [f32],
    points: &mut [u32],
    limit: usize,
) -> Result<BuiltTree, BuildRefusal>
    requires { (Meshed p v polygons.now vertices.now out.old points.old)
        × (BuildRoom p (outputs node_bytes.old tree_bytes.old order.old)
        (lent entries.old places.old temp.old stack.old rows.old centres.old)) × (0 < limit) }
    ensures { Rebuilt limit (polygon_entries transform center p v polygons.now vertices.now) p polygons.now
        (lengths_of (outputs node_bytes.old tree_bytes.old order.old)
        (lent entries.old places.old temp.old stack.old rows.old centres.old)) result
        (outputs node_bytes.old tree_bytes.old order.old)
        (outputs node_bytes.new tree_bytes.new order.new)
        out.old out.new }
{
    put_entries(center, transform, p, v, polygons, vertices, points, entries);
    let built = bvh::slices::build_core(
        p, LEAF_LIMIT, limit, entries, node_bytes, tree_bytes, order, places, temp, stack, rows,
        centres,
    );
    put_records(built, polygons, order, p, temp, out);
    built
}
