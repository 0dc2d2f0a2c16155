// Builds a tree and walks it. The contract is what a server may rely on (point 3 of the request).
ghost use Rattle.std.specs.Prelude.{◌≡◌, ◌*◌, ◌<◌, false, length, take, ◌==◌};
ghost use Rattle.bvh.specs.Entry.{entries_in, outputs, lent};
ghost use Rattle.rows.specs.Positions.{item_at};
ghost use Rattle.tree.specs.Pair.{Paired};
ghost use Rattle.tree.specs.WellFormed.{count_for};

use base::numbers::{Place, Position};
use bvh::slices::{BuildRefusal, BuiltTree};
use math::aabb::Aabb;
use rows::ranges::RANGE_LIMIT;
use walk::slices::{Counts, Refused};
use walk_steps::state::Sizes;

// What was built, and how the walk over its records ended.
#[derive(Clone, Copy)]
pub struct Found {
    pub tree: BuiltTree,
    pub walk: Result<Counts, Refused>,
}

// As item count the entries at threshold 1, else the present items.
fn item_count(threshold: u32, entries: usize, present: usize) -> usize
    ensures { result ≡ count_for threshold entries present }
{
    if threshold == 1 { entries } else { present }
}

// A place as the order list holds it.
fn place_of(stored: u16) -> Place
    ensures { result.0 ≡ stored }
{
    Place(stored as u32)
}

// The place of the item at a position: the position itself at threshold 1, else the order list's entry.
// What a walk over a build hands out lies below the walk's item count, so in the order list where that is asked.
pub fn item_at(position: Position, threshold: u32, order: &[u16]) -> Place
    requires { (threshold == 1) ≡ false → position.0 < length order.now }
    ensures { result.0 ≡ item_at threshold order.now position.0 }
{
    if threshold == 1 {
        return Place(position.0);
    }
    let at = position.0 as usize;
    place_of(order[at])
}

// The tree of the present ones among n entries, seven words each, and which positions of its order the query may meet, into the first places of
// `out`. A build that is refused leaves nothing to walk.
pub fn build_and_walk(
    n: usize,
    threshold: u32,
    query: Aabb,
    entries: &[u32],
    node_bytes: &mut [u8],
    tree_bytes: &mut [u8],
    order: &mut [u16],
    places: &mut [u32],
    temp: &mut [u32],
    stack: &mut [u32],
    rows: &mut [u32],
    centres: &mut [f32],
    out: &mut [u16],
) -> Result<Found, BuildRefusal>
    ensures { Paired (entries_in n (take (7 * n) entries.now)) threshold query
        (lent entries.now places.old temp.old stack.old rows.old centres.old)
        (outputs node_bytes.old tree_bytes.old order.old)
        (outputs node_bytes.new tree_bytes.new order.new)
        out.old out.new result }
{
    let tree = bvh::slices::build_core(
        n,
        threshold,
        RANGE_LIMIT,
        entries,
        node_bytes,
        tree_bytes,
        order,
        places,
        temp,
        stack,
        rows,
        centres,
    )?;
    let sizes = Sizes {
        nodes: tree.nodes,
        trees: tree.trees,
        items: item_count(threshold, n, tree.present),
    };
    let scale = tree.scale;
    let walked = walk::entry::walk_bvh(
        query,
        scale.cen,
        scale.inverse,
        sizes,
        node_bytes,
        tree_bytes,
        out,
    );
    Ok(Found { tree, walk: walked })
}
