// What a build writes into the buffers that it is lent: node records, padding, and the order.
ghost use Rattle.std.specs.Prelude.{◌≡◌, ◌+◌, ◌-◌, ◌*◌, ◌≤◌, ◌<◌, length, get_or};
ghost use Rattle.std.proofs.lemmas.List.Edits.{sets};
ghost use Rattle.base.specs.Lists.{over, Below};
ghost use Rattle.entries.specs.declared.boxes.BoxWords.{BoxWords};
ghost use Rattle.rows.specs.Output.{id_of, node_of, nodes_bytes, pad_node, pad_bytes};
ghost use Rattle.rows.specs.Steps.Decode.{Small, RowsFit};
ghost use Rattle.rows.specs.Steps.Table.{row_at, rows_in};

use base::numbers::{Place, Position};
use records::scale::Scale;
use records::{BoundVertex, BvhNode};

// The places, from the start of the order list on.
pub fn put_order(order: &mut [u16], places: &[u32])
    requires { (length places.now ≤ length order.old) × (Below 65536 places.now) }
    ensures { order.new ≡ over places.now order.old }
{
    for (i, place) in places.iter().enumerate() {
        order[i] = *place as u16;
    }
}

// The place of the item at a position.
fn place_at(leaf_order: &[u32], position: Position) -> Place
    requires { position.0 < length leaf_order.now }
    ensures { result.0 ≡ get_or leaf_order.now position.0 0 }
{
    let at = position.0 as usize;
    Place(leaf_order[at])
}

// A row's id. A leaf's is its first position, but at threshold 1 the place of the item there.
fn item_id(leaf_order: &[u32], threshold: usize, head: u32, count: u32) -> u32
    requires { 0 < count → head < length leaf_order.now }
    ensures { (b : BoxWords) → result ≡ id_of threshold leaf_order.now (record { box = b; head = head; count = count }) }
{
    if count == 0 {
        return head;
    }
    let place = place_at(leaf_order, Position(head));
    if threshold == 1 { place.0 } else { head }
}

// The record of row i.
fn row_node(rows: &[u32], leaf_order: &[u32], scale: Scale, threshold: usize, i: usize) -> BvhNode
    requires { (8 * i + 8 ≤ length rows.now) × (Small threshold leaf_order.now (row_at rows.now i)) }
    ensures { result ≡ node_of scale threshold leaf_order.now (row_at rows.now i) }
{
    let b = crate::table::row_box(rows, i);
    let items = crate::table::row_count(rows, i);
    let id = item_id(
        leaf_order,
        threshold,
        crate::table::row_head(rows, i),
        items,
    );
    let corners = records::quantise::quantise_box(b.min, b.max, scale.cen, scale.inverse);
    let min = corners.min;
    let max = corners.max;
    BvhNode {
        min: min,
        max: max,
        item_id: id as i16,
        item_count: items as i16,
    }
}

// The records of m rows, from the start of the node buffer on.
pub fn put_nodes(
    node_bytes: &mut [u8],
    rows: &[u32],
    m: usize,
    leaf_order: &[u32],
    scale: Scale,
    threshold: usize,
)
    requires { RowsFit threshold m leaf_order.now rows.now node_bytes.old }
    ensures { node_bytes.new ≡ over (nodes_bytes scale threshold leaf_order.now (rows_in m rows.now))
        node_bytes.old }
{
    for i in 0..m {
        records::put_node(
            node_bytes,
            16 * i,
            row_node(rows, leaf_order, scale, threshold, i),
        );
    }
}

fn pad_node() -> BvhNode
    ensures { result ≡ pad_node }
{
    BvhNode {
        min: BoundVertex(0, 0, 0),
        max: BoundVertex(0, 0, 0),
        item_id: 1,
        item_count: 0,
    }
}

// Padding in the place of the records from `from` up to `upto`.
pub fn pad_nodes(node_bytes: &mut [u8], from: usize, upto: usize)
    requires { (from ≤ upto) × (16 * upto ≤ length node_bytes.old) }
    ensures { node_bytes.new ≡ sets node_bytes.old (16 * from) (pad_bytes (upto - from)) }
{
    for i in from..upto {
        records::put_node(node_bytes, 16 * i, pad_node());
    }
}
