// The listing of the child boxes of an input.
ghost use Rattle.std.specs.Prelude.{◌≡◌, ◌*◌, ◌/◌, ◌%◌, ◌≤◌, length};
ghost use Rattle.listing.specs.Lines.{records_text};
ghost use Rattle.listing.specs.Listing.{children_of, listing_of, Listed};
ghost use Rattle.listing.specs.Text.{Put};

use crate::lines::{put_counts, put_lines, put_refusal};
use crate::reading::read_children;
use records::{BvhNode, BvhTree};
use rows::ranges::RANGE_LIMIT;

// The lines of some node and tree records, after that of count and capacity.
fn put_records(
    out: &mut [u8],
    node_bytes: &[u8],
    count: usize,
    capacity: usize,
    tree_bytes: &[u8],
    parts: usize,
) -> usize
    requires { (68760 ≤ length out.old) × (16 * count ≤ length node_bytes.now) × (16 * parts ≤ length tree_bytes.now)
        × (count ≤ 513) × (capacity ≤ 513) × (parts ≤ 513) }
    ensures { Put 68760 (records_text node_bytes.now count capacity tree_bytes.now parts) out.old
        0 out.new result }
{
    let first_node = put_counts(out, 0, count, capacity);
    let first_tree = put_lines::<BvhNode>(out, first_node, node_bytes, count);
    put_lines::<BvhTree>(out, first_tree, tree_bytes, parts)
}

// The listing of an input of at most 256 whole records.
fn put_children(out: &mut [u8], input: &[u8]) -> usize
    requires { (68760 ≤ length out.old) × (length input.now ≤ 8192) × (length input.now % 32 ≡ 0) }
    ensures { Put 68760 (listing_of (children_of input.now)) out.old 0 out.new result }
{
    let n = input.len() / 32;
    let mut entries = [0u32; 1792];
    read_children(&mut entries, input, n);
    let mut node_bytes = [0u8; 8208];
    let mut tree_bytes = [0u8; 8208];
    let mut order = [0u16; 256];
    let mut places = [0u32; 256];
    let mut temp = [0u32; 256];
    let mut stack = [0u32; 256];
    let mut rows = [0u32; 4104];
    let mut centres = [0.0f32; 1024];
    let built = bvh::slices::build_core(
        n,
        1,
        RANGE_LIMIT,
        &entries,
        &mut node_bytes,
        &mut tree_bytes,
        &mut order,
        &mut places,
        &mut temp,
        &mut stack,
        &mut rows,
        &mut centres,
    );
    // So few boxes are not refused.
    let Ok(tree) = built else {
        return 0;
    };
    put_records(
        out,
        &node_bytes,
        tree.nodes,
        tree.capacity,
        &tree_bytes,
        tree.trees,
    )
}

// What `boxes` prints for an input: at the start of `out`, which is else unchanged, and how many bytes it has.
pub fn list_boxes(input: &[u8], out: &mut [u8; 69632]) -> usize
    ensures { Listed input.now out.old out.new result }
{
    if input.len() > 8192 {
        return put_refusal(out, 0, 1);
    }
    if input.len() % 32 != 0 {
        return put_refusal(out, 0, 13);
    }
    put_children(out, input)
}
