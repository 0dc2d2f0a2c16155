// The ranges that a tree's nodes are cut into, found by one scan of its rows.
ghost use Rattle.std.specs.Prelude.{◌≡◌, ◌+◌, ◌*◌, ◌≤◌, ◌<◌, length};
ghost use Rattle.std.proofs.lemmas.List.Edits.{sets};
ghost use Rattle.records.specs.Records.{tree_bytes as bytes_of_tree};
ghost use Rattle.rows.specs.Steps.Flat.{tree_size, Flat, Scannable, TreesPut};
ghost use Rattle.rows.specs.Output.{tree_record};
ghost use Rattle.rows.specs.Tree.{Node};
ghost use Rattle.rows.specs.Steps.Table.{row_at};

use crate::table::{row_box, row_count, row_head};
use records::BvhTree;
use records::scale::Scale;

// Rule R14: no range of a build has more nodes.
pub const RANGE_LIMIT: usize = 127;

// The record of the tree at row `first`, whose nodes end before `last`.
fn put_range(
    tree_bytes: &mut [u8],
    at: usize,
    rows: &[u32],
    first: usize,
    last: usize,
    scale: Scale,
)
    requires { (at + 16 ≤ length tree_bytes.old) × (8 * first + 8 ≤ length rows.now) × (first < 32768) × (last < 32768) }
    ensures { tree_bytes.new ≡ sets tree_bytes.old at
        (bytes_of_tree (tree_record scale (record { box = (row_at rows.now first).box; first = first; last = last }))) }
{
    let b = row_box(rows, first);
    let t = BvhTree {
        min: records::quantise::quantise(b.min, scale.cen, scale.inverse),
        max: records::quantise::quantise(b.max, scale.cen, scale.inverse),
        node_index1: first as i16,
        node_index2: last as i16,
    };
    records::put_tree(tree_bytes, at, t);
}

// How many nodes the tree at row i has.
fn tree_size(rows: &[u32], i: usize) -> usize
    requires { 8 * i + 8 ≤ length rows.now }
    ensures { result ≡ tree_size (row_at rows.now i) }
{
    if row_count(rows, i) == 0 {
        // The leaf of a tree of no items has the count 0 too, and the head 0.
        let head = row_head(rows, i) as usize;
        if 1 < head { head } else { 1 }
    } else {
        1
    }
}

// The records of the ranges of the tree whose m rows the table holds, and how many they are. From the first row on: a tree over `limit` nodes
// is left for its children, any other is a range, and its rows are passed.
pub fn put_trees(tree_bytes: &mut [u8], rows: &[u32], m: usize, scale: Scale, limit: usize) -> usize
    requires { Scannable limit m rows.now tree_bytes.old }
    ensures { (t : Node) → Flat t m rows.now
        → TreesPut limit scale t tree_bytes.old tree_bytes.new result }
{
    let mut i = 0;
    let mut k = 0;
    // No `for` counts `i`: it steps by one or by all rows of a tree.
    while i < m {
        let size = tree_size(rows, i);
        if limit < size {
            i += 1;
        } else {
            put_range(tree_bytes, 16 * k, rows, i, i + size, scale);
            k += 1;
            i += size;
        }
    }
    k
}
