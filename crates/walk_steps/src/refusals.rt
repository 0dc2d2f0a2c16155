// What a walk turns down as it reads a record.
ghost use Rattle.std.specs.Prelude.{◌≡◌, ◌≤◌, ◌<◌, max};
ghost use Rattle.walk_steps.specs.Refusals.{whole, bad_range, bad_node};

use records::{BvhNode, BvhTree};

// What a walk turns down, by 01's number: the first two before it reads, the others as it reads a record.
#[derive(Clone, Copy, Debug, PartialEq, Eq)]
pub enum WalkRefusal {
    TooMany = 1,
    BufferTooShort = 2,
    TreeRange = 9,
    NodeRecord = 10,
    TooManyHandedOut = 11,
}

// v, or 0 where it is below 0.
pub fn number(v: i16) -> usize
    ensures { (result ≡ whole v) × (result < 32768) }
{
    if v < 0 { 0 } else { v as usize }
}

// How far on the node after a missed one is: past all below it.
pub fn skip(id: i16) -> usize
    ensures { (result ≡ max (whole id) 1) × (result < 32768) }
{
    number(id).max(1)
}

// Refusal 9.
pub fn range_refused(t: BvhTree, nodes: usize) -> bool
    ensures { result ≡ bad_range nodes t }
{
    if t.node_index1 < 0 {
        return true;
    }
    if t.node_index2 < t.node_index1 {
        return true;
    }
    nodes < number(t.node_index2)
}

// Refusal 10.
pub fn node_refused(n: BvhNode, at: usize, last: usize, items: usize) -> bool
    requires { at ≤ 65535 }
    ensures { result ≡ bad_node at last items n }
{
    if n.item_count < 0 {
        return true;
    }
    if n.item_id < 0 {
        return true;
    }
    let id = number(n.item_id);
    let count = number(n.item_count);
    if count == 0 {
        last < at + skip(n.item_id)
    } else {
        items < id + count
    }
}
