// The records of a tree, as the source keeps them: a box in units of the quantum, then two numbers, 16 bytes in all.
#![tactic(auto)]

pub mod quantise;
pub mod scale;
pub mod shorts;

ghost use Rattle.std.specs.Prelude.{◌≡◌, ◌+◌, ◌≤◌, length};
ghost use Rattle.std.proofs.lemmas.List.Edits.{sets};
ghost use Rattle.records.specs.Records.{vertex_bytes, vertex_at, boxed_bytes, node_bytes, node_at, tree_bytes, tree_at};

// A quantised point. Its numbers never stand for places or positions.
#[repr(C)]
#[derive(Clone, Copy)]
pub struct BoundVertex(pub i16, pub i16, pub i16);

// A leaf's first position and its items; or an inner node's number of nodes, and 0.
#[repr(C)]
#[derive(Clone, Copy)]
pub struct BvhNode {
    pub min: BoundVertex,
    pub max: BoundVertex,
    pub item_id: i16,
    pub item_count: i16,
}

// A range of nodes: its first, and one past its last.
#[repr(C)]
#[derive(Clone, Copy)]
pub struct BvhTree {
    pub min: BoundVertex,
    pub max: BoundVertex,
    pub node_index1: i16,
    pub node_index2: i16,
}

fn put_vertex(out: &mut [u8], at: usize, v: BoundVertex)
    requires { at + 6 ≤ length out.old }
    ensures { out.new ≡ sets out.old at (vertex_bytes v) }
{
    shorts::put_short(out, at, v.0);
    shorts::put_short(out, at + 2, v.1);
    shorts::put_short(out, at + 4, v.2);
}

// What a node and a tree have in common: a box, then two numbers.
fn put_boxed(out: &mut [u8], at: usize, min: BoundVertex, max: BoundVertex, first: i16, second: i16)
    requires { at + 16 ≤ length out.old }
    ensures { out.new ≡ sets out.old at (boxed_bytes min max first second) }
{
    put_vertex(out, at, min);
    put_vertex(out, at + 6, max);
    shorts::put_short(out, at + 12, first);
    shorts::put_short(out, at + 14, second);
}

// The records of nodes and of trees are alike in their bytes and differ in their fields' names, which a trait over both would have to name twice again.
pub fn put_node(out: &mut [u8], at: usize, n: BvhNode)
    requires { at + 16 ≤ length out.old }
    ensures { out.new ≡ sets out.old at (node_bytes n) }
{
    put_boxed(out, at, n.min, n.max, n.item_id, n.item_count);
}

pub fn put_tree(out: &mut [u8], at: usize, t: BvhTree)
    requires { at + 16 ≤ length out.old }
    ensures { out.new ≡ sets out.old at (tree_bytes t) }
{
    put_boxed(out, at, t.min, t.max, t.node_index1, t.node_index2);
}

fn vertex_at(bytes: &[u8], at: usize) -> BoundVertex
    requires { at + 6 ≤ length bytes.now }
    ensures { result ≡ vertex_at bytes.now at }
{
    let x = shorts::short_at(bytes, at);
    let y = shorts::short_at(bytes, at + 2);
    let z = shorts::short_at(bytes, at + 4);
    BoundVertex(x, y, z)
}

pub fn node_at(bytes: &[u8], at: usize) -> BvhNode
    requires { at + 16 ≤ length bytes.now }
    ensures { result ≡ node_at bytes.now at }
{
    BvhNode {
        min: vertex_at(bytes, at),
        max: vertex_at(bytes, at + 6),
        item_id: shorts::short_at(bytes, at + 12),
        item_count: shorts::short_at(bytes, at + 14),
    }
}

pub fn tree_at(bytes: &[u8], at: usize) -> BvhTree
    requires { at + 16 ≤ length bytes.now }
    ensures { result ≡ tree_at bytes.now at }
{
    BvhTree {
        min: vertex_at(bytes, at),
        max: vertex_at(bytes, at + 6),
        node_index1: shorts::short_at(bytes, at + 12),
        node_index2: shorts::short_at(bytes, at + 14),
    }
}
