// The node records as the bytes that were lent: the struct is taken apart, and a function on the slice and the number is called.
ghost use Rattle.std.specs.Prelude.{◌≡◌, ◌+◌, ◌*◌, ◌≤◌, length};
ghost use Rattle.records.specs.Records.{node_at};
ghost use Rattle.walk.specs.Walks.{walk_of, Promise};

use crate::slices::{Counts, Refused};
use math::aabb::Aabb;
use math::vec3::Vec3;
use records::BvhNode;
use walk_steps::state::Sizes;

#[derive(Clone, Copy)]
pub struct NodeReader<'a> {
    pub node_bytes: &'a [u8],
}

impl<'a> NodeReader<'a> {
    pub fn new(node_bytes: &'a [u8]) -> NodeReader<'a>
        ensures { result.node_bytes ≡ node_bytes.entry }
    {
        NodeReader { node_bytes }
    }

    // The record of the number given.
    pub fn node(self, number: usize) -> BvhNode
        requires { 16 * number + 16 ≤ length self.node_bytes.now }
        ensures { result ≡ node_at self.entry.node_bytes.now (16 * number) }
    {
        walk_steps::state::node_numbered(self.node_bytes, number)
    }

    // The walk over these nodes.
    pub fn walk(
        self,
        query: Aabb,
        cen: Vec3,
        inverse: Vec3,
        sizes: Sizes,
        tree_bytes: &[u8],
        out: &mut [u16],
    ) -> Result<Counts, Refused>
        ensures { Promise (walk_of query cen inverse sizes self.entry.node_bytes.now tree_bytes.now (length out.old))
            out.old out.new result }
    {
        crate::slices::walk_core(query, cen, inverse, sizes, self.node_bytes, tree_bytes, out)
    }
}

// The node record of the number given, for a caller that has plain bytes.
pub fn read_node(node_bytes: &[u8], number: usize) -> BvhNode
    requires { 16 * number + 16 ≤ length node_bytes.now }
    ensures { result ≡ node_at node_bytes.now (16 * number) }
{
    NodeReader::new(node_bytes).node(number)
}
