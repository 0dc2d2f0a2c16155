// The entry point of a walk.
ghost use Rattle.std.specs.Prelude.{length};
ghost use Rattle.walk.specs.Walks.{walk_of, Promise};

use crate::reader::NodeReader;
use crate::slices::{Counts, Refused};
use math::aabb::Aabb;
use math::vec3::Vec3;
use walk_steps::state::Sizes;

// Which positions the query may meet, into the first places of `out`.
pub fn walk_bvh(
    query: Aabb,
    cen: Vec3,
    inverse: Vec3,
    sizes: Sizes,
    node_bytes: &[u8],
    tree_bytes: &[u8],
    out: &mut [u16],
) -> Result<Counts, Refused>
    ensures { Promise (walk_of query cen inverse sizes node_bytes.now tree_bytes.now (length out.old))
        out.old out.new result }
{
    NodeReader::new(node_bytes).walk(query, cen, inverse, sizes, tree_bytes, out)
}
