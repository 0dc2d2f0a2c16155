// The polygons of a mesh, written and linked; their corners and links stay for whoever works on with them.
#![tactic(auto)]

ghost use Rattle.std.specs.Prelude.{◌≡◌, ◌*◌, ◌≤◌, length};
ghost use Rattle.base.specs.Lists.{over};
ghost use Rattle.linking.specs.Written.{written_of};
ghost use Rattle.linking.specs.Steps.Linking.{LinkRoom, Meshed};

use corners::{put_links, unpack_corners};
use edges::links::links_of;
use polygon::reading::polygon_at;
use polygon::writing::put_polygon;

// The first n records, read and written again; what stands behind them stays.
pub fn put_written(polygons: &[u8], n: usize, out: &mut [u8])
    requires { (n ≤ 32767) × (16 * n ≤ length polygons.now) × (16 * n ≤ length out.old) }
    ensures { out.new ≡ over (written_of n polygons.now) out.old }
{
    for i in 0..n {
        put_polygon(out, 16 * i, polygon_at(polygons, 16 * i));
    }
}

// The records of n polygons, written and linked. `keys`, `sides` and `spare` are to work in.
pub fn link_mesh(
    polygons: &[u8],
    n: usize,
    out: &mut [u8],
    corners: &mut [u32],
    keys: &mut [u32],
    sides: &mut [u32],
    spare: &mut [u32],
    links: &mut [u32],
)
    requires { LinkRoom n polygons.now out.old corners.old keys.old sides.old spare.old links.old }
    ensures { Meshed n polygons.now out.old out.new corners.new links.new }
{
    put_written(polygons, n, out);
    let words = 3 * n;
    unpack_corners(polygons, n, corners);
    links_of(&corners[..words], keys, sides, spare, links);
    put_links(out, n, &links[..words]);
}
