// The links of the triangles in a list of records.
ghost use Rattle.std.specs.Prelude.{◌≡◌, ◌*◌, ◌≤◌, length};
ghost use Rattle.edges.specs.Edges.{short, linked, Answered};
ghost use Rattle.edges.specs.Steps.Work.{Work};

use crate::links::links_of;
use corners::{kinds_known, put_links, unpack_corners};
use polygon::PolygonsRefusal;

// The lengths of the lent buffers.
#[derive(Clone, Copy)]
pub struct Lengths {
    pub polygons: usize,
    pub corners: usize,
    pub keys: usize,
    pub sides: usize,
    pub spare: usize,
    pub links: usize,
}

// Whether a buffer is too short for n polygons.
fn too_short(n: usize, l: Lengths) -> bool
    requires { n ≤ 32767 }
    ensures { result ≡ short n l }
{
    let words = 3 * n;
    l.polygons < 16 * n
        || l.corners < words
        || l.keys < words
        || l.sides < words
        || l.spare < words
        || l.links < words
}

// Stores the links of n polygons, with the other slices to work in.
fn link_polygons(
    polygons: &mut [u8],
    n: usize,
    corners: &mut [u32],
    keys: &mut [u32],
    sides: &mut [u32],
    spare: &mut [u32],
    links: &mut [u32],
)
    requires { Work n polygons.old corners.old keys.old sides.old spare.old links.old }
    ensures { polygons.new ≡ linked n polygons.old }
{
    unpack_corners(polygons, n, corners);
    let words = 3 * n;
    links_of(&corners[..words], keys, sides, spare, links);
    put_links(polygons, n, &links[..words]);
}

// Links each side of each of n triangles: to the triangle on the other side of its edge, or to none. The other slices are to work in.
pub fn update_edge_indices(
    polygons: &mut [u8],
    n: usize,
    corners: &mut [u32],
    keys: &mut [u32],
    sides: &mut [u32],
    spare: &mut [u32],
    links: &mut [u32],
) -> Result<(), PolygonsRefusal>
    ensures { Answered n
        (record {
          polygons = length polygons.old;
          corners = length corners.old;
          keys = length keys.old;
          sides = length sides.old;
          spare = length spare.old;
          links = length links.old;
        })
        polygons.old polygons.new result }
{
    if n > 32767 {
        return Err(PolygonsRefusal::TooManyPolygons);
    }
    let lengths = Lengths {
        polygons: polygons.len(),
        corners: corners.len(),
        keys: keys.len(),
        sides: sides.len(),
        spare: spare.len(),
        links: links.len(),
    };
    if too_short(n, lengths) {
        return Err(PolygonsRefusal::BufferTooShort);
    }
    if !kinds_known(polygons, n) {
        return Err(PolygonsRefusal::UnknownKind);
    }
    link_polygons(polygons, n, corners, keys, sides, spare, links);
    Ok(())
}
