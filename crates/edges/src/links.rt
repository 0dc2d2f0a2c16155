// The links of all sides.
ghost use Rattle.std.specs.Prelude.{◌≡◌, ◌≤◌, ◌<◌, length, take};
ghost use Rattle.base.specs.Every.{Every};
ghost use Rattle.sides.specs.Lists.{RisingBy};
ghost use Rattle.sides.specs.Steps.Grouped.{key_in, Sides};
ghost use Rattle.sides.specs.Links.{links_of, Room};
ghost use Rattle.side_chains.specs.Steps.Chains.{Enterable};
ghost use Rattle.sides.specs.Steps.Linked.{Linked};
ghost use Rattle.corners.specs.Corners.{Corners};

use side_chains::chains::{clear, enter_sides, past_corners};
use side_chains::walk::link_chains;
use side_order::grouping::group;
use side_order::runs::link_runs;
use sides::{clear_links, put_keys, put_sides};

// Links each of the sides, which are in their order.
fn link_sides(keys: &[u32], sides: &mut [u32], spare: &mut [u32], links: &mut [u32])
    requires { (Sides keys.now sides.old) × (RisingBy (λ s. s) sides.old) × (Every (λ s. s < length links.old) sides.old)
        × (length spare.old ≡ length sides.old) }
    ensures { Linked (key_in keys.now) sides.old links.old links.new }
{
    group(keys, sides, spare);
    link_runs(keys, spare, links);
}

// The links by the order of the sides' keys: of many vertices, and few triangles. `keys`, `sides` and `spare` are to work in.
fn links_by_order(
    corners: &[u32],
    keys: &mut [u32],
    sides: &mut [u32],
    spare: &mut [u32],
    links: &mut [u32],
)
    requires { (Corners corners.now) × (Room corners.now keys.old sides.old spare.old links.old) }
    ensures { take (length corners.now) links.new ≡ links_of corners.now }
{
    put_keys(corners, keys);
    let k = put_sides(corners, sides);
    clear_links(links, corners.len());
    link_sides(keys, &mut sides[..k], &mut spare[..k], links);
}

// The links by chains of sides, one for each vertex: `heads` and `firsts` have a word for each.
fn links_by_chains(
    corners: &[u32],
    heads: &mut [u32],
    nexts: &mut [u32],
    firsts: &mut [u32],
    links: &mut [u32],
)
    requires { (Enterable corners.now heads.old nexts.old) × (length firsts.old ≡ length heads.old) × (length heads.old ≤ 32768)
        × (length corners.now ≤ length links.old) }
    ensures { take (length corners.now) links.new ≡ links_of corners.now }
{
    clear(heads);
    clear(firsts);
    clear_links(links, corners.len());
    enter_sides(corners, heads, nexts);
    link_chains(heads, nexts, firsts, links);
}

// The links of the sides of triangles, as many as there are corners. `keys`, `sides` and `spare` are to work in.
pub fn links_of(
    corners: &[u32],
    keys: &mut [u32],
    sides: &mut [u32],
    spare: &mut [u32],
    links: &mut [u32],
)
    requires { (Corners corners.now) × (Room corners.now keys.old sides.old spare.old links.old) }
    ensures { take (length corners.now) links.new ≡ links_of corners.now }
{
    let m = past_corners(corners) as usize;
    if m <= corners.len() {
        links_by_chains(corners, &mut keys[..m], sides, &mut spare[..m], links);
    } else {
        links_by_order(corners, keys, sides, spare, links);
    }
}
