// The boxes of a list of polygon records, as the entries that a build takes: seven words each, the mark and the box.
#![tactic(auto)]

ghost use Rattle.std.specs.Prelude.{◌≡◌, ◌+◌, ◌*◌, ◌≤◌, length};
ghost use Rattle.std.proofs.lemmas.List.Edits.{sets};
ghost use Rattle.base.specs.Lists.{over};
ghost use Rattle.polygon.specs.Polygons.{polygon_at};
ghost use Rattle.polygon_boxes.specs.Boxes.{three_box, bbox_of};
ghost use Rattle.polygon_boxes.specs.Numbers.{Numbers};
ghost use Rattle.polygon_items.specs.Items.{item_words, items_of, short, Answered};

use corners::kinds_known;
use math::words3::Words3;
use polygon::PolygonsRefusal;
use polygon::halves::half_at;
use polygon::reading::polygon_at;
use polygon_boxes::numbers::{all_three, high3, low3};
use polygon_boxes::triangles::within;
use polygon_boxes::{PolygonBox, bbox, near_words};

// A present entry with this box, from `at` on.
fn put_item(items: &mut [u32], at: usize, b: PolygonBox)
    requires { at + 7 ≤ length items.old }
    ensures { items.new ≡ sets items.old at (item_words b) }
{
    items[at] = 1;
    items[at + 1] = b.min.x;
    items[at + 2] = b.min.y;
    items[at + 3] = b.min.z;
    items[at + 4] = b.max.x;
    items[at + 5] = b.max.y;
    items[at + 6] = b.max.z;
}

// A present entry with the box of three vertices that have no NaN, from `at` on. A box that were returned would be stored and read again.
fn put_three(items: &mut [u32], at: usize, a: Words3, b: Words3, c: Words3)
    requires { (at + 7 ≤ length items.old) × Numbers a × Numbers b × Numbers c }
    ensures { items.new ≡ sets items.old at (item_words (three_box a b c)) }
{
    items[at] = 1;
    items[at + 1] = low3(a.x, b.x, c.x);
    items[at + 2] = low3(a.y, b.y, c.y);
    items[at + 3] = low3(a.z, b.z, c.z);
    items[at + 4] = high3(a.x, b.x, c.x);
    items[at + 5] = high3(a.y, b.y, c.y);
    items[at + 6] = high3(a.z, b.z, c.z);
}

// The entry of the polygon whose record begins at `from`.
fn put_one(polygons: &[u8], from: usize, vertices: &[u32], items: &mut [u32], at: usize)
    requires { (from + 16 ≤ length polygons.now) × (at + 7 ≤ length items.old) }
    ensures { items.new ≡ sets items.old at (item_words (bbox_of (polygon_at polygons.now from) vertices.now)) }
{
    if half_at(polygons, from) % 8 == 0 {
        let i = half_at(polygons, from + 4) % 32768;
        let j = half_at(polygons, from + 6) % 32768;
        let k = half_at(polygons, from + 8) % 32768;
        if within(i, j, k, vertices.len()) {
            let a = near_words(vertices, i);
            let b = near_words(vertices, j);
            let c = near_words(vertices, k);
            if all_three(a, b, c) {
                put_three(items, at, a, b, c);
                return;
            }
        }
    }
    put_item(items, at, bbox(polygon_at(polygons, from), vertices));
}

// The entries of the first n records.
pub fn put_items(n: usize, polygons: &[u8], vertices: &[u32], items: &mut [u32])
    requires { (16 * n ≤ length polygons.now) × (7 * n ≤ length items.old) }
    ensures { items.new ≡ over (items_of n polygons.now vertices.now) items.old }
{
    for i in 0..n {
        put_one(polygons, 16 * i, vertices, items, 7 * i);
    }
}

// Whether a buffer is too short for n polygons.
fn too_short(n: usize, polygons: usize, items: usize) -> bool
    requires { n ≤ 32767 }
    ensures { result ≡ short n polygons items }
{
    polygons < 16 * n || items < 7 * n
}

// The entries of n records over their vertices, three words each.
pub fn polygon_items(
    n: usize,
    polygons: &[u8],
    vertices: &[u32],
    items: &mut [u32],
) -> Result<(), PolygonsRefusal>
    ensures { Answered n polygons.now vertices.now items.old items.new result }
{
    if n > 32767 {
        return Err(PolygonsRefusal::TooManyPolygons);
    }
    if too_short(n, polygons.len(), items.len()) {
        return Err(PolygonsRefusal::BufferTooShort);
    }
    if !kinds_known(polygons, n) {
        return Err(PolygonsRefusal::UnknownKind);
    }
    put_items(n, polygons, vertices, items);
    Ok(())
}
