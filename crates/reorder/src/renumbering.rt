// The records in the order, with their links renumbered; and the numbers of the polygons' materials in it.
ghost use Rattle.std.specs.Prelude.{◌≡◌, ◌+◌, ◌*◌, ◌≤◌, ◌<◌, length, get_or, take, set};
ghost use Rattle.std.proofs.lemmas.List.Edits.{sets};
ghost use Rattle.base.specs.Lists.{over, Below};
ghost use Rattle.polygon.specs.Polygons.{polygon_bytes, polygon_at};
ghost use Rattle.polygon.specs.declared.Polygon.TheVariants.{Triangle};
ghost use Rattle.reorder.specs.Reordering.{in_order, renumbered, new_link, relinked, rebuilt_records, rebuilt_of};
ghost use Rattle.reorder.specs.Steps.Lent.{Reorderable, Rebuildable};

use crate::lookup::{fill_lookup, place_at, position_of};
use base::numbers::{Place, Position};
use polygon::Polygon;
use polygon::halves::{half_of, short_of};
use polygon::reading::polygon_at;
use polygon::writing::put_polygon;

// The new number of a link; none where it leads past the polygons: 65535 and no Option, since rule K3 (`renumbered`) writes it into the record.
fn renumbered(lookup: &[u32], old: u16) -> u16
    requires { Below 65536 lookup.now }
    ensures { result ≡ renumbered lookup.now old }
{
    if old as usize >= lookup.len() {
        return 65535;
    }
    position_of(lookup, Place(old as u32)).0 as u16
}

fn new_link(lookup: &[u32], e: i16) -> i16
    requires { Below 65536 lookup.now }
    ensures { result ≡ new_link lookup.now e }
{
    short_of(renumbered(lookup, half_of(e)))
}

fn relinked_triangle(
    lookup: &[u32],
    area: f32,
    nan: u32,
    v1: u16,
    v2: u16,
    v3: u16,
    e1: i16,
    e2: i16,
    e3: i16,
) -> Polygon
    requires { Below 65536 lookup.now }
    ensures { result ≡ Triangle area nan v1 v2 v3 (new_link lookup.now e1) (new_link lookup.now e2)
        (new_link lookup.now e3) }
{
    Polygon::Triangle {
        area,
        nan,
        v1,
        v2,
        v3,
        e1: new_link(lookup, e1),
        e2: new_link(lookup, e2),
        e3: new_link(lookup, e3),
    }
}

// The polygon with its links renumbered: only a triangle has any.
fn relinked(lookup: &[u32], p: Polygon) -> Polygon
    requires { Below 65536 lookup.now }
    ensures { result ≡ relinked lookup.now p }
{
    match p {
        Polygon::Triangle {
            area,
            nan,
            v1,
            v2,
            v3,
            e1,
            e2,
            e3,
        } => relinked_triangle(lookup, area, nan, v1, v2, v3, e1, e2, e3),
        Polygon::Sphere { index, radius, nan } => Polygon::Sphere { index, radius, nan },
        Polygon::Capsule {
            i1,
            i2,
            radius,
            nan,
        } => Polygon::Capsule {
            i1,
            i2,
            radius,
            nan,
        },
        Polygon::Box { i1, i2, i3, i4 } => Polygon::Box { i1, i2, i3, i4 },
        Polygon::Cylinder {
            i1,
            i2,
            radius,
            nan,
        } => Polygon::Cylinder {
            i1,
            i2,
            radius,
            nan,
        },
    }
}

// The record of the polygon at an old place, at its new position.
fn move_record(polygons: &[u8], old: Place, lookup: &[u32], out: &mut [u8], new: Position)
    requires { (16 * old.0 + 16 ≤ length polygons.now) × (16 * new.0 + 16 ≤ length out.old) × (Below 65536 lookup.now) }
    ensures { out.new ≡ sets out.old (16 * new.0)
        (polygon_bytes (relinked lookup.now (polygon_at polygons.now (16 * old.0)))) }
{
    let p = polygon_at(polygons, 16 * old.0 as usize);
    put_polygon(out, 16 * new.0 as usize, relinked(lookup, p));
}

// The records of n polygons in the order.
pub fn reorder(polygons: &[u8], order: &[u16], n: usize, lookup: &[u32], out: &mut [u8])
    requires { Reorderable n order.now lookup.now polygons.now out.old }
    ensures { out.new ≡ over (rebuilt_records n (take n order.now) lookup.now polygons.now)
        out.old }
{
    for i in 0..n {
        let new = Position(i as u32);
        move_record(polygons, place_at(order, new), lookup, out, new);
    }
}

// The same by the lookup of the order, which is made first, in the first n words of `lookup`.
pub fn rebuild_records(polygons: &[u8], order: &[u16], n: usize, lookup: &mut [u32], out: &mut [u8])
    requires { Rebuildable n order.now lookup.old polygons.now out.old }
    ensures { out.new ≡ over (rebuilt_of n (take n order.now) polygons.now) out.old }
{
    fill_lookup(order, n, lookup);
    reorder(polygons, order, n, &lookup[..n], out);
}

fn number_at(numbers: &[u8], old: Place) -> u8
    requires { old.0 < length numbers.now }
    ensures { result ≡ get_or numbers.now old.0 0 }
{
    numbers[old.0 as usize]
}

// A number for each of n polygons, in the order.
pub fn reorder_bytes(numbers: &[u8], order: &[u16], n: usize, out: &mut [u8])
    requires { (n ≤ 32767) × (n ≤ length order.now) × (n ≤ length out.old) × (Below (length numbers.now) (take n order.now)) }
    ensures { out.new ≡ over (in_order (take n order.now) numbers.now) out.old }
{
    for i in 0..n {
        out[i] = number_at(numbers, place_at(order, Position(i as u32)));
    }
}
