// The lists: entries of seven words, a mark and a box.
ghost use Rattle.std.specs.Prelude.{◌≡◌, ◌+◌, ◌*◌, ◌<◌, ◌≤◌, length, slice_index};
ghost use Rattle.std.proofs.lemmas.List.Edits.{sets};
ghost use Rattle.base.specs.Lists.{over};
ghost use Rattle.entries.specs.Boxes.{box_at};
ghost use Rattle.bvh.specs.Items.{is_marked};
ghost use Rattle.tree.specs.Pair.{box_values};
ghost use Rattle.pairs.specs.Drawing.{cube_of, next_of, three_on, is_absent, presence_of, entry_words, entries_on, drawn_entries};

use crate::draw::{Shape, below, drawn_box, next, three_on};
use base::numbers::Place;
use entries::boxes::BoxWords;
use math::aabb::Aabb;
use math::vec3::Vec3;

fn is_absent(s: u32, absent: u32) -> bool
    ensures { result ≡ is_absent s absent }
{
    absent > 0 && below(s, absent) == 0
}

// 1 where an entry is present.
fn presence(s: u32, absent: u32) -> u32
    ensures { result ≡ presence_of s absent }
{
    u32::from(!is_absent(s, absent))
}

// Entry i, from the seven numbers after s; the last of them.
fn put_entry(entries: &mut [u32], i: usize, shape: Shape, s: u32) -> u32
    requires { 7 * i + 7 ≤ length entries.old }
    ensures value { result ≡ three_on (three_on (next_of s)) }
    ensures entries_after { entries.new ≡ sets entries.old (7 * i) (entry_words shape (next_of s)) }
{
    let at = 7 * i;
    let first = next(s);
    let b = drawn_box(first, shape);
    entries[at] = presence(first, shape.absent);
    entries::boxes::put_box(
        entries,
        at + 1,
        BoxWords {
            min: math::words3::bits(b.min),
            max: math::words3::bits(b.max),
        },
    );
    three_on(three_on(first))
}

// All entries; the last number drawn. What stands behind them is kept.
pub fn fill(entries: &mut [u32], shape: Shape) -> u32
    requires { 7 * shape.n ≤ length entries.old }
    ensures value { result ≡ entries_on shape.seed shape.n }
    ensures entries_after { entries.new ≡ over (drawn_entries shape shape.n) entries.old }
{
    let mut s = shape.seed;
    for i in 0..shape.n {
        s = put_entry(entries, i, shape, s);
    }
    s
}

pub fn is_present(list: &[u32; 4900], place: Place) -> bool
    requires { place.0 < 700 }
    ensures { result ≡ is_marked (slice_index list.now (7 * place.0)) }
{
    let at = place.0 as usize;
    list[7 * at] != 0
}

fn as_floats(b: BoxWords) -> Aabb
    ensures { result ≡ box_values b }
{
    Aabb {
        min: math::words3::values(b.min),
        max: math::words3::values(b.max),
    }
}

pub fn box_of(list: &[u32; 4900], place: Place) -> Aabb
    requires { place.0 < 700 }
    ensures { result ≡ box_values (box_at list.now place.0) }
{
    as_floats(entries::boxes::box_at(list, place))
}

// The same on each axis.
pub fn cube(min: f32, max: f32) -> Aabb
    ensures { result ≡ cube_of min max }
{
    Aabb {
        min: Vec3 {
            x: min,
            y: min,
            z: min,
        },
        max: Vec3 {
            x: max,
            y: max,
            z: max,
        },
    }
}

fn of(seed: u32, n: usize, absent: u32, span: u32, depth: u32, side: u32, grain: f32) -> Shape
    requires { n ≤ 700 }
    ensures { result.n ≤ 700 }
{
    Shape {
        seed,
        n,
        absent,
        span,
        depth,
        side,
        grain,
    }
}

// List 0 is empty, 4 has one point 64 times, 5 points of which many are equal, 6 only absent entries, 7 boxes that start on a plane;
// from 7 on the tree has several ranges.
pub fn shape(number: u32) -> Shape
    ensures { result.n ≤ 700 }
{
    let seed = next(number);
    match number {
        0 => of(seed, 0, 0, 50, 50, 10, 1.0),
        1 => of(seed, 1, 0, 50, 50, 10, 1.0),
        2 => of(seed, 2, 0, 50, 50, 10, 0.37),
        3 => of(seed, 5, 0, 200, 200, 90, 0.1),
        4 => of(seed, 64, 0, 1, 1, 1, 3.0),
        5 => of(seed, 65, 0, 8, 8, 1, 0.37),
        6 => of(seed, 65, 1, 50, 50, 10, 1.0),
        7 => of(seed, 200, 5, 100, 1, 9, 1.0),
        8 => of(seed, 700, 7, 1000, 200, 40, 0.1),
        9 => of(seed, 700, 0, 30, 30, 4, 100000000000000000000.0),
        _ => of(seed, 700, 2, 60000, 3, 2000, 0.000000001),
    }
}
