// The fold of a node's boxes and their sum, in one pass over the boxes. The fold is by value: that takes no branch and no copy
// of a word, and tells each word but a NaN's.
ghost use Rattle.std.specs.Prelude.{◌≡◌, ◌≤◌, ◌<◌, length, take};
ghost use Rattle.entries.specs.Boxes.{box_at};
ghost use Rattle.entries.specs.Folding.{start_box};
ghost use Rattle.base.specs.Lists.{Within};
ghost use Rattle.entries.specs.Plain.{Plain};
ghost use Rattle.entries.specs.Average.{origin};
ghost use Rattle.entries.specs.Steps.Totals.{totals_by, low_of, sum_of, high_of, totals_of, total_step, totals_from, totals_all};
ghost use Rattle.entries.specs.Steps.Begun.{Begins};

use crate::boxes::Corners;
use base::numbers::Place;
use math::vec3::Vec3;

// The x and the y of a point.
#[derive(Clone, Copy)]
pub struct Plane {
    pub x: f32,
    pub y: f32,
}

// Three numbers on z.
#[derive(Clone, Copy)]
pub struct Heights {
    pub low: f32,
    pub sum: f32,
    pub high: f32,
}

// The least min and the greatest max, and the sum of min and max. Each z stands apart, so that what is stored as a vector of two, an
// x and its y, is read as one; and the sum between the two, since side by side they are compiled into one vector of four, which takes
// longer than two of two.
#[derive(Clone, Copy)]
pub struct Totals {
    pub low: Plane,
    pub sum: Plane,
    pub high: Plane,
    pub z: Heights,
}

fn totals_by(low: Vec3, sum: Vec3, high: Vec3) -> Totals
    ensures { result ≡ totals_by low sum high }
{
    Totals {
        low: Plane { x: low.x, y: low.y },
        sum: Plane { x: sum.x, y: sum.y },
        high: Plane {
            x: high.x,
            y: high.y,
        },
        z: Heights {
            low: low.z,
            sum: sum.z,
            high: high.z,
        },
    }
}

pub fn low_of(t: Totals) -> Vec3
    ensures { result ≡ low_of t }
{
    Vec3 {
        x: t.low.x,
        y: t.low.y,
        z: t.z.low,
    }
}

pub fn sum_of(t: Totals) -> Vec3
    ensures { result ≡ sum_of t }
{
    Vec3 {
        x: t.sum.x,
        y: t.sum.y,
        z: t.z.sum,
    }
}

pub fn high_of(t: Totals) -> Vec3
    ensures { result ≡ high_of t }
{
    Vec3 {
        x: t.high.x,
        y: t.high.y,
        z: t.z.high,
    }
}

fn no_totals() -> Totals
    ensures { result ≡ totals_of start_box origin }
{
    let b = crate::boxes::start_box();
    let zero = Vec3 {
        x: 0.0,
        y: 0.0,
        z: 0.0,
    };
    totals_by(
        math::words3::values(b.min),
        zero,
        math::words3::values(b.max),
    )
}

fn total_step(t: Totals, b: Corners) -> Totals
    ensures { result ≡ total_step t b }
{
    totals_by(
        math::vec3::vmin(low_of(t), b.low),
        sum_of(t).add(b.low).add(b.high),
        math::vec3::vmax(high_of(t), b.high),
    )
}

// The totals so far, and the places' boxes after them, in their order. Compiled into its callers, since a start that is lent is read
// from memory, which a leaf of a few boxes need not.
#[inline(always)]
fn total_on(entries: &[u32], places: &[u32], plain: bool, start: Totals) -> Totals
    requires { (Within (length entries.now) places.now) × (Plain plain entries.now) }
    ensures { result ≡ totals_from (box_at entries.now) start places.now }
{
    let mut t = start;
    for p in places {
        t = total_step(t, crate::boxes::corners_at(entries, Place(*p), plain));
    }
    t
}

// The totals of the places' boxes, in their order.
pub fn total(entries: &[u32], places: &[u32], plain: bool) -> Totals
    requires { (Within (length entries.now) places.now) × (Plain plain entries.now) }
    ensures { result ≡ totals_all (box_at entries.now) places.now }
{
    total_on(entries, places, plain, no_totals())
}

// The totals of a node's first places, `count` of them; where it is 0, none are kept. Of a list that loses a few places on each
// level a child begins as its parent does, and what they begin with need not be added again.
#[derive(Clone, Copy)]
pub struct Begun {
    pub count: usize,
    pub totals: Totals,
}

// What was begun, else the totals of seven eighths of the places.
fn begin(entries: &[u32], places: &[u32], plain: bool, begun: Begun) -> Begun
    requires { (Within (length entries.now) places.now) × (Plain plain entries.now) × (Begins (box_at entries.now) begun places.now) }
    ensures { (result.count ≤ length places.now)
        × (result.totals ≡ totals_all (box_at entries.now) (take result.count places.now)) }
{
    if begun.count > 0 {
        return begun;
    }
    let n = places.len();
    let count = n - n / 8;
    Begun {
        count,
        totals: total(entries, &places[..count], plain),
    }
}

// The totals of the places, and those of what they begin with.
#[derive(Clone, Copy)]
pub struct Gathered {
    pub totals: Totals,
    pub begun: Begun,
}

// Of few places nothing is kept: to add them again takes less.
pub fn gather(entries: &[u32], places: &[u32], plain: bool, begun: Begun) -> Gathered
    requires { (Within (length entries.now) places.now) × (Plain plain entries.now) × (Begins (box_at entries.now) begun places.now) }
    ensures { (result.totals ≡ totals_all (box_at entries.now) places.now)
        × (Begins (box_at entries.now) result.begun places.now) }
{
    let n = places.len();
    if n < 256 {
        return Gathered {
            totals: total(entries, places, plain),
            begun: no_longer(begun),
        };
    }
    let b = begin(entries, places, plain, begun);
    Gathered {
        totals: total_on(entries, &places[b.count..], plain, b.totals),
        begun: b,
    }
}

// Nothing is kept yet.
pub fn not_begun() -> Begun
    ensures { result.count ≡ 0 }
{
    Begun {
        count: 0,
        totals: no_totals(),
    }
}

// Nothing is kept.
pub fn no_longer(begun: Begun) -> Begun
    ensures { result.count ≡ 0 }
{
    Begun { count: 0, ..begun }
}

// What is begun, where it is of the first n places.
pub fn begun_within(begun: Begun, n: usize) -> Begun
    ensures { (result.count ≤ n) × (0 < result.count → result ≡ begun) }
{
    if begun.count <= n {
        return begun;
    }
    no_longer(begun)
}
