// The parts of the box of a polygon by the floats of its vertices, as two runs of four: four lanes at a time are tested, folded and stored,
// and a caller reads each run as it was stored. Where one of the floats is a NaN, whose bits a float does not tell, the box is not told.
// The tests stand in the functions that C calls, since a box that a function returns from two places is copied once more.
#![tactic(auto)]

ghost use Rattle.std.specs.Prelude.{true, false, ◌||◌, ◌≡◌, ◌⊎◌, ◌+◌, ◌*◌, ◌≤◌, ◌<◌, length};
ghost use Rattle.std.specs.Float.Ieee.{is_nan};
ghost use Rattle.float_boxes.specs.Floats.{four_floats, vertices_at, nan_in, lesser_of, greater_of, plus_of, moved_of, told_box, not_told};
ghost use Rattle.float_boxes.specs.Floats.{box_of_three, nan_in_three, least_of, greatest_of, nan_in_sums};

use float32::extremes::{vmax as vmax_float, vmin as vmin_float};
use math::vec3::{Vec3, vadd_f, vmax, vmin};

// Behind each corner is a spare float: what the fourth lane has where the other three have the corner. `told` is 1 where the box is told: a number, since the C header has one.
#[repr(C)]
#[derive(Clone, Copy)]
pub struct FloatBox {
    pub min: Vec3,
    pub spare_min: f32,
    pub max: Vec3,
    pub spare_max: f32,
    pub told: u32,
}

// A vertex and the float behind it.
#[derive(Clone, Copy)]
pub struct Floats4 {
    pub vertex: Vec3,
    pub next: f32,
}

#[derive(Clone, Copy)]
pub struct Vertices4 {
    pub a: Floats4,
    pub b: Floats4,
    pub c: Floats4,
    pub d: Floats4,
}

fn four_floats(vertices: &[f32], i: u32) -> Floats4
    requires { 3 * i + 4 ≤ length vertices.now }
    ensures { result ≡ four_floats vertices.now i }
{
    let at = 3 * (i as usize);
    Floats4 {
        vertex: Vec3 {
            x: vertices[at],
            y: vertices[at + 1],
            z: vertices[at + 2],
        },
        next: vertices[at + 3],
    }
}

fn either_nan(a: f32, b: f32) -> bool
    ensures { result ≡ (is_nan a || is_nan b) }
{
    (a != a) | (b != b)
}

// Lane by lane: one comparison of four lanes tells it.
fn nan_in(a: Floats4, b: Floats4) -> bool
    ensures { result ≡ nan_in a b }
{
    (either_nan(a.vertex.x, b.vertex.x) | either_nan(a.vertex.y, b.vertex.y))
        | (either_nan(a.vertex.z, b.vertex.z) | either_nan(a.next, b.next))
}

fn lesser(a: Floats4, b: Floats4) -> Floats4
    ensures { result ≡ lesser_of a b }
{
    Floats4 {
        vertex: vmin(a.vertex, b.vertex),
        next: vmin_float(a.next, b.next),
    }
}

fn greater(a: Floats4, b: Floats4) -> Floats4
    ensures { result ≡ greater_of a b }
{
    Floats4 {
        vertex: vmax(a.vertex, b.vertex),
        next: vmax_float(a.next, b.next),
    }
}

fn plus(a: Floats4, b: Floats4) -> Floats4
    ensures { result ≡ plus_of a b }
{
    Floats4 {
        vertex: a.vertex.add(b.vertex),
        next: a.next + b.next,
    }
}

fn moved(a: Floats4, by: f32) -> Floats4
    ensures { result ≡ moved_of a by }
{
    Floats4 {
        vertex: vadd_f(a.vertex, by),
        next: a.next + by,
    }
}

fn told_box(min: Floats4, max: Floats4) -> FloatBox
    ensures { result ≡ told_box min max }
{
    let least = min.vertex;
    let greatest = max.vertex;
    FloatBox {
        min: least,
        spare_min: min.next,
        max: greatest,
        spare_max: max.next,
        told: 1,
    }
}

pub fn not_told() -> FloatBox
    ensures { result ≡ not_told }
{
    let zero = Vec3 {
        x: 0.0,
        y: 0.0,
        z: 0.0,
    };
    FloatBox {
        min: zero,
        spare_min: 0.0,
        max: zero,
        spare_max: 0.0,
        told: 0,
    }
}

// Whether all four are vertices of a list of so many floats, with a float behind each.
pub fn within(i: u32, j: u32, k: u32, l: u32, floats: usize) -> bool
    ensures { (result ≡ true → (3 * i + 4 ≤ floats) × (3 * j + 4 ≤ floats) × (3 * k + 4 ≤ floats) × (3 * l + 4 ≤ floats))
        × (result ≡ false → ((floats < 3 * i + 4) ⊎ (floats < 3 * j + 4)) ⊎ ((floats < 3 * k + 4) ⊎ (floats < 3 * l + 4))) }
{
    3 * (i.max(j).max(k.max(l)) as usize) + 4 <= floats
}

pub fn vertices_at(vertices: &[f32], i: u32, j: u32, k: u32, l: u32) -> Vertices4
    requires { (3 * i + 4 ≤ length vertices.now) × (3 * j + 4 ≤ length vertices.now) × (3 * k + 4 ≤ length vertices.now)
        × (3 * l + 4 ≤ length vertices.now) }
    ensures { result ≡ vertices_at vertices.now i j k l }
{
    let a = four_floats(vertices, i);
    let b = four_floats(vertices, j);
    let c = four_floats(vertices, k);
    let d = four_floats(vertices, l);
    Vertices4 { a, b, c, d }
}

pub fn nan_in_three(v: Vertices4) -> bool
    ensures { result ≡ nan_in_three v }
{
    nan_in(v.a, v.b) | nan_in(v.b, v.c)
}

pub fn box_of_three(v: Vertices4) -> FloatBox
    ensures { result ≡ box_of_three v }
{
    let min = lesser(lesser(v.a, v.b), v.c);
    let max = greater(greater(v.a, v.b), v.c);
    told_box(min, max)
}

fn least(v: Vertices4, low: f32) -> Floats4
    ensures { result ≡ least_of v low }
{
    moved(lesser(lesser(lesser(v.a, v.b), v.c), v.d), -low)
}

fn greatest(v: Vertices4, high: f32) -> Floats4
    ensures { result ≡ greatest_of v high }
{
    moved(greater(greater(greater(v.a, v.b), v.c), v.d), high)
}

// One test for all: a sum with a NaN is one.
pub fn nan_in_sums(v: Vertices4, low: f32, high: f32) -> bool
    ensures { result ≡ nan_in_sums v low high }
{
    let all = plus(plus(v.a, v.b), plus(v.c, v.d));
    let corners = plus(least(v, low), greatest(v, high));
    nan_in(all, corners)
}

pub fn moved_box(v: Vertices4, low: f32, high: f32) -> FloatBox
    ensures { result ≡ told_box (least_of v low) (greatest_of v high) }
{
    let min = least(v, low);
    let max = greatest(v, high);
    told_box(min, max)
}
