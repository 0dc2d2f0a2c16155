// Sixteen queries over a list.
ghost use Rattle.std.specs.Prelude.{◌≡◌, ◌<◌, ◌≤◌};
ghost use Rattle.pairs.specs.Drawing.{below_of, wide_of, at_box, query_box};

use crate::draw::{Shape, drawn_box, next};
use crate::lists::{box_of, cube};
use base::numbers::Place;
use math::aabb::Aabb;
use math::vec3::vadd_f;

// Infinite, inverted and infinite, half infinite, with no number, around all boxes, and beyond them.
fn wide(k: u32, grain: f32) -> Aabb
    ensures { result ≡ wide_of k grain }
{
    let infinity = float32::words::value(0x7f80_0000);
    let least = float32::words::value(0xff80_0000);
    let nan = float32::words::value(0x7fc0_0000);
    match k {
        0 => cube(least, infinity),
        1 => cube(infinity, least),
        2 => cube(least, 0.0),
        3 => cube(nan, nan),
        4 => cube(-1000.0 * grain, 100000.0 * grain),
        _ => cube(100000.0 * grain, 200000.0 * grain),
    }
}

// An entry's box itself, one that touches its greatest corner and one that touches its least, the box inverted, and each of the two corners.
fn at_box(k: u32, near: Aabb, grain: f32) -> Aabb
    ensures { result ≡ at_box k near grain }
{
    let min = near.min;
    let max = near.max;
    match k {
        6 => near,
        7 => Aabb {
            min: max,
            max: vadd_f(max, grain),
        },
        8 => Aabb {
            min: vadd_f(min, -grain),
            max: min,
        },
        9 => Aabb { min: max, max: min },
        10 => Aabb { min: min, max: min },
        _ => Aabb { min: max, max: max },
    }
}

// A place in a list of n; 0 where n is 0.
fn place_of(s: u32, n: usize) -> Place
    requires { n ≤ 700 }
    ensures result_bound { result.0 < 700 }
    ensures result_value { result.0 ≡ below_of s n }
{
    if n == 0 {
        return Place(0);
    }
    Place(s / 65536 % n as u32)
}

// Query k: from 12 on a box that is drawn as the list's are.
pub fn query(k: u32, list: &[u32; 4900], shape: Shape, s: u32) -> Aabb
    requires { shape.n ≤ 700 }
    ensures { result ≡ query_box k list.now shape s }
{
    if k < 6 {
        return wide(k, shape.grain);
    }
    if k < 12 {
        let place = place_of(next(s), shape.n);
        return at_box(k, box_of(list, place), shape.grain);
    }
    drawn_box(s, shape)
}
