// Sides as chains, one for each lower corner: `heads` leads to the first side of each, and `nexts` has for a side its higher corner and what
// leads to the next one. What leads to a side is its number and 1; 0 is the end. No Option: the words are lent by C (`bounds_update_edge_indices`),
// and a word of `nexts` has the corner beside it.
ghost use Rattle.std.specs.Prelude.{◌≡◌, ℕ, ◌+◌, ◌/◌, ◌%◌, ◌≤◌, ◌<◌, length, get_or};
ghost use Rattle.corners.specs.Corners.{next_of, Corners};
ghost use Rattle.sides.specs.Sides.{pair_of, key_of};
ghost use Rattle.side_chains.specs.Steps.Chains.{past_of, CornersBelow, sides_from, Enterable, Chained};

use sides::{NONE, Side};

// The highest corner and one, so far.
fn past_corner(past: u32, corner: u32) -> u32
    requires { corner ≤ 65535 }
    ensures { result ≡ past_of past corner }
{
    if corner == NONE {
        past
    } else if corner < past {
        past
    } else {
        corner + 1
    }
}

// One more than the highest corner of a triangle, 0 where there is none.
pub fn past_corners(corners: &[u32]) -> u32
    requires { Corners corners.now }
    ensures { (result ≤ 32768) × (CornersBelow result corners.now) }
{
    let mut past = 0;
    for corner in corners {
        past = past_corner(past, *corner);
    }
    past
}

// Zero throughout.
pub fn clear(words: &mut [u32])
    ensures { (b : ℕ) → b < length words.old → get_or words.new b 0 ≡ 0 }
{
    words.fill(0);
}

fn lower(a: u32, b: u32) -> u32
    requires { (a < 32768) × (b < 32768) }
    ensures { result ≡ pair_of a b / 32768 }
{
    a.min(b)
}

fn higher(a: u32, b: u32) -> u32
    requires { (a < 32768) × (b < 32768) }
    ensures { result ≡ pair_of a b % 32768 }
{
    a.max(b)
}

// Puts the side before those behind it that have its lower corner, if it is there. It leads to the corner `to`.
fn enter_side(corners: &[u32], side: Side, to: usize, heads: &mut [u32], nexts: &mut [u32])
    requires { (Enterable corners.now heads.old nexts.old) × (side.0 < length corners.now) × (to ≡ next_of side.0)
        × (Chained (key_of corners.now) (sides_from corners.now (side.0 + 1)) heads.old nexts.old) }
    ensures { Chained (key_of corners.now) (sides_from corners.now side.0) heads.new nexts.new }
{
    let s = side.0 as usize;
    let a = corners[s];
    if a != NONE {
        let b = corners[to];
        let low = lower(a, b) as usize;
        nexts[s] = higher(a, b) * 131072 + heads[low];
        heads[low] = side.0 + 1;
    }
}

// Enters all sides, from the last on, polygon by polygon.
pub fn enter_sides(corners: &[u32], heads: &mut [u32], nexts: &mut [u32])
    requires { (Enterable corners.now heads.old nexts.old) × ((b : ℕ) → b < length heads.old → get_or heads.old b 0 ≡ 0) }
    ensures { Chained (key_of corners.now) (sides_from corners.now 0) heads.new nexts.new }
{
    for p in (0..corners.len() / 3).rev() {
        let s = 3 * p;
        enter_side(corners, Side(s as u32 + 2), s, heads, nexts);
        enter_side(corners, Side(s as u32 + 1), s + 2, heads, nexts);
        enter_side(corners, Side(s as u32), s + 1, heads, nexts);
    }
}
