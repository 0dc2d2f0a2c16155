// What breaks the premises in one box, and in the box of all: by the numbers of box_fault and extent_fault in specs, which C's bounds_ordinary
// hands on, so there is no Option here.
ghost use Rattle.std.specs.Prelude.{◌≡◌, ◌<◌, from_bits};
ghost use Rattle.std.specs.Float.{binary32};
ghost use Rattle.records.specs.Axis.{extent};
ghost use Rattle.tree.specs.premises.Faults.{sized, sound, failing, size_fault, order_fault, box_fault, extent_fault};

use entries::boxes::BoxWords;
use math::words3::Words3;

// 2^100 and 2^-100
const LARGEST: u32 = 0x7180_0000;

const SMALLEST: u32 = 0x0d80_0000;

// Whether the word's float is finite and at most 2^100 in size.
fn sized(word: u32) -> bool
    ensures { result ≡ sized (from_bits binary32 word) }
{
    float32::signs::abs(float32::words::value(word)) <= float32::words::value(LARGEST)
}

// The number of the first axis whose test fails, counted from `from`, else the rest.
fn failing(from: u32, x: bool, y: bool, z: bool, rest: u32) -> u32
    requires { from < 100 }
    ensures { result ≡ failing from x y z rest }
{
    if x {
        if y {
            if z { rest } else { from + 2 }
        } else {
            from + 1
        }
    } else {
        from
    }
}

fn size_fault(from: u32, w: Words3, rest: u32) -> u32
    requires { from < 100 }
    ensures { result ≡ size_fault from w rest }
{
    failing(from, sized(w.x), sized(w.y), sized(w.z), rest)
}

fn order_fault(b: BoxWords) -> u32
    ensures { result ≡ order_fault b }
{
    let low = math::words3::values(b.min);
    let high = math::words3::values(b.max);
    failing(7, low.x <= high.x, low.y <= high.y, low.z <= high.z, 0)
}

// What breaks the premises in a box: its first value that is not finite or above 2^100 in size, else the first axis with min above max.
pub fn box_fault(b: BoxWords) -> u32
    ensures { result ≡ box_fault b }
{
    size_fault(1, b.min, size_fault(4, b.max, order_fault(b)))
}

fn half_extent(lo: f32, hi: f32) -> f32
    ensures { result ≡ extent lo hi }
{
    let cen = (lo + hi) * 0.5;
    float32::extremes::vmax(float32::signs::abs(lo - cen), float32::signs::abs(hi - cen))
}

// Whether a half extent is 0 or at least 2^-100.
fn sound(q: f32) -> bool
    ensures { result ≡ sound q }
{
    if q == 0.0 {
        return true;
    }
    float32::words::value(SMALLEST) <= q
}

fn sound_between(lo: f32, hi: f32) -> bool
    ensures { result ≡ sound (extent lo hi) }
{
    sound(half_extent(lo, hi))
}

// The first axis on which the half extent of the box is neither 0 nor at least 2^-100.
pub fn extent_fault(b: BoxWords) -> u32
    ensures { result ≡ extent_fault b }
{
    let low = math::words3::values(b.min);
    let high = math::words3::values(b.max);
    let x = sound_between(low.x, high.x);
    let y = sound_between(low.y, high.y);
    let z = sound_between(low.z, high.z);
    failing(10, x, y, z, 0)
}
