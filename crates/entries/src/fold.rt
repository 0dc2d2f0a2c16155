// The box around a node's items.
ghost use Rattle.std.specs.Prelude.{true, false, ◌||◌, ◌≡◌, length};
ghost use Rattle.std.specs.Float.{binary32};
ghost use Rattle.std.specs.Float.Ieee.{to_bits, is_nan};
ghost use Rattle.entries.specs.Boxes.{box_at};
ghost use Rattle.entries.specs.Folding.{fold_step, fold_box};
ghost use Rattle.math.specs.Stored.{values_of, bits_of};
ghost use Rattle.base.specs.Lists.{Within};
ghost use Rattle.entries.specs.Plain.{Plain};
ghost use Rattle.entries.specs.Steps.Totals.{any_nan};

use crate::boxes::BoxWords;
use base::numbers::Place;
use math::vec3::Vec3;
use math::words3::Words3;

fn fold_step(acc: BoxWords, b: BoxWords) -> BoxWords
    ensures { result ≡ fold_step acc b }
{
    BoxWords {
        min: math::words3::vmin_words(acc.min, b.min),
        max: math::words3::vmax_words(acc.max, b.max),
    }
}

// The fold of the places' boxes, in their order, word by word: a NaN keeps its bits.
pub fn fold_words(entries: &[u32], places: &[u32]) -> BoxWords
    requires { Within (length entries.now) places.now }
    ensures { result ≡ fold_box (box_at entries.now) places.now }
{
    let mut acc = crate::boxes::start_box();
    for p in places {
        acc = fold_step(acc, crate::boxes::box_at(entries, Place(*p)));
    }
    acc
}

#[tactic(auto, unfolding(crate::specs::Steps::Totals::any_nan))]
fn any_nan(v: Vec3) -> bool
    ensures { result ≡ any_nan v }
{
    v.x.is_nan() || v.y.is_nan() || v.z.is_nan()
}

// Whether the fold has a NaN: where no entry has one, it has none, and nothing is tested.
fn has_nan(low: Vec3, high: Vec3, plain: bool) -> bool
    requires { plain ≡ true → (any_nan low || any_nan high) ≡ false }
    ensures { result ≡ (any_nan low || any_nan high) }
{
    !plain && (any_nan(low) || any_nan(high))
}

// The word of a float that is no NaN.
fn number_word(x: f32) -> u32
    requires { is_nan x ≡ false }
    ensures { result ≡ to_bits binary32 x }
{
    x.to_bits()
}

// The words of floats of which none is a NaN.
fn number_words(v: Vec3) -> Words3
    requires { any_nan v ≡ false }
    ensures { result ≡ bits_of v }
{
    Words3 {
        x: number_word(v.x),
        y: number_word(v.y),
        z: number_word(v.z),
    }
}

// The words of the fold, of which the floats are known. A number has one word; a NaN's is found by the fold of the words.
pub fn fold_by_value(
    entries: &[u32],
    places: &[u32],
    low: Vec3,
    high: Vec3,
    plain: bool,
) -> BoxWords
    requires { (Within (length entries.now) places.now) × (low ≡ values_of (fold_box (box_at entries.now) places.now).min)
        × (high ≡ values_of (fold_box (box_at entries.now) places.now).max) × (Plain plain entries.now) }
    ensures { result ≡ fold_box (box_at entries.now) places.now }
{
    if has_nan(low, high, plain) {
        return fold_words(entries, places);
    }
    BoxWords {
        min: number_words(low),
        max: number_words(high),
    }
}

// The fold of the places' boxes, in their order.
pub fn fold_box(entries: &[u32], places: &[u32], plain: bool) -> BoxWords
    requires { (Within (length entries.now) places.now) × (Plain plain entries.now) }
    ensures { result ≡ fold_box (box_at entries.now) places.now }
{
    let t = crate::totals::total(entries, places, plain);
    fold_by_value(
        entries,
        places,
        crate::totals::low_of(t),
        crate::totals::high_of(t),
        plain,
    )
}
