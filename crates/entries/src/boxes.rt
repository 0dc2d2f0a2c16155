// The box that the list of entries keeps for a place.
ghost use Rattle.std.specs.Prelude.{true, ◌≡◌, ◌+◌, ◌*◌, ◌≤◌, length};
ghost use Rattle.std.proofs.lemmas.List.Edits.{sets};
ghost use Rattle.std.specs.Float.{binary32};
ghost use Rattle.std.specs.Float.Ieee.{of_bits};
ghost use Rattle.math.specs.Stored.{values_of};
ghost use Rattle.entries.specs.Boxes.{box_at, box_from, box_words};
ghost use Rattle.entries.specs.Folding.{start_box};
ghost use Rattle.entries.specs.Plain.{Number, Plain};
ghost use Rattle.entries.specs.Steps.Totals.{corners_of};

use base::numbers::Place;
use math::vec3::Vec3;
use math::words3::Words3;

#[repr(C)]
#[derive(Clone, Copy)]
pub struct BoxWords {
    pub min: Words3,
    pub max: Words3,
}

// The box that a fold starts from.
pub fn start_box() -> BoxWords
    ensures { result ≡ start_box }
{
    BoxWords {
        min: Words3 {
            x: 0x7f7f_ffff,
            y: 0x7f7f_ffff,
            z: 0x7f7f_ffff,
        },
        max: Words3 {
            x: 0xff7f_ffff,
            y: 0xff7f_ffff,
            z: 0xff7f_ffff,
        },
    }
}

// The box whose six words stand from `at` on.
pub fn box_from(words: &[u32], at: usize) -> BoxWords
    requires { at + 6 ≤ length words.now }
    ensures { result ≡ box_from words.now at }
{
    BoxWords {
        min: Words3 {
            x: words[at],
            y: words[at + 1],
            z: words[at + 2],
        },
        max: Words3 {
            x: words[at + 3],
            y: words[at + 4],
            z: words[at + 5],
        },
    }
}

// The box at a place: an entry has seven words, its mark and its box.
pub fn box_at(entries: &[u32], place: Place) -> BoxWords
    requires { 7 * place.0 + 7 ≤ length entries.now }
    ensures { result ≡ box_at entries.now place.0 }
{
    box_from(entries, 7 * (place.0 as usize) + 1)
}

// The float of a word. Where it is known that no word is a NaN's, no word is tested: a loop is then compiled without the
// test, and takes half the time.
pub fn value(word: u32, plain: bool) -> f32
    requires { plain ≡ true → Number word }
    ensures { result ≡ of_bits binary32 word }
{
    if plain {
        f32::from_bits(word)
    } else {
        float32::words::value(word)
    }
}

fn values(w: Words3, plain: bool) -> Vec3
    requires { plain ≡ true → Number w.x × Number w.y × Number w.z }
    ensures { result ≡ values_of w }
{
    Vec3 {
        x: value(w.x, plain),
        y: value(w.y, plain),
        z: value(w.z, plain),
    }
}

// A box by its floats.
#[derive(Clone, Copy)]
pub struct Corners {
    pub low: Vec3,
    pub high: Vec3,
}

// The floats of the box at a place.
pub fn corners_at(entries: &[u32], place: Place, plain: bool) -> Corners
    requires { (7 * place.0 + 7 ≤ length entries.now) × (Plain plain entries.now) }
    ensures { result ≡ corners_of (box_at entries.now place.0) }
{
    let b = box_at(entries, place);
    Corners {
        low: values(b.min, plain),
        high: values(b.max, plain),
    }
}

// Whether no word is a NaN's: none is above infinity's but for its sign.
pub fn all_numbers(entries: &[u32]) -> bool
    ensures { Plain result entries.now }
{
    let mut most = 0;
    for word in entries {
        most = most.max(*word % 0x8000_0000);
    }
    most <= 0x7f80_0000
}

// A box's six words, from `at` on.
pub fn put_box(out: &mut [u32], at: usize, b: BoxWords)
    requires { at + 6 ≤ length out.old }
    ensures { out.new ≡ sets out.old at (box_words b) }
{
    out[at] = b.min.x;
    out[at + 1] = b.min.y;
    out[at + 2] = b.min.z;
    out[at + 3] = b.max.x;
    out[at + 4] = b.max.y;
    out[at + 5] = b.max.z;
}
