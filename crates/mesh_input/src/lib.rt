// A mesh as the program `prepare` reads it: a header of 148 bytes, materials, vertices, polygon records, and the numbers of their materials.
#![tactic(auto)]

ghost use Rattle.std.specs.Prelude.{◌≡◌, ◌+◌, ◌*◌, ◌≤◌, ◌<◌, length};
ghost use Rattle.base.specs.Lists.{over};
ghost use Rattle.mesh_input.specs.Input.{words3_at, float_at, row_at, frame_of, transform_of, bound_of, counts_of, words_at, length_of, check_of, refusal_number};

use base::little_endian::word_at;
use float32::words::value;
use math::mat4::{Mat4, Vec4};
use math::words3::Words3;
use meshes::{Bound, Counts, Frame};

// Why an input is refused before its mesh is prepared.
#[derive(Clone, Copy, Debug, PartialEq, Eq)]
pub enum InputRefusal {
    TooLong = 1,
    WrongLength = 13,
}

// The number that the program prints for it.
impl From<InputRefusal> for u64 {
    ghost from_gives = { λ why n. n ≡ refusal_number why };

    fn from(why: InputRefusal) -> u64 {
        why as u64
    }
}

fn words3_at(bytes: &[u8], at: usize) -> Words3
    requires { at + 12 ≤ length bytes.now }
    ensures { result ≡ words3_at bytes.now at }
{
    Words3 {
        x: word_at(bytes, at),
        y: word_at(bytes, at + 4),
        z: word_at(bytes, at + 8),
    }
}

fn float_at(bytes: &[u8], at: usize) -> f32
    requires { at + 4 ≤ length bytes.now }
    ensures { result ≡ float_at bytes.now at }
{
    value(word_at(bytes, at))
}

fn row_at(bytes: &[u8], at: usize) -> Vec4
    requires { at + 16 ≤ length bytes.now }
    ensures { result ≡ row_at bytes.now at }
{
    Vec4 {
        x: float_at(bytes, at),
        y: float_at(bytes, at + 4),
        z: float_at(bytes, at + 8),
        w: float_at(bytes, at + 12),
    }
}

// Box, centres and radius.
fn frame_of(bytes: &[u8]) -> Frame
    requires { 148 ≤ length bytes.now }
    ensures { result ≡ frame_of bytes.now }
{
    Frame {
        box_min: words3_at(bytes, 16),
        box_max: words3_at(bytes, 28),
        box_center: words3_at(bytes, 40),
        sphere_center: words3_at(bytes, 52),
        sphere_radius: word_at(bytes, 64),
    }
}

fn transform_of(bytes: &[u8]) -> Mat4
    requires { 148 ≤ length bytes.now }
    ensures { result ≡ transform_of bytes.now }
{
    Mat4 {
        row0: row_at(bytes, 84),
        row1: row_at(bytes, 100),
        row2: row_at(bytes, 116),
        row3: row_at(bytes, 132),
    }
}

pub fn bound_of(bytes: &[u8]) -> Bound
    requires { 148 ≤ length bytes.now }
    ensures { result ≡ bound_of bytes.now }
{
    Bound {
        kind: word_at(bytes, 0),
        frame: frame_of(bytes),
        margin: float_at(bytes, 68),
        center: math::words3::values(words3_at(bytes, 72)),
        transform: transform_of(bytes),
    }
}

pub fn counts_of(bytes: &[u8]) -> Counts
    requires { 148 ≤ length bytes.now }
    ensures { result ≡ counts_of bytes.now }
{
    Counts {
        polygons: word_at(bytes, 4) as usize,
        vertices: word_at(bytes, 8) as usize,
        materials: word_at(bytes, 12) as usize,
    }
}

// How many bytes an input of this header has.
pub fn length_of(bytes: &[u8]) -> usize
    requires { 148 ≤ length bytes.now }
    ensures { result ≡ length_of (counts_of bytes.now) }
{
    let polygons = word_at(bytes, 4);
    let vertices = word_at(bytes, 8);
    let materials = word_at(bytes, 12);
    148 + 8 * materials as usize + 12 * vertices as usize + 17 * polygons as usize
}

// Whether an input is one of a mesh. Its header is read only if it is there.
#[tactic(auto, unfolding(crate::specs::Input::check_of))]
pub fn check(bytes: &[u8]) -> Result<(), InputRefusal>
    ensures { result ≡ check_of bytes.now }
{
    if bytes.len() > 8192 {
        return Err(InputRefusal::TooLong);
    }
    if bytes.len() < 148 || length_of(bytes) != bytes.len() {
        return Err(InputRefusal::WrongLength);
    }
    Ok(())
}

// The n words from byte `at` on, at the start of `out`.
pub fn put_words(out: &mut [u32], bytes: &[u8], at: usize, n: usize)
    requires { (n ≤ length out.old) × (at + 4 * n ≤ length bytes.now) }
    ensures { out.new ≡ over (words_at bytes.now at n) out.old }
{
    for i in 0..n {
        out[i] = word_at(bytes, at + 4 * i);
    }
}
