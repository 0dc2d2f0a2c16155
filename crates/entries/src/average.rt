// The average of a node's boxes, and the centres that are kept of all boxes.
ghost use Rattle.std.specs.Prelude.{◌≡◌, [], ◌∷◌, ◌+◌, ◌*◌, ◌≤◌, ◌<◌, length};
ghost use Rattle.std.proofs.lemmas.List.Edits.{sets};
ghost use Rattle.std.specs.Float.Ieee.{neg};
ghost use Rattle.entries.specs.Boxes.{box_at};
ghost use Rattle.base.specs.Lists.{Within};
ghost use Rattle.entries.specs.Kept.{lanes_at, Kept};
ghost use Rattle.entries.specs.Plain.{Plain};
ghost use Rattle.float32.specs.Counts.{of_count};
ghost use Rattle.math.specs.Vec3s.{◌⊘◌, add_of, scale_of};
ghost use Rattle.math.specs.Transform.{half};
ghost use Rattle.entries.specs.Folding.{fold_box};
ghost use Rattle.entries.specs.Average.{average_of};
ghost use Rattle.entries.specs.Steps.Begun.{Begins};

use crate::boxes::{BoxWords, Corners};
use crate::totals::Begun;
use base::numbers::Place;
use math::vec3::Vec3;

pub fn centre(b: Corners) -> Vec3
    ensures { result ≡ scale_of (add_of b.low b.high) half }
{
    b.low.add(b.high).scale(0.5)
}

// The box around a node's items, the average of their boxes, and what is kept of the totals.
#[derive(Clone, Copy)]
pub struct Measured {
    pub around: BoxWords,
    pub average: Vec3,
    pub begun: Begun,
}

// The sum times 0.5 / n.
fn average(sum: Vec3, n: usize) -> Vec3
    requires { n < 65536 }
    ensures { result ≡ scale_of sum (half ⊘ of_count n) }
{
    sum.scale(0.5 / float32::counts::of_count(n as u16))
}

// The fold and the average of the places' boxes, in their order.
pub fn measure(entries: &[u32], places: &[u32], plain: bool, begun: Begun) -> Measured
    requires { (Within (length entries.now) places.now) × (length places.now < 65536) × (Plain plain entries.now)
        × (Begins (box_at entries.now) begun places.now) }
    ensures { (result.around ≡ fold_box (box_at entries.now) places.now)
        × (result.average ≡ average_of (box_at entries.now) places.now)
        × (Begins (box_at entries.now) result.begun places.now) }
{
    let g = crate::totals::gather(entries, places, plain, begun);
    let t = g.totals;
    let kept = g.begun;
    Measured {
        around: crate::fold::fold_by_value(
            entries,
            places,
            crate::totals::low_of(t),
            crate::totals::high_of(t),
            plain,
        ),
        average: average(crate::totals::sum_of(t), places.len()),
        begun: kept,
    }
}

// A centre as it is kept: its three floats, and x with the other sign, so that it is one vector and below tells above on x.
#[derive(Clone, Copy)]
pub struct Lanes {
    pub x: f32,
    pub y: f32,
    pub z: f32,
    pub w: f32,
}

// The four lanes of entry i: its centre, and x with the other sign.
fn put_centre(centres: &mut [f32], i: usize, c: Vec3)
    requires { 4 * i + 4 ≤ length centres.old }
    ensures { centres.new ≡ sets centres.old (4 * i) (c.x ∷ c.y ∷ c.z ∷ neg c.x ∷ []) }
{
    let at = 4 * i;
    centres[at] = c.x;
    centres[at + 1] = c.y;
    centres[at + 2] = c.z;
    centres[at + 3] = -c.x;
}

// The centre of each entry, computed once a build: it is the box's alone, and of subnormals it takes long.
pub fn put_centres(entries: &[u32], centres: &mut [f32], plain: bool)
    requires { (4 * length entries.now ≤ 7 * length centres.old) × (length entries.now < 4294967296) × (Plain plain entries.now) }
    ensures { Kept entries.now centres.new }
{
    for i in 0..entries.len() / 7 {
        let c = centre(crate::boxes::corners_at(entries, Place(i as u32), plain));
        put_centre(centres, i, c);
    }
}

// The centre that is kept for a place.
pub fn centre_at(centres: &[f32], place: Place) -> Lanes
    requires { 4 * place.0 + 4 ≤ length centres.now }
    ensures { result ≡ lanes_at centres.now place.0 }
{
    let at = 4 * (place.0 as usize);
    Lanes {
        x: centres[at],
        y: centres[at + 1],
        z: centres[at + 2],
        w: centres[at + 3],
    }
}
