// A node's items split in two.
ghost use Rattle.std.specs.Prelude.{◌≡◌, ◌/◌, ◌≤◌, ◌<◌, length, take};
ghost use Rattle.entries.specs.Boxes.{box_at};
ghost use Rattle.base.specs.Lists.{Within};
ghost use Rattle.entries.specs.Kept.{Kept};
ghost use Rattle.entries.specs.Plain.{Plain};
ghost use Rattle.entries.specs.Folding.{fold_box};
ghost use Rattle.entries.specs.Average.{average_of};
ghost use Rattle.entries.specs.Steps.Begun.{Begins};
ghost use Rattle.split.specs.Rule.{Divided};
ghost use Rattle.split.specs.Steps.Groups.{Settled, Same};

use crate::groups::Groups;
use entries::boxes::BoxWords;
use entries::totals::{Begun, begun_within};
use math::vec3::Vec3;

// Where n sorted items are cut.
fn middle(n: usize) -> usize
    ensures { result ≡ n / 2 }
{
    n / 2
}

// Sorts the places where the first group has all of them, and cuts them in the middle; how many the first group has then.
fn settle(places: &mut [u32], temp: &mut [u32], entries: &[u32], first: usize) -> usize
    requires { (length places.old ≤ length temp.old) × (Within (length entries.now) places.old) }
    ensures { Settled (box_at entries.now) first places.old places.new result }
{
    let n = places.len();
    if first < n {
        return first;
    }
    box_sort::merging::sort(places, temp, entries);
    let h = middle(n);
    crate::groups::paste(temp, 0, &places[h..n], n - h);
    crate::groups::unite(places, temp, h)
}

// The box around the places, folded before they are moved, since with a NaN the order decides; how many the first group has; and
// the totals of what it begins with, where the places begin with it too.
#[derive(Clone, Copy)]
pub struct Cut {
    pub around: BoxWords,
    pub first: usize,
    pub begun: Begun,
}

// How many places stand where they stood, of those that did before the places were sorted: they were where the first group had all.
fn unsorted(same: usize, first: usize, n: usize) -> usize
    ensures { (result ≤ same) × (0 < result → (result ≡ same) × (first < n)) }
{
    if first < n { same } else { 0 }
}

// The first group, then the second, in place of the places, by their average, with `temp` to work in.
fn divide_by(
    places: &mut [u32],
    temp: &mut [u32],
    entries: &[u32],
    centres: &[f32],
    avg: Vec3,
) -> Groups
    requires { (2 ≤ length places.old) × (length places.old < 32768) × (length places.old ≤ length temp.old) ×
        (Within (length entries.now) places.old)
        × (avg ≡ average_of (box_at entries.now) places.old) × (Kept entries.now centres.now) }
    ensures { (Divided (box_at entries.now) places.old places.new result.first)
        × (Same result.same places.old places.new result.first) }
{
    let counts = crate::groups::count_below(entries, centres, places, avg);
    let axis = crate::groups::choose_axis(counts, places.len());
    let g = crate::groups::part(places, temp, entries, centres, avg, axis, counts);
    let same = unsorted(g.same, g.first, places.len());
    Groups {
        first: settle(places, temp, entries, g.first),
        same: same,
    }
}

// The first group, then the second, in place of the places, with `temp` to work in; their box, and how many the first has.
pub fn divide(
    places: &mut [u32],
    temp: &mut [u32],
    entries: &[u32],
    centres: &[f32],
    plain: bool,
    begun: Begun,
) -> Cut
    requires { (2 ≤ length places.old) × (length places.old < 32768) × (length places.old ≤ length temp.old)
        × (Within (length entries.now) places.old) × (Plain plain entries.now) × (Kept entries.now centres.now)
        × (Begins (box_at entries.now) begun places.old) }
    ensures { (Divided (box_at entries.now) places.old places.new result.first)
        × (result.around ≡ fold_box (box_at entries.now) places.old)
        × (Begins (box_at entries.now) result.begun (take result.first places.new)) }
{
    let m = entries::average::measure(entries, places, plain, begun);
    let around = m.around;
    let kept = m.begun;
    let g = divide_by(places, temp, entries, centres, m.average);
    Cut {
        around: around,
        first: g.first,
        begun: begun_within(kept, g.same),
    }
}
