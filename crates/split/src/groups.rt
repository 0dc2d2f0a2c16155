// The two groups of a node's items: the counts that choose the axis, the partition, and both united, the leading group first.
ghost use Rattle.std.specs.Prelude.{true, not, cond, ◌≡◌, List, ℕ, ◌+◌, ◌-◌, ◌*◌, ◌≤◌, ◌<◌, length, take};
ghost use Rattle.std.proofs.Math.Seq.{paste};
ghost use Rattle.std.specs.Float.Ieee.{lt};
ghost use Rattle.entries.specs.declared.boxes.BoxWords.{BoxWords};
ghost use Rattle.entries.specs.Boxes.{box_at};
ghost use Rattle.base.specs.Lists.{one_if, sift, Within};
ghost use Rattle.entries.specs.Kept.{Kept};
ghost use Rattle.split.specs.Rule.{above, offset, two_leads};
ghost use Rattle.split.specs.Steps.Groups.{counts_of, axis_by, step_of, passes, Nowhere, Leading, Parted, LeaderFirst, Same};

use base::numbers::Place;
use math::axis::Axis;
use math::vec3::Vec3;

// How many centres are below the average, on each axis, and how many are above it on x.
#[derive(Clone, Copy)]
pub struct Counts {
    pub x: u32,
    pub y: u32,
    pub z: u32,
    pub over: u32,
}

// 1 where a is below b, else 0: a NaN is below nothing, and nothing below it.
fn one_if_below(a: f32, b: f32) -> u32
    ensures { (result ≡ one_if (lt a b)) × (result ≤ 1) }
{
    if a < b { 1 } else { 0 }
}

// The counts on the three axes, in one pass. The fourth lane, x with the other sign, counts what is above on x: with it the lanes
// of a place are compared as one vector.
pub fn count_below(entries: &[u32], centres: &[f32], places: &[u32], avg: Vec3) -> Counts
    requires { (Within (length entries.now) places.now) × (length places.now < 65536) × (Kept entries.now centres.now) }
    ensures { result ≡ counts_of (box_at entries.now) avg places.now }
{
    let mut counts = Counts {
        x: 0,
        y: 0,
        z: 0,
        over: 0,
    };
    for p in places {
        let c = entries::average::centre_at(centres, Place(*p));
        counts = Counts {
            x: counts.x + one_if_below(c.x, avg.x),
            y: counts.y + one_if_below(c.y, avg.y),
            z: counts.z + one_if_below(c.z, avg.z),
            over: counts.over + one_if_below(c.w, -avg.x),
        };
    }
    counts
}

// Twice the distance of the count c from n / 2: whole numbers, where the source has floats that are exact.
fn offset(n: usize, c: u32) -> usize
    requires { (n < 65536) × (c ≤ n) }
    ensures { result ≡ offset n c }
{
    let d = 2 * (c as usize);
    if d < n { n - d } else { d - n }
}

// The axis whose count is nearest n / 2, x before y before z.
pub fn choose_axis(c: Counts, n: usize) -> Axis
    requires { (n < 65536) × (c.x ≤ n) × (c.y ≤ n) × (c.z ≤ n) }
    ensures { result ≡ axis_by n c }
{
    let x = offset(n, c.x);
    let y = offset(n, c.y);
    let z = offset(n, c.z);
    if x <= y && x <= z {
        Axis::X
    } else if y <= z {
        Axis::Y
    } else {
        Axis::Z
    }
}

fn step_of(a: Axis) -> usize
    ensures { result ≡ step_of a }
{
    match a {
        Axis::X => 0,
        Axis::Y => 1,
        Axis::Z => 2,
    }
}

// 1 where the place's centre is above the cut, else 0, on the axis that comes `step` lanes after x. Only that lane is read.
fn one_if_above(entries: &[u32], centres: &[f32], place: Place, step: usize, cut: f32) -> usize
    requires { (7 * place.0 + 7 ≤ length entries.now) × (step < 3) × (Kept entries.now centres.now) }
    ensures { result ≡ one_if (passes entries.now step cut place.0) }
{
    let at = 4 * (place.0 as usize) + step;
    if centres[at] > cut { 1 } else { 0 }
}

// Copies the first n places of `src` into `dst`, from `at` on.
pub fn paste(dst: &mut [u32], at: usize, src: &[u32], n: usize)
    requires { (at + n ≤ length dst.old) × (n ≤ length src.now) }
    ensures { dst.new ≡ paste dst.old at src.now n }
{
    // No `copy_from_slice`: it copies by raw pointers, for which the compiler calls `memmove`, and the archives would need that name from outside.
    for j in 0..n {
        dst[at + j] = src[j];
    }
}

// The places whose centre is above the average on the axis, to the front of `places`, the others to the front of `temp`, in their order;
// how many are above. Each place is stored in both, so that no branch waits for the comparison; the first
// `seen` of them, which stand where they belong, are passed.
pub fn partition(
    places: &mut [u32],
    temp: &mut [u32],
    entries: &[u32],
    centres: &[f32],
    avg: Vec3,
    axis: Axis,
    seen: usize,
) -> usize
    requires { (length places.old ≤ length temp.old) × (Within (length entries.now) places.old) × (Kept entries.now centres.now)
        × (Leading (above (box_at entries.now) avg axis) places.old seen) }
    ensures { Parted (above (box_at entries.now) avg axis) places.old places.new temp.new result }
{
    let n = places.len();
    let step = step_of(axis);
    let cut = math::axis::coordinate(axis, avg);
    let mut k = seen;
    for i in seen..n {
        let p = places[i];
        places[k] = p;
        temp[i - k] = p;
        k += one_if_above(entries, centres, Place(p), step, cut);
    }
    k
}

// Whether a group two of m places leads a group one of k: by their sizes, whatever their boxes.
fn two_leads(k: usize, m: usize) -> bool
    ensures { (at : ℕ → BoxWords) (one two : List ℕ) → k ≡ length one → m ≡ length two → result ≡ two_leads at one two }
{
    k < m
}

// Of group one, the first k of `places`, and group two, as many of `temp` as are left, the group that leads first; how many it has.
pub fn unite(places: &mut [u32], temp: &mut [u32], k: usize) -> usize
    requires { (length places.old ≤ length temp.old) × (k ≤ length places.old) }
    ensures { (at : ℕ → BoxWords) → LeaderFirst at (take k places.old)
        (take (length places.old - k) temp.old) places.new result }
{
    let n = places.len();
    let m = n - k;
    if two_leads(k, m) {
        paste(temp, m, places, k);
        paste(places, 0, temp, n);
        return m;
    }
    paste(places, k, temp, m);
    k
}

// Whether from a position on no place's centre is above the average on the axis.
fn none_above(
    places: &[u32],
    from: usize,
    entries: &[u32],
    centres: &[f32],
    avg: Vec3,
    axis: Axis,
) -> bool
    requires { (from ≤ length places.now) × (Within (length entries.now) places.now) × (Kept entries.now centres.now) }
    ensures { result ≡ true → Nowhere (above (box_at entries.now) avg axis) from places.now }
{
    let step = step_of(axis);
    let cut = math::axis::coordinate(axis, avg);
    for i in from..places.len() {
        if one_if_above(entries, centres, Place(places[i]), step, cut) > 0 {
            return false;
        }
    }
    true
}

// Whether it is seen that no centre is above the average. On x it was counted. Where some of x, and not all, are below it, nobody
// looks: such a list is hardly ever without one above.
fn seen_none_above(
    places: &[u32],
    entries: &[u32],
    centres: &[f32],
    avg: Vec3,
    axis: Axis,
    counts: Counts,
) -> bool
    requires { (Within (length entries.now) places.now) × (Kept entries.now centres.now)
        × (counts ≡ counts_of (box_at entries.now) avg places.now) }
    ensures { result ≡ true → Nowhere (above (box_at entries.now) avg axis) 0 places.now }
{
    if step_of(axis) == 0 {
        return counts.over == 0;
    }
    if counts.x > 0 && (counts.x as usize) < places.len() {
        return false;
    }
    none_above(places, 0, entries, centres, avg, axis)
}

// How many places there are before the first that is not above the average on the axis.
fn run_above(places: &[u32], entries: &[u32], centres: &[f32], avg: Vec3, axis: Axis) -> usize
    requires { (Within (length entries.now) places.now) × (Kept entries.now centres.now) }
    ensures { Leading (above (box_at entries.now) avg axis) places.now result }
{
    let step = step_of(axis);
    let cut = math::axis::coordinate(axis, avg);
    for (i, p) in places.iter().enumerate() {
        if one_if_above(entries, centres, Place(*p), step, cut) < 1 {
            return i;
        }
    }
    places.len()
}

// Whether all that are above the average on the axis stand first: on x, where they were counted, the others are looked at.
fn counted_first(
    places: &[u32],
    entries: &[u32],
    centres: &[f32],
    avg: Vec3,
    axis: Axis,
    counts: Counts,
) -> bool
    requires { (Within (length entries.now) places.now) × (Kept entries.now centres.now)
        × (counts ≡ counts_of (box_at entries.now) avg places.now) }
    ensures { result ≡ true → Leading (above (box_at entries.now) avg axis) places.now counts.over }
{
    if step_of(axis) == 0 {
        return none_above(places, counts.over as usize, entries, centres, avg, axis);
    }
    false
}

fn count_on(a: Axis, c: Counts) -> u32 {
    match a {
        Axis::X => c.x,
        Axis::Y => c.y,
        Axis::Z => c.z,
    }
}

// Whether so few of n centres are below the average that the first places are likely above it. Hostile lists are such: a node loses
// its last few items.
fn few_below(a: Axis, c: Counts, n: usize) -> bool {
    16 * (count_on(a, c) as usize) < n
}

// How many of the first places are seen to be above the average: none where nobody looks.
fn seen_above(
    places: &[u32],
    entries: &[u32],
    centres: &[f32],
    avg: Vec3,
    axis: Axis,
    counts: Counts,
) -> usize
    requires { (Within (length entries.now) places.now) × (Kept entries.now centres.now)
        × (counts ≡ counts_of (box_at entries.now) avg places.now) }
    ensures { Leading (above (box_at entries.now) avg axis) places.now result }
{
    if few_below(axis, counts, places.len()) {
        if counted_first(places, entries, centres, avg, axis, counts) {
            return counts.over as usize;
        }
        return run_above(places, entries, centres, avg, axis);
    }
    0
}

// How many the first group has, and how many of the first places stand where they stood.
#[derive(Clone, Copy)]
pub struct Groups {
    pub first: usize,
    pub same: usize,
}

// How many of the first places stand where they stood: the places that were seen, where group one leads.
fn unmoved(seen: usize, k: usize, m: usize) -> usize
    ensures { (at : ℕ → BoxWords) (one two : List ℕ) → k ≡ length one → m ≡ length two
        → result ≡ cond (two_leads at one two) 0 seen }
{
    if two_leads(k, m) { 0 } else { seen }
}

// The group above the average and the others, the group that leads first, with `temp` to work in. Where none is above, as of equal
// and of nested boxes, all stay where they are.
pub fn part(
    places: &mut [u32],
    temp: &mut [u32],
    entries: &[u32],
    centres: &[f32],
    avg: Vec3,
    axis: Axis,
    counts: Counts,
) -> Groups
    requires { (0 < length places.old) × (length places.old ≤ length temp.old) × (Within (length entries.now) places.old)
        × (Kept entries.now centres.now) × (counts ≡ counts_of (box_at entries.now) avg places.old) }
    ensures { (LeaderFirst (box_at entries.now)
        (sift (above (box_at entries.now) avg axis) places.old)
        (sift (λ p. not (above (box_at entries.now) avg axis p)) places.old) places.new result.first)
        × (Same result.same places.old places.new result.first) }
{
    if seen_none_above(places, entries, centres, avg, axis, counts) {
        return Groups {
            first: places.len(),
            same: 0,
        };
    }
    let seen = seen_above(places, entries, centres, avg, axis, counts);
    let k = partition(places, temp, entries, centres, avg, axis, seen);
    let m = places.len() - k;
    Groups {
        first: unite(places, temp, k),
        same: unmoved(seen, k, m),
    }
}
