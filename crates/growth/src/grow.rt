// The tree of a list of places, laid out as rows in preorder. Segment after segment is taken from a stack, since hostile boxes make trees too
// deep to recurse.
ghost use Rattle.std.specs.Prelude.{◌≡◌, ◌+◌, ◌-◌, ◌*◌, ◌≤◌, ◌<◌, length, set, take};
ghost use Rattle.base.specs.Lists.{Within};
ghost use Rattle.entries.specs.Boxes.{box_at};
ghost use Rattle.entries.specs.Folding.{fold_box};
ghost use Rattle.entries.specs.Kept.{Kept};
ghost use Rattle.entries.specs.Plain.{Plain};
ghost use Rattle.entries.specs.Steps.Begun.{Begins};
ghost use Rattle.growth.specs.Grow.{builder};
ghost use Rattle.growth.specs.Steps.Laid.{Room, InnerPut, Laid, Grown};
ghost use Rattle.rows.specs.Steps.Table.{with_row};

use base::numbers::Position;
use entries::totals::{Begun, no_longer, not_begun};
use rows::table::put_row;

// Row m of a leaf: the box of its places, the position of the first, and how many they are.
fn put_leaf(
    rows: &mut [u32],
    m: usize,
    entries: &[u32],
    places: &[u32],
    first: Position,
    plain: bool,
)
    requires { (8 * m + 8 ≤ length rows.old) × (Within (length entries.now) places.now) × (first.0 < 65536) × (length places.now < 65536)
        × (Plain plain entries.now) }
    ensures { rows.new ≡ with_row m (record {
      box = fold_box (box_at entries.now) places.now;
      head = first.0;
      count = length places.now;
    }) rows.old }
{
    let around = entries::fold::fold_box(entries, places, plain);
    put_row(rows, m, around, first.0 as usize, places.len());
}

// How many places the first child has, and the totals of what they begin with.
#[derive(Clone, Copy)]
pub struct Inner {
    pub first: usize,
    pub begun: Begun,
}

// Row m of an inner node, whose places are split. Their box is that of before the split, which permutes them: with a NaN the order decides.
fn put_inner(
    places: &mut [u32],
    temp: &mut [u32],
    entries: &[u32],
    rows: &mut [u32],
    centres: &[f32],
    m: usize,
    plain: bool,
    begun: Begun,
) -> Inner
    requires { (8 * m + 8 ≤ length rows.old) × (2 ≤ length places.old) × (length places.old < 32768)
        × (length places.old ≤ length temp.old) × (Within (length entries.now) places.old) × (Plain plain entries.now)
        × (Kept entries.now centres.now) × (Begins (box_at entries.now) begun places.old) }
    ensures { (InnerPut (builder (box_at entries.now)) m places.old places.new rows.old
        rows.new result.first)
        × (Begins (box_at entries.now) result.begun (take result.first places.new)) }
{
    let cut = split::divide::divide(places, temp, entries, centres, plain, begun);
    let around = cut.around;
    let kept = cut.begun;
    put_row(rows, m, around, 0, 0);
    Inner {
        first: cut.first,
        begun: kept,
    }
}

// Two lengths in the place of the one at `sp`: the stack grows down.
fn push_two(stack: &mut [u32], sp: usize, a: usize, b: usize)
    requires { (0 < sp) × (sp < length stack.old) × (a < 65536) × (b < 65536) }
    ensures { stack.new ≡ set (set stack.old sp b) (sp - 1) a }
{
    stack[sp] = b as u32;
    stack[sp - 1] = a as u32;
}

// Rows in preorder, without their numbers of nodes. The stack holds the lengths of the segments that wait, which lie one after the other
// from `lo` on. It is a lent slice with its top in `sp`, not a `Vec`: the library has fixed memory and no heap.
pub fn grow(
    places: &mut [u32],
    temp: &mut [u32],
    entries: &[u32],
    stack: &mut [u32],
    rows: &mut [u32],
    centres: &[f32],
    threshold: usize,
    plain: bool,
) -> usize
    requires { (0 < length places.old) × (Room threshold places.old temp.old entries.now stack.old rows.old)
        × (Plain plain entries.now) × (Kept entries.now centres.now) }
    ensures { Laid (builder (box_at entries.now)) threshold places.old places.new rows.new result }
{
    let n = places.len();
    let mut sp = stack.len() - 1;
    stack[sp] = n as u32;
    let mut lo = 0;
    let mut m = 0;
    let mut begun = not_begun();
    // No `for` counts `lo`: it steps by a leaf's places, and stays while a segment is split.
    while lo < n {
        let k = stack[sp] as usize;
        let hi = lo + k;
        if k <= threshold {
            put_leaf(
                rows,
                m,
                entries,
                &places[lo..hi],
                Position(lo as u32),
                plain,
            );
            begun = no_longer(begun);
            lo = hi;
            sp += 1;
            m += 1;
        } else {
            let inner = put_inner(
                &mut places[lo..hi],
                temp,
                entries,
                rows,
                centres,
                m,
                plain,
                begun,
            );
            let a = inner.first;
            begun = inner.begun;
            push_two(stack, sp, a, k - a);
            sp -= 1;
            m += 1;
        }
    }
    m
}

// The tree of the places: they become the leaf order, and `rows` begins with the rows, as many as the result says.
pub fn grow_tree(
    places: &mut [u32],
    temp: &mut [u32],
    entries: &[u32],
    stack: &mut [u32],
    rows: &mut [u32],
    centres: &mut [f32],
    threshold: usize,
) -> usize
    requires { (Room threshold places.old temp.old entries.now stack.old rows.old)
        × (4 * length entries.now ≤ 7 * length centres.old) × (length entries.now < 4294967296) }
    ensures { Grown (builder (box_at entries.now)) threshold places.old places.new rows.new result }
{
    // An empty leaf and an inner row both have the count 0: only here is a leaf empty.
    if places.len() == 0 {
        let around = entries::fold::fold_words(entries, places);
        put_row(rows, 0, around, 0, places.len());
        return 1;
    }
    let plain = entries::boxes::all_numbers(entries);
    entries::average::put_centres(entries, centres, plain);
    let m = grow(
        places, temp, entries, stack, rows, centres, threshold, plain,
    );
    rows::sizes::fill_sizes(rows, m);
    m
}
