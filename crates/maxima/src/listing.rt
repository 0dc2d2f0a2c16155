// The list of a direction: by the source's loop as long as few are kept, else in O(n log n): sort the furthest first, mark what an
// earlier one covers, list what is left.
ghost use Rattle.std.specs.Prelude.{◌≡◌, ◌+◌, ◌*◌, ◌≤◌, ◌<◌, eqb, length, get_or, drop, ◌++◌};
ghost use Rattle.base.specs.Lists.{sift};
ghost use Rattle.shadows.specs.Kept.{kept_of};
ghost use Rattle.shadows.specs.Maxima.{numbers};
ghost use Rattle.far_order.specs.Rows.{shadowed_at, Room, Written};
ghost use Rattle.maxima.specs.Steps.Marking.{Clear};

use crate::kept::gather;
use crate::marking::mark_halves;
use far_order::sorting::{keep, sort};

// The numbers from 0 on.
fn count_up(order: &mut [u32])
    requires { length order.old ≤ 32768 }
    ensures { order.new ≡ numbers (length order.old) }
{
    for (i, place) in order.iter_mut().enumerate() {
        *place = i as u32;
    }
}

// No marks.
fn clear(marks: &mut [u32], n: usize)
    requires { n ≤ length marks.old }
    ensures { Clear n marks.new }
{
    marks[..n].fill(0);
}

// Writes the unmarked of the first n, rising; how many there are.
fn list_unmarked(marks: &[u32], n: usize, list: &mut [u32]) -> usize
    requires { (n ≤ length marks.now) × (n ≤ length list.old) × (n ≤ 32768) }
    ensures { Written (sift (λ k. eqb (get_or marks.now k 0) 0) (numbers n)) list.old list.new result }
{
    let mut count = 0;
    for i in 0..n {
        if marks[i] == 0 {
            list[count] = i as u32;
            count += 1;
        }
    }
    count
}

// Writes the list by sorting; how many it has.
fn list_sorted(
    n: usize,
    rows: &[u32],
    order: &mut [u32],
    temp: &mut [u32],
    marks: &mut [u32],
    list: &mut [u32],
) -> usize
    requires { (Room n rows.now order.old temp.old marks.old list.old) × (length order.old ≡ n) }
    ensures { Written (kept_of (shadowed_at n rows.now) n) list.old list.new result }
{
    count_up(order);
    sort(order, temp, false, n, rows);
    clear(marks, n);
    mark_halves(order, temp, n, rows, marks);
    list_unmarked(marks, n, list)
}

// How many are kept before the loop gives up: it costs n tests for each of them.
fn limit(n: usize) -> usize
    ensures { result ≤ n }
{
    n.min(128)
}

// Writes the list of n vertices; how many it has. The other slices are to work in.
pub fn list_maxima(
    n: usize,
    rows: &[u32],
    order: &mut [u32],
    temp: &mut [u32],
    marks: &mut [u32],
    list: &mut [u32],
) -> usize
    requires { Room n rows.now order.old temp.old marks.old list.old }
    ensures { Written (kept_of (shadowed_at n rows.now) n) list.old list.new result }
{
    let most = limit(n);
    if let Some(count) = gather(n, rows, &mut order[..most]) {
        keep(list, order, count);
        return count;
    }
    list_sorted(n, rows, &mut order[..n], temp, marks, list)
}
