// The lists of eight octants, each in its part of one slice.
ghost use Rattle.std.specs.Prelude.{◌≡◌, List, ℕ, ◌+◌, ◌*◌, ◌≤◌, ◌<◌, length};
ghost use Rattle.shadows.specs.Octants.{octant_of};
ghost use Rattle.far_order.specs.Rows.{Written};
ghost use Rattle.octants.specs.Octants.{Wrote};
ghost use Rattle.octants.specs.Steps.Lists.{Each, counts_in};
ghost use Rattle.octants.specs.Steps.Parts.{Keyed};
ghost use Rattle.octants.specs.Steps.Work.{Work, Ready};

use crate::keys::put_keys;
use crate::laying::lay_rows;
use maxima::listing::list_maxima;

// How many each octant's list has.
#[derive(Clone, Copy)]
pub struct OctantCounts {
    pub c0: u32,
    pub c1: u32,
    pub c2: u32,
    pub c3: u32,
    pub c4: u32,
    pub c5: u32,
    pub c6: u32,
    pub c7: u32,
}

// Writes the list of one octant; how many it has.
fn list_octant(
    octant: u32,
    n: usize,
    keys: &[u32],
    rows: &mut [u32],
    order: &mut [u32],
    temp: &mut [u32],
    marks: &mut [u32],
    list: &mut [u32],
) -> usize
    requires { (Ready n keys.now rows.old order.old temp.old marks.old) × (n ≤ length list.old) }
    ensures { (ws : List ℕ) → Keyed n ws keys.now → Written (octant_of octant ws n) list.old list.new result }
{
    lay_rows(octant, n, keys, rows);
    list_maxima(n, rows, order, temp, marks, list)
}

// Writes the list of each octant in its part, and how many it has.
fn list_each(
    n: usize,
    keys: &[u32],
    rows: &mut [u32],
    order: &mut [u32],
    temp: &mut [u32],
    marks: &mut [u32],
    lists: &mut [u32],
    counts: &mut [u32],
)
    requires { (Ready n keys.now rows.old order.old temp.old marks.old) × (8 * n ≤ length lists.old) × (8 ≤ length counts.old) }
    ensures { (ws : List ℕ) → Keyed n ws keys.now → Each n ws lists.old lists.new counts.new 8 }
{
    for k in 0..8 {
        let at = k * n;
        let part = &mut lists[at..at + n];
        let count = list_octant(k as u32, n, keys, rows, order, temp, marks, part);
        counts[k] = count as u32;
    }
}

fn counts_of(counts: &[u32]) -> OctantCounts
    requires { 8 ≤ length counts.now }
    ensures { result ≡ counts_in counts.now }
{
    OctantCounts {
        c0: counts[0],
        c1: counts[1],
        c2: counts[2],
        c3: counts[3],
        c4: counts[4],
        c5: counts[5],
        c6: counts[6],
        c7: counts[7],
    }
}

// Writes the lists of n vertices; how many each has. The other slices are to work in.
pub fn list_octants(
    n: usize,
    vertices: &[u32],
    lists: &mut [u32],
    keys: &mut [u32],
    rows: &mut [u32],
    order: &mut [u32],
    temp: &mut [u32],
    marks: &mut [u32],
) -> OctantCounts
    requires { (Work n keys.old rows.old order.old temp.old marks.old) × (3 * n ≤ length vertices.now) × (8 * n ≤ length lists.old) }
    ensures { Wrote n vertices.now lists.old lists.new result }
{
    put_keys(n, vertices, keys);
    let mut counts = [0u32; 8];
    list_each(n, keys, rows, order, temp, marks, lists, &mut counts);
    counts_of(&counts)
}
