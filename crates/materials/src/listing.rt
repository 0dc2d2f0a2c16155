// The list of materials, each where it comes first, and each polygon's index in it. A material is its eight bytes as one number.
ghost use Rattle.std.specs.Prelude.{◌≡◌, ◌+◌, ◌*◌, ◌≤◌, ◌<◌, length, take, get_or, position, ◌==◌, MatchOption};
ghost use Rattle.base.specs.Lists.{over};
ghost use Rattle.materials.specs.Materials.{value_at, values_of, place_in, list_of, materials_bytes};
ghost use Rattle.materials.specs.Steps.Listing.{Placed, Fits, bucket_of, Marked, Entered, Given, Countable, Empty, Indexed};

use base::little_endian::put_le;

// A material's two words as one number.
fn material(data1: u32, data2: u32) -> u64
    ensures { result ≡ data1 + 4294967296 * data2 }
{
    data1 as u64 + 4294967296 * (data2 as u64)
}

// The material that a number stands for; past the list it is (0,0).
fn value_at(mats: &[u32], m: usize, number: usize) -> u64
    requires { (2 * m ≤ length mats.now) × (m ≤ 256) }
    ensures { result ≡ value_at m mats.now number }
{
    if number < m {
        return material(mats[2 * number], mats[2 * number + 1]);
    }
    0
}

// Where the material stands first in the list, if it does.
fn place_in(list: &[u64], x: u64) -> Option<usize>
    ensures { result ≡ position (λ y. y == x) list.now }
{
    list.iter().position(|y| *y == x)
}

// A mark for materials that leave the same remainder.
fn bucket(x: u64) -> usize
    ensures { (result ≡ bucket_of x) × (result < 1024) }
{
    (x % 1021) as usize
}

// The same as `place_in`: without a search where no material of the list has x's mark.
fn place_by(table: &[u32], list: &[u64], x: u64) -> Option<usize>
    requires { (length table.now ≡ 1280) × (Marked table.now list.now) }
    ensures { MatchOption result (place_in list.now x ≡ length list.now) (λ at. (at ≡ place_in list.now x) × (at < length list.now)) }
{
    if table[256 + bucket(x)] == 0 {
        return None;
    }
    place_in(list, x)
}

// Sees to it that the table has the place of number b's material, which is x, and the list the material. How many the list then has.
fn enter(table: &mut [u32], b: usize, x: u64, list: &mut [u64], count: usize) -> usize
    requires { (b < 256) × (Fits x list.old count) × (Placed x (take count list.old) (get_or table.old b 0))
        × (length table.old ≡ 1280) × (Marked table.old (take count list.old)) }
    ensures { Entered b x table.old table.new (take count list.old) list.new result }
{
    if table[b] != 0 {
        return count;
    }
    let Some(at) = place_by(table, &list[..count], x) else {
        table[b] = count as u32 + 1;
        table[256 + bucket(x)] = 1;
        list[count] = x;
        return count + 1;
    };
    table[b] = at as u32 + 1;
    count
}

// The list of the materials of n polygons, and their indices in it; how many it has. The table begins with nothing.
fn index_all(
    numbers: &[u8],
    n: usize,
    mats: &[u32],
    m: usize,
    table: &mut [u32],
    list: &mut [u64],
    indices: &mut [u8],
) -> usize
    requires { (Given n m numbers.now mats.now list.old indices.old) × (Empty table.old) }
    ensures { Indexed (values_of m mats.now n numbers.now) list.new indices.old indices.new result }
{
    let mut count = 0;
    for p in 0..n {
        let b = usize::from(numbers[p]);
        count = enter(table, b, value_at(mats, m, b), list, count);
        indices[p] = (table[b] - 1) as u8;
    }
    count
}

// The same, with a table of its own: by a number's byte, 1 and the place of its material, 0 until it comes; and behind them the marks.
// Numbers and no Options: places and marks lie in one array of words, cleared at once.
pub fn dedupe(
    numbers: &[u8],
    n: usize,
    mats: &[u32],
    m: usize,
    list: &mut [u64],
    indices: &mut [u8],
) -> usize
    requires { Given n m numbers.now mats.now list.old indices.old }
    ensures { Indexed (values_of m mats.now n numbers.now) list.new indices.old indices.new result }
{
    let mut table = [0u32; 1280];
    index_all(numbers, n, mats, m, &mut table, list, indices)
}

// How many materials n polygons use, each counted once. The table begins with nothing. The loop is that of `index_all` without its indices: one function
// for both would take as a closure what to do with each place, which is longer than the two lines that are alike.
fn count_all(
    numbers: &[u8],
    n: usize,
    mats: &[u32],
    m: usize,
    table: &mut [u32],
    list: &mut [u64],
) -> usize
    requires { (Countable n m numbers.now mats.now list.old) × (Empty table.old) }
    ensures { result ≡ length (list_of (values_of m mats.now n numbers.now)) }
{
    let mut count = 0;
    for p in 0..n {
        let b = usize::from(numbers[p]);
        count = enter(table, b, value_at(mats, m, b), list, count);
    }
    count
}

// The same, with a table and a list of its own: nothing that is lent is written.
pub fn count_materials(numbers: &[u8], n: usize, mats: &[u32], m: usize) -> usize
    requires { (n ≤ length numbers.now) × (m ≤ 256) × (2 * m ≤ length mats.now) }
    ensures { result ≡ length (list_of (values_of m mats.now n numbers.now)) }
{
    let mut table = [0u32; 1280];
    let mut list = [0u64; 256];
    count_all(numbers, n, mats, m, &mut table, &mut list)
}

// The first `count` materials of the list as bytes.
pub fn put_list(out: &mut [u8], list: &[u64], count: usize)
    requires { (count ≤ length list.now) × (8 * count ≤ length out.old) × (count ≤ 256) }
    ensures { out.new ≡ over (materials_bytes (take count list.now)) out.old }
{
    for i in 0..count {
        put_le(out, 8 * i, 8, list[i]);
    }
}
