// The rows of an octant: how near each vertex is, in the octant's direction.
ghost use Rattle.std.specs.Prelude.{◌≡◌, cond, List, ℕ, ◌+◌, ◌*◌, ◌≤◌, ◌<◌, length, get_or};
ghost use Rattle.shadows.specs.Nearness.{turned, inside_of};
ghost use Rattle.shadows.specs.Ranks.{cast_of, hide_of};
ghost use Rattle.math.specs.declared.words3.Words3.{Words3};
ghost use Rattle.octants.specs.Steps.Parts.{near_at, Filled, Keyed, Laid};

use math::words3::Words3;

// A key, turned about the zeros' where the direction rises, so that the lesser is the further. A NaN's stays 0.
fn turned(falls: bool, key: u32) -> u32
    ensures { result ≡ turned falls key }
{
    if falls {
        return key;
    }
    if key == 0 {
        return 0;
    }
    0xffff_ffff - key + 1
}

// 1 where t is a NaN's or the end's. A sum of such is 0 where none is, and no branch: the loops over it are compiled to vectors.
fn outside(t: u32, end: u32) -> u32
    ensures { result ≡ cond (inside_of t end) 0 1 }
{
    if t == 0 {
        1
    } else if t == end {
        1
    } else {
        0
    }
}

// z where the vertex casts a shadow, else beyond all.
fn cast_of(a: Words3) -> u32
    ensures { result ≡ cast_of a }
{
    let failed = outside(a.x, 0xff80_0000) + outside(a.y, 0xff80_0000) + outside(a.z, 0xff80_0000);
    if failed == 0 { a.z } else { 0xffff_ffff }
}

// z where the vertex can be shadowed, else before all.
fn hide_of(a: Words3) -> u32
    ensures { result ≡ hide_of a }
{
    let failed = outside(a.x, 0x0080_0000) + outside(a.y, 0x0080_0000) + outside(a.z, 0x0080_0000);
    if failed == 0 { a.z } else { 0 }
}

// One axis of all vertices, from `at` on.
fn turn_axis(falls: bool, n: usize, keys: &[u32], rows: &mut [u32], at: usize)
    requires { (at + n ≤ length keys.now) × (at + n ≤ length rows.old) }
    ensures { Filled (λ p. turned falls (get_or keys.now (at + p) 0)) n at rows.old rows.new }
{
    for p in 0..n {
        rows[at + p] = turned(falls, keys[at + p]);
    }
}

// How near vertex p is, x and y from its row.
fn near_at(falls: bool, n: usize, keys: &[u32], rows: &[u32], p: usize) -> Words3
    requires { (3 * n ≤ length keys.now) × (2 * n ≤ length rows.now) × (p < n) }
    ensures { result ≡ near_at falls n keys.now rows.now p }
{
    Words3 {
        x: rows[p],
        y: rows[n + p],
        z: turned(falls, keys[2 * n + p]),
    }
}

// What `rank` makes of how near each vertex is, from `at` on.
fn put_ranks<F: Fn(Words3) -> u32>(
    falls: bool,
    n: usize,
    keys: &[u32],
    rows: &mut [u32],
    at: usize,
    rank: F,
)
    requires room { (3 * n ≤ length keys.now) × (2 * n ≤ at) × (at + n ≤ length rows.old) }
    requires callable { F.IsAlwaysCallable rank }
    ensures { (f : Words3 → ℕ) → ((a : Words3) (r : ℕ) → F.post rank a r → r ≡ f a)
        → Filled (λ p. f (near_at falls n keys.now rows.old p)) n at rows.old rows.new }
{
    for p in 0..n {
        rows[at + p] = rank(near_at(falls, n, keys, rows, p));
    }
}

// Lays out the rows of an octant, which falls on x, y, z by bits 0, 1, 2 of its number.
pub fn lay_rows(octant: u32, n: usize, keys: &[u32], rows: &mut [u32])
    requires { (3 * n ≤ length keys.now) × (4 * n ≤ length rows.old) }
    ensures { (ws : List ℕ) → Keyed n ws keys.now → Laid octant ws n rows.new }
{
    let falls = octant / 4 % 2 == 1;
    turn_axis(octant % 2 == 1, n, keys, rows, 0);
    turn_axis(octant / 2 % 2 == 1, n, keys, rows, n);
    put_ranks(falls, n, keys, rows, 2 * n, cast_of);
    put_ranks(falls, n, keys, rows, 3 * n, hide_of);
}
