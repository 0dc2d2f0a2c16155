// The order keys of vertices, made once for all octants: those of x, then of y, then of z.
ghost use Rattle.std.specs.Prelude.{◌≡◌, ◌+◌, ◌*◌, ◌≤◌, ◌<◌, length, get_or};
ghost use Rattle.float32.specs.SortOrder.{key_of};
ghost use Rattle.octants.specs.Steps.Parts.{Filled, Keyed};

use float32::sorting::order_key;

// The keys of one axis, from `at` on.
fn put_axis(n: usize, vertices: &[u32], axis: usize, keys: &mut [u32], at: usize)
    requires { (axis < 3) × (3 * n ≤ length vertices.now) × (at + n ≤ length keys.old) × (n ≤ 32768) }
    ensures { Filled (λ p. key_of (get_or vertices.now (3 * p + axis) 0)) n at keys.old keys.new }
{
    for p in 0..n {
        keys[at + p] = order_key(vertices[3 * p + axis]);
    }
}

pub fn put_keys(n: usize, vertices: &[u32], keys: &mut [u32])
    requires { (3 * n ≤ length vertices.now) × (3 * n ≤ length keys.old) × (n ≤ 32768) }
    ensures { Keyed n vertices.now keys.new }
{
    put_axis(n, vertices, 0, keys, 0);
    put_axis(n, vertices, 1, keys, n);
    put_axis(n, vertices, 2, keys, 2 * n);
}
