// The triangles of a list of polygons, their corners in three rows.
ghost use Rattle.std.specs.Prelude.{◌+◌, ◌*◌, ◌≤◌, ◌<◌, eqb, length, not, ◌≡◌};
ghost use Rattle.base.specs.Lists.{one_if};
ghost use Rattle.corners.specs.Corners.{none};
ghost use Rattle.rays.specs.Checks.{triangles_of};
ghost use Rattle.rays.specs.Steps.Rows.{put_triangle, Layable, Laid};

fn one_if_there(corner: u32) -> usize
    ensures { result ≡ one_if (not (eqb corner none)) }
{
    usize::from(corner != 65535)
}

// How many of the n polygons are triangles.
fn count_triangles(corners: &[u32], n: usize) -> usize
    requires { (3 * n ≤ length corners.now) × (n < 32768) }
    ensures { (result ≡ length (triangles_of corners.now n)) × (result ≤ n) }
{
    let mut t = 0;
    for p in 0..n {
        t += one_if_there(corners[3 * p]);
    }
    t
}

// Polygon p as triangle k of t.
fn put_triangle(corners: &[u32], p: usize, tri: &mut [u32], t: usize, k: usize)
    requires { (3 * p + 3 ≤ length corners.now) × (3 * t ≤ length tri.old) × (k < t) }
    ensures { tri.new ≡ put_triangle tri.old t k corners.now p }
{
    let at = 3 * p;
    tri[k] = corners[at];
    tri[t + k] = corners[at + 1];
    tri[2 * t + k] = corners[at + 2];
}

// The t triangles of the n polygons, in their order.
fn put_triangles(corners: &[u32], n: usize, tri: &mut [u32], t: usize)
    requires { (Layable corners.now n tri.old) × (t ≡ length (triangles_of corners.now n)) × (t ≤ n) }
    ensures { Laid corners.now n tri.new t }
{
    let mut k = 0;
    for p in 0..n {
        if corners[3 * p] == 65535 {
            continue;
        }
        put_triangle(corners, p, tri, t, k);
        k += 1;
    }
}

// The corners of the triangles of n polygons in rows, and how many triangles there are.
pub fn compact(corners: &[u32], n: usize, tri: &mut [u32]) -> usize
    requires { Layable corners.now n tri.old }
    ensures { (Laid corners.now n tri.new result) × (result ≤ n) }
{
    let t = count_triangles(corners, n);
    put_triangles(corners, n, tri, t);
    t
}
