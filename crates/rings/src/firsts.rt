// The first side at which each vertex stands.
ghost use Rattle.std.specs.Prelude.{◌≡◌, ◌+◌, ◌*◌, ◌≤◌, ◌<◌, length};
ghost use Rattle.rings.specs.Steps.Stored.{noted, NoSides, Firsts};

fn no_sides(v: usize, firsts: &mut [u32])
    requires { v ≤ length firsts.old }
    ensures { NoSides v firsts.new }
{
    firsts[..v].fill(0xffff_ffff);
}

// Side s, at which vertex i stands, unless there is no such vertex or it has an earlier side.
fn note_side(firsts: &mut [u32], v: usize, i: usize, s: usize)
    requires { (v ≤ length firsts.old) × (s < 98304) }
    ensures { firsts.new ≡ noted firsts.old v i s }
{
    if i < v {
        if firsts[i] == 0xffff_ffff {
            firsts[i] = s as u32;
        }
    }
}

// The first sides of the v vertices, over the sides of n polygons.
pub fn put_firsts(corners: &[u32], n: usize, v: usize, firsts: &mut [u32])
    requires { (3 * n ≤ length corners.now) × (n < 32768) × (v ≤ length firsts.old) }
    ensures { Firsts corners.now (3 * n) v firsts.new }
{
    no_sides(v, firsts);
    let end = 3 * n;
    for s in 0..end {
        note_side(firsts, v, crate::normals::wide(corners[s]), s);
    }
}
