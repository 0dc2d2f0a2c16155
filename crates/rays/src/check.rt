// No vertex that moved crosses, on its way back, a triangle that is not its own.
ghost use Rattle.std.specs.Prelude.{◌≡◌, ℕ, ◌+◌, ◌*◌, ◌≤◌, ◌<◌, false, is_ok, List, length};
ghost use Rattle.rays.specs.Steps.Counting.{none_to};
ghost use Rattle.rays.specs.Checks.{way_back, passes};
ghost use Rattle.rays.specs.Steps.Checking.{has_moved, missing_in, fails_in, stopped_in, turn_of, Begun, Checkable, Ready, Stoppable};
ghost use Rattle.rays.specs.Steps.Rows.{InRows, Laid};
ghost use Rattle.points.specs.Points.{vertex_at};

use crate::rays::Ray;
use crate::rows::hits_in;
use math::vec3::Vec3;
use points::vertex_at;

fn way_back(vertex: Vec3, shrunk: Vec3) -> Ray
    ensures { result ≡ way_back vertex shrunk }
{
    let d = vertex.sub(shrunk);
    let length = d.length();
    Ray {
        pos: shrunk,
        dir: d.scale(1.0 / length),
        length: length,
    }
}

// A NaN length counts as moved.
pub fn has_moved(vertex: Vec3, shrunk: Vec3) -> bool
    ensures { result ≡ has_moved vertex shrunk }
{
    let ray = way_back(vertex, shrunk);
    let stayed = ray.length == 0.0;
    !stayed
}

// Some triangle has a corner that is none of the v vertices.
pub fn missing_corner(tri: &[u32], t: usize, v: usize) -> bool
    requires { (3 * t ≤ length tri.now) × (t < 32768) }
    ensures { result ≡ missing_in tri.now t v }
{
    tri[..3 * t].iter().any(|&corner| v <= corner as usize)
}

// Whether a corner is missing; where none is, the rows of the triangles as they are. Both serve every margin.
pub fn begin(tri: &[u32], t: usize, old: &[u32], v: usize, olds: &mut [f32]) -> bool
    requires { (InRows tri.now olds.old t) × (3 * v ≤ length old.now) }
    ensures { Begun tri.now t old.now v olds.new result }
{
    if missing_corner(tri, t, v) {
        return true;
    }
    crate::faces::put_rows(tri, t, old, olds);
    false
}

fn fails(
    tri: &[u32],
    t: usize,
    old: &[u32],
    new: &[u32],
    v: usize,
    olds: &[f32],
    news: &[f32],
    i: usize,
) -> bool
    requires { (Ready tri.now t old.now new.now v olds.now news.now) × (i < v) }
    ensures { result ≡ fails_in tri.now t old.now new.now i }
{
    let ray = way_back(vertex_at(old, i), vertex_at(new, i));
    if ray.length == 0.0 {
        return false;
    }
    let before = hits_in(tri, olds, t, i as u32, ray);
    let after = hits_in(tri, news, t, i as u32, ray);
    0 < before + after
}

// Vertex i moved, and a triangle as it was is on its way back: so it fails, whatever became of the other vertices.
pub fn stopped(
    tri: &[u32],
    t: usize,
    old: &[u32],
    new: &[u32],
    v: usize,
    olds: &[f32],
    i: usize,
) -> bool
    requires { (Stoppable tri.now t old.now new.now v olds.now) × (i < v) }
    ensures { result ≡ stopped_in tri.now t old.now (vertex_at new.now i) i }
{
    let ray = way_back(vertex_at(old, i), vertex_at(new, i));
    if ray.length == 0.0 {
        return false;
    }
    0 < hits_in(tri, olds, t, i as u32, ray)
}

// The vertex of turn k: the hint first, then the others in their order. A hint that is none of the v vertices changes nothing.
fn turn(k: usize, hint: usize, v: usize) -> usize
    requires { k < v }
    ensures { (result ≡ turn_of hint v k) × (result < v) }
{
    if v <= hint {
        return k;
    }
    if k == 0 {
        return hint;
    }
    if k <= hint { k - 1 } else { k }
}

// Ok where none of the vertices fails, or else one that does.
fn none_fails(
    tri: &[u32],
    t: usize,
    old: &[u32],
    new: &[u32],
    v: usize,
    hint: usize,
    olds: &[f32],
    news: &[f32],
) -> Result<(), usize>
    requires { Ready tri.now t old.now new.now v olds.now news.now }
    ensures { is_ok result ≡ none_to v (fails_in tri.now t old.now new.now) }
{
    for k in 0..v {
        let i = turn(k, hint, v);
        if fails(tri, t, old, new, v, olds, news, i) {
            return Err(i);
        }
    }
    Ok(())
}

// Rule S6, of any polygons whose triangles the rows `tri` hold, none with a missing corner. The rows `news` are work.
// Ok where the vertices pass, or else a vertex that fails. The vertex `hint` is tried first: nothing but time depends on it, or on
// which vertex the Err names.
pub fn check_shrunk(
    tri: &[u32],
    t: usize,
    old: &[u32],
    new: &[u32],
    v: usize,
    hint: usize,
    olds: &[f32],
    news: &mut [f32],
) -> Result<(), usize>
    requires { (Checkable tri.now t old.now new.now v olds.now news.old) × (Begun tri.now t old.now v olds.now false) }
    ensures { (cs : List ℕ) (n : ℕ) → Laid cs n tri.now t → is_ok result ≡ passes cs n old.now new.now v }
{
    crate::faces::put_rows(tri, t, new, news);
    none_fails(tri, t, old, new, v, hint, olds, news)
}
