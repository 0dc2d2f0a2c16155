// A ray against a triangle, with no branch: each test counts one if it fails, and answers no bool, so that the loop over triangles compiles to vector code.
ghost use Rattle.std.specs.Prelude.{◌≡◌, not};
ghost use Rattle.std.specs.Float.Ieee.{lt, le};
ghost use Rattle.float32.specs.Signs.{abs_of};
ghost use Rattle.math.specs.Vec3s.{tolerance};
ghost use Rattle.rays.specs.Steps.Counting.{Failed};
ghost use Rattle.rays.specs.Rays.{meeting_of, within, ahead, hits};

use math::vec3::Vec3;

#[derive(Clone, Copy)]
pub struct Ray {
    pub pos: Vec3,
    pub dir: Vec3,
    pub length: f32,
}

// A triangle: its first corner, and the sides from there to the second and the third.
#[derive(Clone, Copy)]
pub struct Facet {
    pub corner: Vec3,
    pub side1: Vec3,
    pub side2: Vec3,
}

// Where a ray meets a triangle's plane.
#[derive(Clone, Copy)]
pub struct Meeting {
    pub det: f32,
    pub u: f32,
    pub v: f32,
    pub t: f32,
}

fn meet(f: Facet, ray: Ray) -> Meeting
    ensures { result ≡ meeting_of f ray }
{
    let k = ray.dir.cross(f.side2);
    let det = f.side1.dot(k);
    let inv = 1.0 / det;
    let w = ray.pos.sub(f.corner);
    let q = w.cross(f.side1);
    Meeting {
        det: det,
        u: w.dot(k) * inv,
        v: ray.dir.dot(q) * inv,
        t: f.side2.dot(q) * inv,
    }
}

// Fails where a is below b: a NaN does not.
fn not_below(a: f32, b: f32) -> u32
    ensures { Failed 1 (not (lt a b)) result }
{
    u32::from(a < b)
}

// Fails unless a is at most b: a NaN does.
fn at_most(a: f32, b: f32) -> u32
    ensures { Failed 1 (le a b) result }
{
    u32::from(!(a <= b))
}

// Fails where |det| is below 1e-6, by two comparisons.
fn not_flat(det: f32) -> u32
    ensures { Failed 1 (not (lt (abs_of det) tolerance)) result }
{
    let low = not_below(det, 0.000001);
    let high = not_below(-0.000001, det);
    u32::from(low + high == 2)
}

fn within(u: f32) -> u32
    ensures { Failed 2 (within u) result }
{
    at_most(0.0, u) + at_most(u, 1.0)
}

fn ahead(m: Meeting, length: f32) -> u32
    ensures { Failed 4 (ahead m length) result }
{
    let inside = not_below(m.v, 0.0) + not_below(1.0, m.u + m.v);
    let near = not_below(m.t, 0.0) + at_most(m.t, length);
    inside + near
}

// How many of the seven tests of a hit fail.
pub fn misses(f: Facet, ray: Ray) -> u32
    ensures { Failed 7 (hits ray f) result }
{
    let m = meet(f, ray);
    not_flat(m.det) + (within(m.u) + ahead(m, ray.length))
}
