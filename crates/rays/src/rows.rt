// The triangles in rows, and how many of them a ray hits. The loop has no branch but its own, so that it compiles to vector code.
ghost use Rattle.std.specs.Prelude.{◌≡◌, not, ◌||◌, ◌+◌, ◌*◌, ◌≤◌, ◌<◌, eqb, length};
ghost use Rattle.rays.specs.Steps.Counting.{Failed};
ghost use Rattle.base.specs.Lists.{one_if};
ghost use Rattle.rays.specs.Rays.{hits};
ghost use Rattle.rays.specs.Steps.Rows.{column_at, facet_at, hits_in, InRows};

use crate::rays::{Facet, Ray};
use math::vec3::Vec3;

fn column_at(rows: &[f32], t: usize, at: usize) -> Vec3
    requires { at + 2 * t < length rows.now }
    ensures { result ≡ column_at rows.now t at }
{
    Vec3 {
        x: rows[at],
        y: rows[at + t],
        z: rows[at + 2 * t],
    }
}

fn facet_at(rows: &[f32], t: usize, k: usize) -> Facet
    requires { (9 * t ≤ length rows.now) × (k < t) }
    ensures { result ≡ facet_at rows.now t k }
{
    Facet {
        corner: column_at(rows, t, k),
        side1: column_at(rows, t, 3 * t + k),
        side2: column_at(rows, t, 6 * t + k),
    }
}

// Fails where the two are the same.
fn differ(a: u32, b: u32) -> u32
    ensures { Failed 1 (not (eqb a b)) result }
{
    u32::from(a == b)
}

// Fails where i is among the three.
fn none_of(a: u32, b: u32, c: u32, i: u32) -> u32
    ensures { Failed 3 (not (eqb a i || (eqb b i || eqb c i))) result }
{
    differ(a, i) + (differ(b, i) + differ(c, i))
}

fn one_if_none(failed: u32) -> u32
    ensures { result ≡ one_if (eqb failed 0) }
{
    u32::from(failed == 0)
}

// How many of the t triangles that do not have the vertex i the ray hits.
pub fn hits_in(tri: &[u32], rows: &[f32], t: usize, i: u32, ray: Ray) -> u32
    requires { InRows tri.now rows.now t }
    ensures { result ≡ hits_in tri.now rows.now t i ray }
{
    let mut hits = 0;
    for k in 0..t {
        let missed = crate::rays::misses(facet_at(rows, t, k), ray);
        let own = none_of(tri[k], tri[t + k], tri[2 * t + k], i);
        hits += one_if_none(missed + own);
    }
    hits
}
