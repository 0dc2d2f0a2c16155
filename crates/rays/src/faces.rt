// The nine rows of the triangles' coordinates.
ghost use Rattle.std.specs.Prelude.{◌≡◌, ◌+◌, ◌*◌, ◌≤◌, ◌<◌, length};
ghost use Rattle.rays.specs.Rays.{facet_of};
ghost use Rattle.rays.specs.Steps.Rows.{put_column, put_facet, Fillable, Filled};

use crate::rays::Facet;
use math::vec3::Vec3;
use points::vertex_at;

// A triangle by its first corner and the sides from there.
pub fn facet(a: Vec3, b: Vec3, c: Vec3) -> Facet
    ensures { result ≡ facet_of a b c }
{
    Facet {
        corner: a,
        side1: b.sub(a),
        side2: c.sub(a),
    }
}

fn put_column(rows: &mut [f32], t: usize, at: usize, p: Vec3)
    requires { at + 2 * t < length rows.old }
    ensures { rows.new ≡ put_column rows.old t at p }
{
    rows[at] = p.x;
    rows[at + t] = p.y;
    rows[at + 2 * t] = p.z;
}

fn put_facet(rows: &mut [f32], t: usize, k: usize, f: Facet)
    requires { (9 * t ≤ length rows.old) × (k < t) }
    ensures { rows.new ≡ put_facet rows.old t k f }
{
    put_column(rows, t, k, f.corner);
    put_column(rows, t, 3 * t + k, f.side1);
    put_column(rows, t, 6 * t + k, f.side2);
}

// The rows of the t triangles over the points.
pub fn put_rows(tri: &[u32], t: usize, points: &[u32], rows: &mut [f32])
    requires { Fillable tri.now t points.now rows.old }
    ensures { Filled tri.now t points.now rows.new t }
{
    for k in 0..t {
        let a = vertex_at(points, tri[k] as usize);
        let b = vertex_at(points, tri[t + k] as usize);
        let c = vertex_at(points, tri[2 * t + k] as usize);
        put_facet(rows, t, k, facet(a, b, c));
    }
}
