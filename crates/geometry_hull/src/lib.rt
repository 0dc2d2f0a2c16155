// The hull of a mesh of kind 4 whose records are linked: its vertices shrunk, listed by octants and stored.
#![tactic(auto)]

ghost use Rattle.std.specs.Prelude.{◌≡◌, ◌*◌, take};
ghost use Rattle.meshes.specs.Meshes.{geometry_of};
ghost use Rattle.prepared.specs.Answers.{hull};
ghost use Rattle.rings.specs.Meshes.{mesh_of};
ghost use Rattle.shrinking.specs.Whole.{shrunk_of};
ghost use Rattle.geometry_hull.specs.Steps.Hulls.{ShrinkRoom, HullRoom, HullLeft};

use math::vec3::Vec3;
use meshes::Bound;
use octants::lists::OctantCounts;

// The vertices shrunk, over the corners and links that stand in `entries` and `rows`. The points have room for just the vertices.
fn shrink_linked(
    bound: Bound,
    p: usize,
    v: usize,
    vertices: &[u32],
    entries: &[u32],
    places: &mut [u32],
    temp: &mut [u32],
    rows: &[u32],
    points: &mut [u32],
    centres: &mut [f32],
    olds: &mut [f32],
    news: &mut [f32],
)
    requires { ShrinkRoom p v vertices.now entries.now places.old temp.old rows.now points.old centres.old olds.old news.old }
    ensures { points.new
        ≡ shrunk_of (geometry_of bound) (mesh_of (take (3 * p) entries.now) (take (3 * p) rows.now) p vertices.now v) }
{
    let words = 3 * p;
    shrinking::whole::shrunk_points(
        meshes::checking::geometry_of(bound),
        &entries[..words],
        &rows[..words],
        p,
        vertices,
        v,
        places,
        temp,
        centres,
        olds,
        news,
        points,
    );
}

// Lists the octants of the points, and stores them: the octants are those of the points before they are stored.
fn list_and_store(
    v: usize,
    quantum: Vec3,
    shrunk: &mut [u8],
    shrunk_floats: &mut [u32],
    octants: &mut [u32],
    entries: &mut [u32],
    places: &mut [u32],
    temp: &mut [u32],
    stack: &mut [u32],
    rows: &mut [u32],
    points: &[u32],
) -> OctantCounts
    requires { HullRoom v (hull shrunk.old shrunk_floats.old octants.old) entries.old places.old temp.old stack.old rows.old
        points.now }
    ensures { HullLeft quantum v points.now (hull shrunk.old shrunk_floats.old octants.old)
        (hull shrunk.new shrunk_floats.new octants.new) result }
{
    let counts = octants::lists::list_octants(
        v, points, octants, places, entries, temp, stack, rows,
    );
    finishing::storing::put_stored(points, v, quantum, shrunk, shrunk_floats);
    counts
}

// Both, over the corners and links that stand in `entries` and `rows`.
pub fn shrink_and_store(
    bound: Bound,
    p: usize,
    v: usize,
    quantum: Vec3,
    vertices: &[u32],
    shrunk: &mut [u8],
    shrunk_floats: &mut [u32],
    octants: &mut [u32],
    entries: &mut [u32],
    places: &mut [u32],
    temp: &mut [u32],
    stack: &mut [u32],
    rows: &mut [u32],
    points: &mut [u32],
    centres: &mut [f32],
    olds: &mut [f32],
    news: &mut [f32],
) -> OctantCounts
    requires { (ShrinkRoom p v vertices.now entries.old places.old temp.old rows.old points.old centres.old olds.old news.old)
        × (HullRoom v (hull shrunk.old shrunk_floats.old octants.old) entries.old places.old temp.old stack.old rows.old points.old) }
    ensures { HullLeft quantum v
        (shrunk_of (geometry_of bound) (mesh_of (take (3 * p) entries.old) (take (3 * p) rows.old) p vertices.now v))
        (hull shrunk.old shrunk_floats.old octants.old)
        (hull shrunk.new shrunk_floats.new octants.new) result }
{
    shrink_linked(
        bound, p, v, vertices, entries, places, temp, rows, points, centres, olds, news,
    );
    list_and_store(
        v,
        quantum,
        shrunk,
        shrunk_floats,
        octants,
        entries,
        places,
        temp,
        stack,
        rows,
        points,
    )
}
