// A margin is tried: the vertices are moved by it and checked.
ghost use Rattle.std.specs.Prelude.{true, false, is_ok, ◌≡◌};
ghost use Rattle.rings.specs.Meshes.{mesh_of};
ghost use Rattle.trial.specs.Trials.{passes_at};
ghost use Rattle.trial.specs.Steps.Trying.{OneTryable, Tryable, Tried};

// Whether the vertex `hint` alone shows that the margin fails: it is moved, and a triangle as it was is on its way back.
fn stopped_at(
    hint: usize,
    tri: &[u32],
    t: usize,
    corners: &[u32],
    links: &[u32],
    n: usize,
    vertices: &[u32],
    v: usize,
    firsts: &[u32],
    normals: &[f32],
    margin: f32,
    olds: &[f32],
    ring: &mut [u32],
    ns: &mut [f32],
    points: &mut [u32],
) -> bool
    requires { OneTryable (mesh_of corners.now links.now n vertices.now v) tri.now t firsts.now normals.now olds.now
        ring.old ns.old points.old }
    ensures { result ≡ true → passes_at (mesh_of corners.now links.now n vertices.now v) margin ≡ false }
{
    if v <= hint {
        return false;
    }
    let by = -margin;
    points::put_point(
        points,
        hint,
        rings::vertex::shrunk_at(
            corners, links, n, vertices, v, firsts, normals, by, hint, ring, ns,
        ),
    );
    rays::check::stopped(tri, t, vertices, points, v, olds, hint)
}

// No triangle has a corner past the vertices.
fn try_good(
    hint: usize,
    tri: &[u32],
    t: usize,
    corners: &[u32],
    links: &[u32],
    n: usize,
    vertices: &[u32],
    v: usize,
    firsts: &[u32],
    normals: &[f32],
    margin: f32,
    olds: &[f32],
    ring: &mut [u32],
    ns: &mut [f32],
    news: &mut [f32],
    points: &mut [u32],
) -> Result<(), usize>
    requires { Tryable (mesh_of corners.now links.now n vertices.now v) false tri.now t firsts.now normals.now olds.now
        ring.old ns.old news.old points.old }
    ensures { Tried (mesh_of corners.now links.now n vertices.now v) margin points.new (is_ok result) }
{
    if stopped_at(
        hint, tri, t, corners, links, n, vertices, v, firsts, normals, margin, olds, ring, ns,
        points,
    ) {
        return Err(hint);
    }
    rings::vertex::by_margin(
        corners, links, n, vertices, v, firsts, normals, margin, ring, ns, points,
    );
    rays::check::check_shrunk(tri, t, vertices, points, v, hint, olds, news)
}

// Ok where the margin passes, with the points that it gives; else a vertex that fails, to be tried first at the next margin (`hint`).
// `bad` says that a triangle has a corner past the vertices. All but the points is work.
pub fn try_margin(
    bad: bool,
    hint: usize,
    tri: &[u32],
    t: usize,
    corners: &[u32],
    links: &[u32],
    n: usize,
    vertices: &[u32],
    v: usize,
    firsts: &[u32],
    normals: &[f32],
    margin: f32,
    olds: &[f32],
    ring: &mut [u32],
    ns: &mut [f32],
    news: &mut [f32],
    points: &mut [u32],
) -> Result<(), usize>
    requires { Tryable (mesh_of corners.now links.now n vertices.now v) bad tri.now t firsts.now normals.now olds.now
        ring.old ns.old news.old points.old }
    ensures { Tried (mesh_of corners.now links.now n vertices.now v) margin points.new (is_ok result) }
{
    if bad {
        let stayed = crate::stay::all_stay(
            corners, links, n, vertices, v, firsts, normals, margin, ring, ns, points,
        );
        return if stayed { Ok(()) } else { Err(hint) };
    }
    try_good(
        hint, tri, t, corners, links, n, vertices, v, firsts, normals, margin, olds, ring, ns,
        news, points,
    )
}
