// The margins are tried one after the other, each half of the one before, until one passes.
ghost use Rattle.rings.specs.Meshes.{mesh_of};
ghost use Rattle.shrink.specs.Steps.Work.{Found};
ghost use Rattle.trial.specs.Steps.Trying.{Tryable};

// The first margin that passes, or None. A finite margin is at most 148 times above 1e-6, so no float has to fall for the loop to end.
// The vertex that failed is tried first at the next margin. `bad` says that a triangle has a corner past the vertices.
pub fn first_margin(
    bad: bool,
    tri: &[u32],
    t: usize,
    corners: &[u32],
    links: &[u32],
    n: usize,
    vertices: &[u32],
    v: usize,
    firsts: &[u32],
    normals: &[f32],
    start: f32,
    olds: &[f32],
    ring: &mut [u32],
    ns: &mut [f32],
    news: &mut [f32],
    points: &mut [u32],
) -> Option<f32>
    requires { Tryable (mesh_of corners.now links.now n vertices.now v) bad tri.now t firsts.now normals.now olds.now
        ring.old ns.old news.old points.old }
    ensures { Found (mesh_of corners.now links.now n vertices.now v) start points.new result }
{
    let mut margin = start;
    let mut hint = 0;
    for _turn in 0..148u32 {
        let above = margin > 0.000001;
        if !above {
            return None;
        }
        let tried = trial::trial::try_margin(
            bad, hint, tri, t, corners, links, n, vertices, v, firsts, normals, margin, olds, ring,
            ns, news, points,
        );
        let Err(failed) = tried else {
            return Some(margin);
        };
        hint = failed;
        margin = margin * 0.5;
    }
    None
}
