// Where a vertex moves to, by the normals of the polygons around it.
ghost use Rattle.std.specs.Prelude.{◌≡◌, ◌+◌, ◌-◌, ◌*◌, ◌≤◌, ◌<◌, length};
ghost use Rattle.rings.specs.Moving.{along_of, way_of, farther_of, meet_of, triple_of, each_third, each_second, each_first, sum_from, between_of, moved_of};
ghost use Rattle.rings.specs.Steps.Stored.{normal_at, normals_from, reach_of};

use math::vec3::Vec3;

// A vertex, and how far it goes along a normal: the margin with its sign turned.
#[derive(Clone, Copy)]
pub struct Push {
    pub from: Vec3,
    pub by: f32,
}

// A point, and the square of the way to it: carried along, so that no triple waits for the way of the one before.
#[derive(Clone, Copy)]
pub struct Reach {
    pub point: Vec3,
    pub way: f32,
}

fn along(m: Push, n: Vec3) -> Vec3
    ensures { result ≡ along_of m n }
{
    m.from.add(n.scale(m.by))
}

fn way(m: Push, x: Vec3) -> f32
    ensures { result ≡ way_of m x }
{
    let d = x.sub(m.from);
    d.dot(d)
}

fn reached(m: Push, x: Vec3) -> Reach
    ensures { result ≡ reach_of m x }
{
    Reach {
        point: x,
        way: way(m, x),
    }
}

fn farther(m: Push, best: Reach, x: Vec3) -> Reach
    requires { best ≡ reach_of m best.point }
    ensures { result ≡ reach_of m (farther_of m best.point x) }
{
    let new = reached(m, x);
    if new.way > best.way { new } else { best }
}

// Where the planes of three normals meet, of which k is the cross product of the last two.
fn meet(m: Push, a: Vec3, b: Vec3, c: Vec3) -> Vec3
    ensures { result ≡ meet_of m a b c }
{
    let k = b.cross(c);
    let sum = k.add(c.cross(a)).add(a.cross(b));
    along(m, sum.scale(1.0 / a.dot(k)))
}

fn triple(m: Push, a: Vec3, b: Vec3, best: Reach, c: Vec3) -> Reach
    requires { best ≡ reach_of m best.point }
    ensures { result ≡ reach_of m (triple_of m a b best.point c) }
{
    let d = float32::signs::abs(a.dot(b.cross(c)));
    if d > 0.25 {
        return farther(m, best, meet(m, a, b, c));
    }
    best
}

pub fn normal_at(ns: &[f32], i: usize) -> Vec3
    requires { 3 * i + 3 ≤ length ns.now }
    ensures { result ≡ normal_at ns.now i }
{
    let at = 3 * i;
    Vec3 {
        x: ns[at],
        y: ns[at + 1],
        z: ns[at + 2],
    }
}

// The triples of a and b with each normal from number `from` on.
fn each_third(
    ns: &[f32],
    count: usize,
    from: usize,
    m: Push,
    a: Vec3,
    b: Vec3,
    start: Reach,
) -> Reach
    requires { (from ≤ count) × (3 * count ≤ length ns.now) × (start ≡ reach_of m start.point) }
    ensures { result ≡ reach_of m (each_third m a b start.point (normals_from ns.now from (count - from))) }
{
    let mut best = start;
    for i in from..count {
        best = triple(m, a, b, best, normal_at(ns, i));
    }
    best
}

// The triples of a with each two normals from number `from` on.
fn each_second(ns: &[f32], count: usize, from: usize, m: Push, a: Vec3, start: Reach) -> Reach
    requires { (from ≤ count) × (3 * count ≤ length ns.now) × (start ≡ reach_of m start.point) }
    ensures { result ≡ reach_of m (each_second m a start.point (normals_from ns.now from (count - from))) }
{
    let mut best = start;
    for i in from..count {
        best = each_third(ns, count, i + 1, m, a, normal_at(ns, i), best);
    }
    best
}

// The triples of all the normals.
fn each_first(ns: &[f32], count: usize, m: Push, start: Vec3) -> Vec3
    requires { 3 * count ≤ length ns.now }
    ensures { result ≡ each_first m start (normals_from ns.now 0 count) }
{
    let mut best = reached(m, start);
    for i in 0..count {
        best = each_second(ns, count, i + 1, m, normal_at(ns, i), best);
    }
    best.point
}

fn sum_from(ns: &[f32], count: usize, own: Vec3) -> Vec3
    requires { (1 ≤ count) × (3 * count ≤ length ns.now) }
    ensures { result ≡ sum_from own (normals_from ns.now 1 (count - 1)) }
{
    let mut sum = own;
    for i in 1..count {
        sum = sum.add(normal_at(ns, i));
    }
    sum
}

// Two normals: the third is square to both. Where the angle between them is small the vertex goes along the first.
fn between(m: Push, a: Vec3, b: Vec3, best: Vec3) -> Vec3
    ensures { result ≡ between_of m a b best }
{
    let c = a.cross(b);
    let g = c.dot(c);
    if g < 0.1 {
        return along(m, a);
    }
    let third = c.scale(1.0 / float32::root::sqrt(g));
    let found = triple(m, a, b, reached(m, best), third);
    found.point
}

// Rule S5, by the vertex's own normal and those of its ring, `count` in all.
pub fn moved(ns: &[f32], count: usize, m: Push) -> Vec3
    requires { (1 ≤ count) × (3 * count ≤ length ns.now) }
    ensures { result ≡ moved_of m (normal_at ns.now 0) (normals_from ns.now 1 (count - 1)) }
{
    let own = normal_at(ns, 0);
    if count == 1 {
        return along(m, own);
    }
    let best = along(m, math::vec3::norm(sum_from(ns, count, own)));
    if count == 2 {
        return between(m, own, normal_at(ns, 1), best);
    }
    each_first(ns, count, m, best)
}
