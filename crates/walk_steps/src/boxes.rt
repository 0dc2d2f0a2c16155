// Which boxes meet: items and the query as floats, records and the quantised query as integers.
ghost use Rattle.std.specs.Prelude.{◌≡◌};
ghost use Rattle.std.specs.Float.Ieee.{le};
ghost use Rattle.walk_steps.specs.Boxes.{overlap, meets_box, meets, query_of};
ghost use Rattle.walk_steps.specs.Steps.Lanes.{flip, plain_of, Topped};

use math::aabb::Aabb;
use math::vec3::Vec3;
use records::BoundVertex;

// A query's box in units of the quantum.
#[derive(Clone, Copy)]
pub struct Query {
    pub min: BoundVertex,
    pub max: BoundVertex,
}

pub fn quantise_box(b: Aabb, cen: Vec3, inverse: Vec3) -> Query
    ensures { result ≡ query_of b cen inverse }
{
    Query {
        min: records::quantise::quantise_query(b.min, cen, inverse),
        max: records::quantise::quantise_query(b.max, cen, inverse),
    }
}

// A query as it is compared with a record's eight numbers, its lower corner turned, so that every number of a record is compared in one way.
// No number of a record is above the last two. The corners stand in the order in which a box has them: a box that was passed is then read as
// it was stored, and no load waits for two stores.
#[derive(Clone, Copy)]
pub struct Lanes {
    pub low: BoundVertex,
    pub high: BoundVertex,
    pub first: i16,
    pub second: i16,
}

// −1 − v, which turns the order round.
fn turned(v: i16) -> i16
    ensures { result ≡ flip v }
{
    !v
}

pub fn lanes_of(q: Query) -> Lanes
    ensures { (plain_of result ≡ q) × (Topped result) }
{
    let max = q.max;
    let min = q.min;
    Lanes {
        low: BoundVertex(turned(min.0), turned(min.1), turned(min.2)),
        high: max,
        first: 32767,
        second: 32767,
    }
}

// On one axis, as floats.
fn overlap_f32(min: f32, max: f32, other_min: f32, other_max: f32) -> bool
    ensures { result ≡ overlap le min max other_min other_max }
{
    min <= other_max && other_min <= max
}

// Boxes as floats.
pub fn meets_box(a: Aabb, b: Aabb) -> bool
    ensures { result ≡ meets_box a b }
{
    overlap_f32(a.min.x, a.max.x, b.min.x, b.max.x)
        && (overlap_f32(a.min.y, a.max.y, b.min.y, b.max.y)
            && overlap_f32(a.min.z, a.max.z, b.min.z, b.max.z))
}

// A record's box and the query, as integers: all eight numbers in their order and without a branch, which compiles to one comparison.
pub fn meets(q: Lanes, min: BoundVertex, max: BoundVertex, first: i16, second: i16) -> bool
    requires { Topped q }
    ensures { result ≡ meets (plain_of q) min max }
{
    (((min.0 <= q.high.0) & (min.1 <= q.high.1)) & ((min.2 <= q.high.2) & (!max.0 <= q.low.0)))
        & (((!max.1 <= q.low.1) & (!max.2 <= q.low.2))
            & ((first <= q.first) & (second <= q.second)))
}
