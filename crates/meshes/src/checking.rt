// The checks of Prepare, in its order, before anything is written.
ghost use Rattle.std.specs.Prelude.{true, false, ◌≡◌, ◌≢◌};
ghost use Rattle.materials.specs.Materials.{values_of};
ghost use Rattle.meshes.specs.Checks.{many, endless, check_within, check_in, check_as};
ghost use Rattle.meshes.specs.Meshes.{box_of, geometry_of};
ghost use Rattle.meshes.specs.Sizes.{inputs_short, lists_short, hull_short, tree_short, words_short, floats_short, short};
ghost use Rattle.meshes.specs.Steps.Few.{Few, Measured, Readable};

use crate::kind::Kind;
use crate::{Bound, Counts, Frame, Lengths, PrepareRefusal};
use corners::kinds_known;
use materials::listing::count_materials;
use math::aabb::Aabb;
use math::words3::values;
use shrinking::whole::{Geometry, infinite_start};

// Whether there are more polygons, materials or vertices than a mesh may have.
fn too_many(c: Counts) -> bool
    ensures { result ≡ many c }
{
    c.polygons > 32767 || c.materials > 256 || c.vertices > 32768
}

fn inputs_short(c: Counts, l: Lengths) -> bool
    requires { Few c }
    ensures { result ≡ inputs_short c l }
{
    let p = c.polygons;
    let v = c.vertices;
    l.polygons < 16 * p || l.numbers < p || l.mats < 2 * c.materials || l.vertices < 3 * v
}

fn lists_short(c: Counts, l: Lengths) -> bool
    requires { Few c }
    ensures { result ≡ lists_short c l }
{
    let p = c.polygons;
    let v = c.vertices;
    l.list < 2048
        || l.indices < p
        || l.polygons_out < 16 * p
        || l.stored < 6 * v
        || l.floats < 3 * v
}

fn hull_short(c: Counts, l: Lengths) -> bool
    requires { Few c }
    ensures { result ≡ hull_short c l }
{
    let v = c.vertices;
    l.shrunk < 6 * v || l.shrunk_floats < 3 * v || l.octants < 8 * v
}

fn tree_short(c: Counts, l: Lengths) -> bool
    requires { Few c }
    ensures { result ≡ tree_short c l }
{
    let p = c.polygons;
    l.node_bytes < 16 * (2 * p + 1) || l.tree_bytes < 16 * (2 * p + 1) || l.order < p
}

fn words_short(c: Counts, l: Lengths) -> bool
    requires { Few c }
    ensures { result ≡ words_short c l }
{
    let p = c.polygons;
    let v = c.vertices;
    l.entries < 7 * p + 4 * v
        || l.places < 3 * p + 3 * v
        || l.temp < 3 * p + v
        || l.stack < 3 * p + v
        || l.rows < 16 * p + 8 + v
}

fn floats_short(c: Counts, l: Lengths) -> bool
    requires { Few c }
    ensures { result ≡ floats_short c l }
{
    let p = c.polygons;
    let v = c.vertices;
    l.points < 3 * v || l.sorted < p || l.centres < 4 * p || l.olds < 9 * p || l.news < 9 * p
}

// Whether a buffer is too short.
#[tactic(auto, unfolding(crate::specs::Sizes::short))]
fn too_short(c: Counts, l: Lengths) -> bool
    requires { Few c }
    ensures { result ≡ short c l }
{
    inputs_short(c, l)
        || lists_short(c, l)
        || hull_short(c, l)
        || tree_short(c, l)
        || words_short(c, l)
        || floats_short(c, l)
}

// Whether shrinking would begin with a margin of +infinity.
fn margin_endless(b: Bound, v: usize) -> bool
    ensures { result ≡ endless b v }
{
    b.kind == 4 && v > 0 && infinite_start(geometry_of(b))
}

// A frame's box as floats.
pub fn box_of(f: Frame) -> Aabb
    ensures { result ≡ box_of f }
{
    let min = f.box_min;
    let max = f.box_max;
    Aabb {
        min: values(min),
        max: values(max),
    }
}

// What shrinking reads of a bound.
pub fn geometry_of(b: Bound) -> Geometry
    ensures { result ≡ geometry_of b }
{
    let frame = b.frame;
    let center = b.center;
    let transform = b.transform;
    Geometry {
        extent: box_of(frame),
        center,
        margin: b.margin,
        transform,
    }
}

// The checks that read the mesh: its kinds, its materials and its margin.
fn refusal_within(
    bound: Bound,
    c: Counts,
    polygons: &[u8],
    numbers: &[u8],
    mats: &[u32],
) -> Result<(), PrepareRefusal>
    requires { Readable c polygons.now numbers.now mats.now }
    ensures { result ≡ check_within bound c polygons.now (values_of c.materials mats.now c.polygons numbers.now) }
{
    if !kinds_known(polygons, c.polygons) {
        return Err(PrepareRefusal::UnknownPolygon);
    }
    if count_materials(numbers, c.polygons, mats, c.materials) > 255 {
        return Err(PrepareRefusal::TooManyMaterials);
    }
    if margin_endless(bound, c.vertices) {
        return Err(PrepareRefusal::InfiniteMargin);
    }
    Ok(())
}

// The first check that fails. Nothing is written.
pub fn refusal(
    bound: Bound,
    c: Counts,
    l: Lengths,
    polygons: &[u8],
    numbers: &[u8],
    mats: &[u32],
) -> Result<(), PrepareRefusal>
    requires { Measured l polygons.now numbers.now mats.now }
    ensures { result ≡ check_in bound c l polygons.now (values_of c.materials mats.now c.polygons numbers.now) }
{
    Kind::try_from(bound.kind)?;
    if too_many(c) {
        return Err(PrepareRefusal::TooMany);
    }
    if too_short(c, l) {
        return Err(PrepareRefusal::BufferTooShort);
    }
    refusal_within(bound, c, polygons, numbers, mats)
}

// Whether two kinds are not the same.
#[tactic(auto, using(crate::proofs::KindLaws::unlike, crate::proofs::KindLaws::alike))]
fn differ(a: Kind, b: Kind) -> bool
    ensures { (result ≡ true → a ≢ b) × (result ≡ false → a ≡ b) }
{
    a != b
}

// The first check that fails where `kind` is prepared, which the other kind is not for. Nothing is written.
pub fn refusal_as(
    kind: Kind,
    bound: Bound,
    c: Counts,
    l: Lengths,
    polygons: &[u8],
    numbers: &[u8],
    mats: &[u32],
) -> Result<(), PrepareRefusal>
    requires { Measured l polygons.now numbers.now mats.now }
    ensures { result ≡ check_as kind bound c l polygons.now
        (values_of c.materials mats.now c.polygons numbers.now) }
{
    if differ(Kind::try_from(bound.kind)?, kind) {
        return Err(PrepareRefusal::UnknownKind);
    }
    refusal(bound, c, l, polygons, numbers, mats)
}
