// Preparing a mesh of either kind, in C: none of these functions asks anything of its caller.
#![tactic(auto)]

ghost use Rattle.std.specs.Prelude.{◌≡◌};
ghost use Rattle.bvh.specs.Entry.{outputs};
ghost use Rattle.meshes.specs.Meshes.{mesh_of};
ghost use Rattle.meshes.specs.Sizes.{work_words};
ghost use Rattle.prepared.specs.Answers.{lists, hull, geometry_work, geometry_lengths, bvh_work, bvh_lengths};
ghost use Rattle.prepare_answers.specs.Interface.{GeometryAnsweredIn, BvhAnsweredIn};

use meshes::{Bound, BvhLengths, Counts, GeometryLengths};
use prepare_answers::PrepareAnswer;

// The words and floats that polygons and vertices are prepared in, all parts together.
#[unsafe(no_mangle)]
pub extern "C" fn bounds_prepare_work_len(polygons: u32, vertices: u32) -> u64
    ensures { result ≡ work_words polygons vertices }
{
    prepare_answers::work_len(polygons, vertices)
}

// Prepares a mesh of kind 4. What it works in is lent in nine parts; what kind 8 alone is lent is told by its lengths.
#[unsafe(no_mangle)]
pub extern "C" fn bounds_prepare_geometry(
    bound: Bound,
    counts: Counts,
    others: BvhLengths,
    polygons: &[u8],
    numbers: &[u8],
    mats: &[u32],
    vertices: &[u32],
    list: &mut [u8],
    indices: &mut [u8],
    polygons_out: &mut [u8],
    stored: &mut [u8],
    floats: &mut [u32],
    shrunk: &mut [u8],
    shrunk_floats: &mut [u32],
    octants: &mut [u32],
    entries: &mut [u32],
    places: &mut [u32],
    temp: &mut [u32],
    stack: &mut [u32],
    rows: &mut [u32],
    points: &mut [u32],
    centres: &mut [f32],
    olds: &mut [f32],
    news: &mut [f32],
) -> PrepareAnswer
    ensures { GeometryAnsweredIn (mesh_of bound counts polygons.now numbers.now mats.now vertices.now)
        (geometry_lengths (mesh_of bound counts polygons.now numbers.now mats.now vertices.now)
        (lists list.old indices.old polygons_out.old stored.old floats.old)
        (hull shrunk.old shrunk_floats.old octants.old)
        (geometry_work entries.old places.old temp.old stack.old rows.old points.old
        centres.old olds.old news.old) others) result
        (lists list.old indices.old polygons_out.old stored.old floats.old)
        (lists list.new indices.new polygons_out.new stored.new floats.new)
        (hull shrunk.old shrunk_floats.old octants.old)
        (hull shrunk.new shrunk_floats.new octants.new) }
{
    prepare_answers::answer(geometry::prepare_geometry(
        bound,
        counts,
        others,
        polygons,
        numbers,
        mats,
        vertices,
        list,
        indices,
        polygons_out,
        stored,
        floats,
        shrunk,
        shrunk_floats,
        octants,
        entries,
        places,
        temp,
        stack,
        rows,
        points,
        centres,
        olds,
        news,
    ))
}

// Prepares a mesh of kind 8. What it works in is lent in eight parts; what kind 4 alone is lent is told by its lengths.
#[unsafe(no_mangle)]
pub extern "C" fn bounds_prepare_bvh(
    bound: Bound,
    counts: Counts,
    others: GeometryLengths,
    polygons: &[u8],
    numbers: &[u8],
    mats: &[u32],
    vertices: &[u32],
    list: &mut [u8],
    indices: &mut [u8],
    polygons_out: &mut [u8],
    stored: &mut [u8],
    floats: &mut [u32],
    node_bytes: &mut [u8],
    tree_bytes: &mut [u8],
    order: &mut [u16],
    entries: &mut [u32],
    places: &mut [u32],
    temp: &mut [u32],
    stack: &mut [u32],
    rows: &mut [u32],
    points: &mut [u32],
    sorted: &mut [u8],
    centres: &mut [f32],
) -> PrepareAnswer
    ensures { BvhAnsweredIn (mesh_of bound counts polygons.now numbers.now mats.now vertices.now)
        (bvh_lengths (mesh_of bound counts polygons.now numbers.now mats.now vertices.now)
        (lists list.old indices.old polygons_out.old stored.old floats.old)
        (outputs node_bytes.old tree_bytes.old order.old)
        (bvh_work entries.old places.old temp.old stack.old rows.old points.old
        sorted.old centres.old) others) result
        (lists list.old indices.old polygons_out.old stored.old floats.old)
        (lists list.new indices.new polygons_out.new stored.new floats.new)
        (outputs node_bytes.old tree_bytes.old order.old)
        (outputs node_bytes.new tree_bytes.new order.new) }
{
    prepare_answers::answer(geometry_bvh::prepare_bvh(
        bound,
        counts,
        others,
        polygons,
        numbers,
        mats,
        vertices,
        list,
        indices,
        polygons_out,
        stored,
        floats,
        node_bytes,
        tree_bytes,
        order,
        entries,
        places,
        temp,
        stack,
        rows,
        points,
        sorted,
        centres,
    ))
}
