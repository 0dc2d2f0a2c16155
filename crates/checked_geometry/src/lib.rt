// Preparing a mesh of kind 4 that passed the checks: polygons linked, vertices shrunk, octants listed; then what both kinds end with.
#![tactic(auto)]

ghost use Rattle.std.specs.Prelude.{Ok};
ghost use Rattle.meshes.specs.Meshes.{mesh_of};
ghost use Rattle.prepared.specs.Answers.{lists, hull, geometry_work, geometry_lengths, GeometryAnswered};
ghost use Rattle.checked_geometry.specs.Steps.Checked.{Checked};

use finishing::finish;
use geometry_shape::shape_geometry;
use meshes::{Bound, BvhLengths, Counts};
use prepared::frames::quantum_of;
use prepared::{Prepared, Values};

// Prepares a mesh that passed the checks, in buffers that were long enough with those of kind 8.
pub fn prepare_checked(
    bound: Bound,
    counts: Counts,
    others: BvhLengths,
    polygons: &[u8],
    numbers: &[u8],
    mats: &[u32],
    vertices: &[u32],
    list: &mut [u8],
    indices: &mut [u8],
    polygons_out: &mut [u8],
    stored: &mut [u8],
    floats: &mut [u32],
    shrunk: &mut [u8],
    shrunk_floats: &mut [u32],
    octants: &mut [u32],
    entries: &mut [u32],
    places: &mut [u32],
    temp: &mut [u32],
    stack: &mut [u32],
    rows: &mut [u32],
    points: &mut [u32],
    centres: &mut [f32],
    olds: &mut [f32],
    news: &mut [f32],
) -> Prepared
    requires { Checked (mesh_of bound counts polygons.now numbers.now mats.now vertices.now)
        (lists list.old indices.old polygons_out.old stored.old floats.old)
        (hull shrunk.old shrunk_floats.old octants.old)
        (geometry_work entries.old places.old temp.old stack.old rows.old points.old centres.old olds.old news.old) others }
    ensures { GeometryAnswered (mesh_of bound counts polygons.now numbers.now mats.now vertices.now)
        (geometry_lengths (mesh_of bound counts polygons.now numbers.now mats.now vertices.now)
        (lists list.old indices.old polygons_out.old stored.old floats.old)
        (hull shrunk.old shrunk_floats.old octants.old)
        (geometry_work entries.old places.old temp.old stack.old rows.old points.old
        centres.old olds.old news.old) others) (Ok result)
        (lists list.old indices.old polygons_out.old stored.old floats.old)
        (lists list.new indices.new polygons_out.new stored.new floats.new)
        (hull shrunk.old shrunk_floats.old octants.old)
        (hull shrunk.new shrunk_floats.new octants.new) }
{
    let frame = bound.frame;
    let quantum = quantum_of(frame);
    let octant_counts = shape_geometry(
        bound,
        counts,
        quantum,
        polygons,
        vertices,
        polygons_out,
        shrunk,
        shrunk_floats,
        octants,
        entries,
        places,
        temp,
        stack,
        rows,
        points,
        centres,
        olds,
        news,
    );
    let materials = finish(
        counts.polygons,
        counts.vertices,
        counts.materials,
        quantum,
        numbers,
        mats,
        vertices,
        list,
        indices,
        stored,
        floats,
    );
    let values = Values {
        frame,
        quantum,
        materials,
    };
    Prepared::Geometry(values, octant_counts)
}
