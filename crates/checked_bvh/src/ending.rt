// How preparing a mesh of kind 8 ends: its lists, in the frame of the tree or in the given one where there is none.
ghost use Rattle.std.specs.Prelude.{◌≡◌};
ghost use Rattle.materials.specs.Materials.{values_of};
ghost use Rattle.finishing.specs.Steps.Finishing.{StoreRoom, ListRoom};
ghost use Rattle.prepared.specs.declared.Prepared.TheVariants.{Empty};
ghost use Rattle.checked_bvh.specs.Steps.Ending.{values_in, Written, Ended};

use bvh::slices::{BuildRefusal, BuiltTree};
use finishing::finish;
use meshes::{Bound, Counts, PrepareRefusal};
use prepared::frames::{frame_of, quantum_of};
use prepared::{Prepared, Values};

// Without polygons there is no tree, and the frame stays as it was given.
pub fn finish_empty(
    bound: Bound,
    counts: Counts,
    numbers: &[u8],
    mats: &[u32],
    vertices: &[u32],
    list: &mut [u8],
    indices: &mut [u8],
    stored: &mut [u8],
    floats: &mut [u32],
) -> Prepared
    requires { (ListRoom counts.polygons counts.materials numbers.now mats.now list.old indices.old)
        × (StoreRoom counts.vertices vertices.now stored.old floats.old) }
    ensures { (result ≡ Empty (values_in bound.frame (values_of counts.materials mats.now counts.polygons numbers.now)))
        × (Written bound.frame (values_of counts.materials mats.now counts.polygons numbers.now)
        vertices.now counts.vertices list.old list.new indices.old indices.new
        stored.old stored.new floats.old floats.new) }
{
    let frame = bound.frame;
    let quantum = quantum_of(frame);
    let materials = finish(
        counts.polygons,
        counts.vertices,
        counts.materials,
        quantum,
        numbers,
        mats,
        vertices,
        list,
        indices,
        stored,
        floats,
    );
    let values = Values {
        frame,
        quantum,
        materials,
    };
    Prepared::Empty(values)
}

// With a tree, the lists in its frame, with the materials in the order of its leaves; nothing where it is refused.
pub fn finish_tree(
    built: Result<BuiltTree, BuildRefusal>,
    counts: Counts,
    mats: &[u32],
    vertices: &[u32],
    list: &mut [u8],
    indices: &mut [u8],
    stored: &mut [u8],
    floats: &mut [u32],
    sorted: &[u8],
) -> Result<Prepared, PrepareRefusal>
    requires { (ListRoom counts.polygons counts.materials sorted.now mats.now list.old indices.old)
        × (StoreRoom counts.vertices vertices.now stored.old floats.old) }
    ensures { Ended built counts mats.now sorted.now vertices.now
        list.old list.new indices.old indices.new
        stored.old stored.new floats.old floats.new result }
{
    let Ok(tree) = built else {
        return Err(PrepareRefusal::TooManyNodes);
    };
    let frame = frame_of(tree);
    let unit = quantum_of(frame);
    let materials = finish(
        counts.polygons,
        counts.vertices,
        counts.materials,
        unit,
        sorted,
        mats,
        vertices,
        list,
        indices,
        stored,
        floats,
    );
    let values = Values {
        frame,
        quantum: unit,
        materials,
    };
    Ok(Prepared::Bvh(values, tree))
}
