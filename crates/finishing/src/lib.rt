// What both kinds of geometry end with: the list of materials and the indices, and the vertices in units of the quantum.
#![tactic(auto)]

pub mod listing;
pub mod storing;

ghost use Rattle.materials.specs.Materials.{values_of};
ghost use Rattle.finishing.specs.Steps.Finishing.{StoreRoom, Stored, ListRoom, Listed};

use crate::listing::list_materials;
use crate::storing::put_stored;
use math::vec3::Vec3;

// Writes the list of materials of p polygons, their indices, and v vertices, stored and read back; how many materials there are.
pub fn finish(
    p: usize,
    v: usize,
    m: usize,
    quantum: Vec3,
    numbers: &[u8],
    mats: &[u32],
    vertices: &[u32],
    list: &mut [u8],
    indices: &mut [u8],
    stored: &mut [u8],
    floats: &mut [u32],
) -> usize
    requires { (ListRoom p m numbers.now mats.now list.old indices.old) × (StoreRoom v vertices.now stored.old floats.old) }
    ensures { (Listed (values_of m mats.now p numbers.now) list.old list.new
        indices.old indices.new result)
        × (Stored quantum vertices.now v stored.old stored.new floats.old floats.new) }
{
    let count = list_materials(p, numbers, m, mats, list, indices);
    put_stored(vertices, v, quantum, stored, floats);
    count
}
