// The list of materials, filled to four, and each polygon's index in it.
ghost use Rattle.std.specs.Prelude.{◌≡◌, ◌≤◌, length, take};
ghost use Rattle.materials.specs.Materials.{values_of};
ghost use Rattle.finishing.specs.Filled.{filled};
ghost use Rattle.finishing.specs.Steps.Finishing.{ListRoom, Listed};

use materials::listing::{dedupe, put_list};

// A list has at least so many materials.
const LEAST: usize = 4;

// Fills the first `count` of a list to four with (0,0); how many they then are.
fn fill(list: &mut [u64], count: usize) -> usize
    requires { (length list.old ≡ 256) × (count ≤ 256) }
    ensures { (take result list.new ≡ filled (take count list.old)) × (result ≤ 256) }
{
    let all = count.max(LEAST);
    list[count..all].fill(0);
    all
}

// Writes the list of the materials of p polygons, filled, and their indices; how many it has before it is filled.
pub fn list_materials(
    p: usize,
    numbers: &[u8],
    m: usize,
    mats: &[u32],
    list: &mut [u8],
    indices: &mut [u8],
) -> usize
    requires { ListRoom p m numbers.now mats.now list.old indices.old }
    ensures { Listed (values_of m mats.now p numbers.now) list.old list.new
        indices.old indices.new result }
{
    let mut materials = [0u64; 256];
    let count = dedupe(numbers, p, mats, m, &mut materials, indices);
    let all = fill(&mut materials, count);
    put_list(list, &materials, all);
    count
}
