// The materials of polygons, listed and indexed.
ghost use Rattle.std.specs.Prelude.{◌≡◌, ◌*◌, ◌≤◌, length};
ghost use Rattle.materials.specs.Materials.{values_of};
ghost use Rattle.materials.specs.Answers.{many, short, Answered};
ghost use Rattle.materials.specs.Steps.Listing.{Room, Listed};

use crate::listing::{dedupe, put_list};

// Why there is no list, by the number that C is told.
#[derive(Clone, Copy)]
pub enum MaterialsRefusal {
    TooMany = 1,
    BufferTooShort = 2,
    TooManyMaterials = 8,
}

// The lengths of the lent buffers.
#[derive(Clone, Copy)]
pub struct Lengths {
    pub numbers: usize,
    pub mats: usize,
    pub list: usize,
    pub indices: usize,
}

// Whether there are more polygons or materials than a list may have.
fn too_many(n: usize, m: usize) -> bool
    ensures { result ≡ many n m }
{
    n > 32767 || m > 256
}

// Whether a buffer is too short for n polygons and m materials.
fn too_short(n: usize, m: usize, l: Lengths) -> bool
    requires { m ≤ 256 }
    ensures { result ≡ short n m l }
{
    l.numbers < n || l.mats < 2 * m || l.list < 2048 || l.indices < n
}

// Writes the list and the indices; how many materials the list has.
fn write_materials(
    n: usize,
    numbers: &[u8],
    m: usize,
    mats: &[u32],
    list: &mut [u8],
    indices: &mut [u8],
) -> usize
    requires { Room n m numbers.now mats.now list.old indices.old }
    ensures { Listed (values_of m mats.now n numbers.now) list.old list.new
        indices.old indices.new result }
{
    let mut materials = [0u64; 256];
    let count = dedupe(numbers, n, mats, m, &mut materials, indices);
    put_list(list, &materials, count);
    count
}

// The materials that n polygons use, each once, as bytes, and each polygon's index among them; how many they are. `numbers` has the number of each
// polygon's material, `mats` m materials of two words each.
pub fn build_materials(
    n: usize,
    numbers: &[u8],
    m: usize,
    mats: &[u32],
    list: &mut [u8],
    indices: &mut [u8],
) -> Result<usize, MaterialsRefusal>
    ensures { Answered n m
        (record {
          numbers = length numbers.now;
          mats = length mats.now;
          list = length list.old;
          indices = length indices.old;
        })
        (values_of m mats.now n numbers.now)
        list.old list.new indices.old indices.new result }
{
    if too_many(n, m) {
        return Err(MaterialsRefusal::TooMany);
    }
    let lengths = Lengths {
        numbers: numbers.len(),
        mats: mats.len(),
        list: list.len(),
        indices: indices.len(),
    };
    if too_short(n, m, lengths) {
        return Err(MaterialsRefusal::BufferTooShort);
    }
    let count = write_materials(n, numbers, m, mats, list, indices);
    Ok(count)
}
