// The octants of a geometry's vertices.
ghost use Rattle.std.specs.Prelude.{◌≡◌, ◌+◌, ◌*◌, ◌≤◌, ltb, length};
ghost use Rattle.octants.specs.Octants.{short, Answered};

use crate::lists::OctantCounts;

// Why there are no lists, by the number that C is told.
#[derive(Clone, Copy)]
pub enum OctantsRefusal {
    TooManyVertices = 1,
    BufferTooShort = 2,
}

// The lengths of the lent buffers.
#[derive(Clone, Copy)]
pub struct Lengths {
    pub vertices: usize,
    pub lists: usize,
    pub keys: usize,
    pub rows: usize,
    pub order: usize,
    pub temp: usize,
    pub marks: usize,
}

// Whether there are more vertices than there may be.
fn too_many(n: usize) -> bool
    ensures { result ≡ ltb 32768 n }
{
    n > 32768
}

// Whether a buffer is too short for n vertices.
fn too_short(n: usize, l: Lengths) -> bool
    requires { n ≤ 32768 }
    ensures { result ≡ short n l }
{
    l.vertices < 3 * n
        || l.lists < 8 * n
        || l.keys < 3 * n
        || l.rows < 4 * n
        || l.order < n
        || l.temp < n
        || l.marks < n
}

// The octants of n vertices, three words each: list k from word k * n of `lists` on; how many each has. The other slices are to work in.
pub fn calculate_octants(
    n: usize,
    vertices: &[u32],
    lists: &mut [u32],
    keys: &mut [u32],
    rows: &mut [u32],
    order: &mut [u32],
    temp: &mut [u32],
    marks: &mut [u32],
) -> Result<OctantCounts, OctantsRefusal>
    ensures { Answered n
        (record {
          vertices = length vertices.now;
          lists = length lists.old;
          keys = length keys.old;
          rows = length rows.old;
          order = length order.old;
          temp = length temp.old;
          marks = length marks.old;
        })
        vertices.now lists.old lists.new result }
{
    if too_many(n) {
        return Err(OctantsRefusal::TooManyVertices);
    }
    let lengths = Lengths {
        vertices: vertices.len(),
        lists: lists.len(),
        keys: keys.len(),
        rows: rows.len(),
        order: order.len(),
        temp: temp.len(),
        marks: marks.len(),
    };
    if too_short(n, lengths) {
        return Err(OctantsRefusal::BufferTooShort);
    }
    let counts = crate::lists::list_octants(n, vertices, lists, keys, rows, order, temp, marks);
    Ok(counts)
}
