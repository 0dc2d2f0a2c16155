// The octants of vertices: their lists, and these as bytes.
ghost use Rattle.std.specs.Prelude.{length, ◌≡◌};
ghost use Rattle.octants.specs.Answers.{AnsweredIn};
ghost use Rattle.octants.specs.Octants.{work_words};
ghost use Rattle.octant_bytes.specs.Answers.{Numbered};
ghost use Rattle.octant_bytes.specs.Steps.Counts.{eight};

use octants::answering::OctantsAnswer;

// The words that the octants of n vertices are worked out in, all parts together.
#[unsafe(no_mangle)]
pub extern "C" fn bounds_octants_work_len(vertices: u32) -> u64
    ensures { result ≡ work_words vertices }
{
    octants::answering::work_len(vertices)
}

// The octants' lists over vertices of three words each: list k from word k * vertex_count on. What it works in is lent in five parts: keys, rows,
// order, temp and marks.
#[unsafe(no_mangle)]
pub extern "C" fn bounds_calculate_octants(
    vertex_count: usize,
    vertices: &[u32],
    lists: &mut [u32],
    keys: &mut [u32],
    rows: &mut [u32],
    order: &mut [u32],
    temp: &mut [u32],
    marks: &mut [u32],
) -> OctantsAnswer
    ensures { AnsweredIn vertex_count
        (record {
          vertices = length vertices.now;
          lists = length lists.old;
          keys = length keys.old;
          rows = length rows.old;
          order = length order.old;
          temp = length temp.old;
          marks = length marks.old;
        })
        vertices.now lists.old lists.new result }
{
    octants::answering::answer(octants::entry::calculate_octants(
        vertex_count,
        vertices,
        lists,
        keys,
        rows,
        order,
        temp,
        marks,
    ))
}

// The bytes of eight lists whose first byte stands at the address; 01's number, 0 where it is not refused.
#[unsafe(no_mangle)]
pub extern "C" fn bounds_write_octants(
    address: u64,
    l0: &[u32],
    l1: &[u32],
    l2: &[u32],
    l3: &[u32],
    l4: &[u32],
    l5: &[u32],
    l6: &[u32],
    l7: &[u32],
    out: &mut [u8],
) -> u32
    ensures { Numbered address (eight l0.now l1.now l2.now l3.now l4.now
        l5.now l6.now l7.now) out.old out.new result }
{
    octant_bytes::number(octant_bytes::write_octants(address, l0, l1, l2, l3, l4, l5, l6, l7, out))
}
