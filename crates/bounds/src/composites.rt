// The children of a composite: their boxes, and the tree over them. A child is 24 words: its mark, 0 for absent, its box, its margin, and the
// four rows of its transform.
ghost use Rattle.std.specs.Prelude.{◌≡◌};
ghost use Rattle.bvh.specs.Entry.{outputs, lent, lengths_of};
ghost use Rattle.composite.specs.Boxes.{BoxedBy};
ghost use Rattle.composite.specs.Children.{child_box_of};
ghost use Rattle.bounds.specs.Composites.{composite_answer, CompositeAnswered};

use answers::trees::{BuildAnswer, build_answer, refused};
use bvh::slices::{BuildRefusal, BuiltTree};
use composite::children::ChildBox;

// The children's boxes as bytes, 32 each; 01's number, 0 where it is not refused.
#[unsafe(no_mangle)]
pub extern "C" fn bounds_child_boxes(child_count: usize, children: &[u32], out: &mut [u8]) -> u32
    ensures { BoxedBy child_count children.now out.old out.new result }
{
    composite::boxes::number(composite::boxes::child_boxes(child_count, children, out))
}

// The computed box of child k; none where it is absent, or where the words do not reach to it.
#[unsafe(no_mangle)]
pub extern "C" fn bounds_computed_box(children: &[u32], k: usize) -> ChildBox
    ensures { result ≡ child_box_of children.now k }
{
    composite::children::child_box(children, k)
}

// No tree is an answer of zeros.
fn composite_answer(t: Result<Option<BuiltTree>, BuildRefusal>) -> BuildAnswer
    ensures { result ≡ composite_answer t }
{
    match t {
        Ok(None) => refused(0),
        Ok(Some(b)) => build_answer(Ok(b)),
        Err(why) => build_answer(Err(why)),
    }
}

// The tree of a composite, where it has one. What it works in is lent in a build's six parts: entries, places, temp, stack, rows and centres.
#[unsafe(no_mangle)]
pub extern "C" fn bounds_composite_tree(
    child_count: usize,
    children: &[u32],
    node_bytes: &mut [u8],
    tree_bytes: &mut [u8],
    order: &mut [u16],
    entries: &mut [u32],
    places: &mut [u32],
    temp: &mut [u32],
    stack: &mut [u32],
    rows: &mut [u32],
    centres: &mut [f32],
) -> BuildAnswer
    ensures { CompositeAnswered child_count children.now
        (lengths_of (outputs node_bytes.old tree_bytes.old order.old)
        (lent entries.old places.old temp.old stack.old rows.old centres.old)) result
        (outputs node_bytes.old tree_bytes.old order.old)
        (outputs node_bytes.new tree_bytes.new order.new) }
{
    composite_answer(composite::building::composite_tree(
        child_count,
        children,
        node_bytes,
        tree_bytes,
        order,
        entries,
        places,
        temp,
        stack,
        rows,
        centres,
    ))
}
