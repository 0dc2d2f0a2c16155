// The children's boxes as bytes, 32 each.
ghost use Rattle.std.specs.Prelude.{◌≡◌, ◌+◌, ◌*◌, ◌≤◌, length};
ghost use Rattle.std.proofs.lemmas.List.Edits.{sets};
ghost use Rattle.base.specs.Lists.{over};
ghost use Rattle.composite.specs.Boxes.{row_bytes, child_bytes, children_bytes, refusal_number, number_of, Boxed};

use crate::children::box_of;
use base::little_endian::put_le;
use base::numbers::Place;
use math::words3::Words3;

// Why no boxes are written.
#[derive(Clone, Copy)]
pub enum ChildBoxesRefusal {
    TooManyChildren,
    BufferTooShort,
}

impl From<ChildBoxesRefusal> for u32 {
    ghost from_gives = { λ why n. n ≡ refusal_number why };

    fn from(why: ChildBoxesRefusal) -> u32 {
        match why {
            ChildBoxesRefusal::TooManyChildren => 1,
            ChildBoxesRefusal::BufferTooShort => 2,
        }
    }
}

fn put_row(out: &mut [u8], at: usize, p: Words3, w: u32)
    requires { at + 16 ≤ length out.old }
    ensures { out.new ≡ sets out.old at (row_bytes p w) }
{
    put_le(out, at, 4, p.x as u64);
    put_le(out, at + 4, 4, p.y as u64);
    put_le(out, at + 8, 4, p.z as u64);
    put_le(out, at + 12, 4, w as u64);
}

// The box of a child, from `at` on.
fn put_child(out: &mut [u8], at: usize, children: &[u32], child: Place)
    requires { (at + 32 ≤ length out.old) × (24 * child.0 + 24 ≤ length children.now) }
    ensures { out.new ≡ sets out.old at (child_bytes children.now child.0) }
{
    let from = 24 * (child.0 as usize);
    if children[from] == 0 {
        put_le(out, at, 32, 0);
    } else {
        let b = box_of(children, child);
        put_row(out, at, b.min, 1);
        put_row(out, at + 16, b.max, children[from + 7]);
    }
}

fn put_children(out: &mut [u8], children: &[u32], n: usize)
    requires { (32 * n ≤ length out.old) × (24 * n ≤ length children.now) × (n ≤ 32767) }
    ensures { out.new ≡ over (children_bytes children.now 0 n) out.old }
{
    for k in 0..n {
        put_child(out, 32 * k, children, Place(k as u32));
    }
}

// The boxes of n children, or a refusal that changes no byte.
pub fn child_boxes(n: usize, children: &[u32], out: &mut [u8]) -> Result<(), ChildBoxesRefusal>
    ensures { Boxed n children.now out.old out.new result }
{
    if n > 32767 {
        return Err(ChildBoxesRefusal::TooManyChildren);
    }
    if children.len() < 24 * n {
        return Err(ChildBoxesRefusal::BufferTooShort);
    }
    if out.len() < 32 * n {
        return Err(ChildBoxesRefusal::BufferTooShort);
    }
    put_children(out, children, n);
    Ok(())
}

// An answer's number, for a caller that no enum can be given to.
pub fn number(answer: Result<(), ChildBoxesRefusal>) -> u32
    ensures { result ≡ number_of answer }
{
    match answer {
        Ok(()) => 0,
        Err(why) => u32::from(why),
    }
}
