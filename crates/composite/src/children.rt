// A child of a composite is 24 words: its mark, 0 for absent, its box, its margin, and the four rows of its transform.
ghost use Rattle.std.specs.Prelude.{◌≡◌, ◌+◌, ◌*◌, ◌≤◌, length};
ghost use Rattle.composite.specs.Children.{box_of, row_at, matrix_at, computed_box, no_box, child_box_of};

use base::numbers::Place;
use entries::boxes::BoxWords;
use math::aabb::Aabb;
use math::mat4::{Mat4, Vec4};
use math::vec3::Vec3;

// A child's box as it was given.
pub fn box_of(children: &[u32], child: Place) -> BoxWords
    requires { 24 * child.0 + 24 ≤ length children.now }
    ensures { result ≡ box_of children.now child.0 }
{
    entries::boxes::box_from(children, 24 * (child.0 as usize) + 1)
}

fn row_at(children: &[u32], at: usize) -> Vec4
    requires { at + 4 ≤ length children.now }
    ensures { result ≡ row_at children.now at }
{
    Vec4 {
        x: float32::words::value(children[at]),
        y: float32::words::value(children[at + 1]),
        z: float32::words::value(children[at + 2]),
        w: float32::words::value(children[at + 3]),
    }
}

fn matrix_at(children: &[u32], at: usize) -> Mat4
    requires { at + 16 ≤ length children.now }
    ensures { result ≡ matrix_at children.now at }
{
    Mat4 {
        row0: row_at(children, at),
        row1: row_at(children, at + 4),
        row2: row_at(children, at + 8),
        row3: row_at(children, at + 12),
    }
}

// A child's box through its transform. It rounds at the identity too.
pub fn computed_box(children: &[u32], child: Place) -> Aabb
    requires { 24 * child.0 + 24 ≤ length children.now }
    ensures { result ≡ computed_box children.now child.0 }
{
    let given = box_of(children, child);
    let b = Aabb {
        min: math::words3::values(given.min),
        max: math::words3::values(given.max),
    };
    math::aabb::transform_box(b, matrix_at(children, 24 * (child.0 as usize) + 8))
}

// A child's computed box, where it is present. C reads it from `bounds_computed_box`, so that a mark stands in the place of an `Option`.
#[repr(C)]
#[derive(Clone, Copy)]
pub struct ChildBox {
    pub present: u32,
    pub min: Vec3,
    pub max: Vec3,
}

fn no_box() -> ChildBox
    ensures { result ≡ no_box }
{
    let zero = Vec3 {
        x: 0.0,
        y: 0.0,
        z: 0.0,
    };
    ChildBox {
        present: 0,
        min: zero,
        max: zero,
    }
}

// The computed box of child k; none where it is absent, or where the words do not reach to it. A caller may give any k, also one that no
// place holds: so the child is taken as the first of those from k on.
pub fn child_box(children: &[u32], k: usize) -> ChildBox
    ensures { result ≡ child_box_of children.now k }
{
    if k >= children.len() / 24 {
        return no_box();
    }
    if children[24 * k] == 0 {
        return no_box();
    }
    let b = computed_box(&children[24 * k..], Place(0));
    let min = b.min;
    let max = b.max;
    ChildBox {
        present: 1,
        min: min,
        max: max,
    }
}
