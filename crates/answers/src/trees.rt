// What a build answers.
ghost use Rattle.std.specs.Prelude.{◌≡◌};
ghost use Rattle.bvh.specs.Build.{refusal_number as buildRefusal};
ghost use Rattle.answers.specs.Trees.{refused_by, tree_values, build_answer, work_len};

use bvh::slices::{BuildRefusal, BuiltTree};
use math::vec3::Vec3;
use math::words3::Words3;
use records::scale::Scale;

// What a build answers: 01's number, 0 where it is not refused, and the tree's values, 0 where it is.
#[repr(C)]
#[derive(Clone, Copy)]
pub struct BuildAnswer {
    pub refusal: u32,
    pub nodes: usize,
    pub capacity: usize,
    pub trees: usize,
    pub present: usize,
    pub min: Words3,
    pub max: Words3,
    pub scale: Scale,
}

pub fn refused(number: u32) -> BuildAnswer
    ensures { result ≡ refused_by number }
{
    let zero = Vec3 {
        x: 0.0,
        y: 0.0,
        z: 0.0,
    };
    let none = Words3 { x: 0, y: 0, z: 0 };
    BuildAnswer {
        refusal: number,
        nodes: 0,
        capacity: 0,
        trees: 0,
        present: 0,
        min: none,
        max: none,
        scale: Scale {
            cen: zero,
            inverse: zero,
            quantum: zero,
        },
    }
}

fn tree_values(t: BuiltTree) -> BuildAnswer
    ensures { result ≡ tree_values t }
{
    BuildAnswer {
        refusal: 0,
        nodes: t.nodes,
        capacity: t.capacity,
        trees: t.trees,
        present: t.present,
        min: t.min,
        max: t.max,
        scale: t.scale,
    }
}

// A match by hand: the edit trees_refusal_numbers exchanges the number of one case here, and an edit stays in its crate.
fn build_refusal_number(why: BuildRefusal) -> u32
    ensures { result ≡ buildRefusal why }
{
    match why {
        BuildRefusal::TooManyEntries => 1,
        BuildRefusal::BufferTooShort => 2,
        BuildRefusal::ThresholdOutside => 3,
        BuildRefusal::TooManyNodes => 4,
    }
}

pub fn build_answer(b: Result<BuiltTree, BuildRefusal>) -> BuildAnswer
    ensures { result ≡ build_answer b }
{
    match b {
        Ok(t) => tree_values(t),
        Err(why) => refused(build_refusal_number(why)),
    }
}

// The words that a build of n entries works in, all parts together: 7n for the entries, n each for places, temp and stack, 8(2n + 1) for
// the rows, 4n for the centres.
pub fn work_len(entries: u32) -> u64
    ensures { result ≡ work_len entries }
{
    30 * (entries as u64) + 8
}
