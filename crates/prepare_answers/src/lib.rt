// What preparing answers in C: numbers for the cases of the enum, and zeros for what a kind has not.
#![tactic(auto)]

ghost use Rattle.std.specs.Prelude.{◌≡◌};
ghost use Rattle.meshes.specs.Sizes.{work_words};
ghost use Rattle.prepare_answers.specs.Interface.{no_frame, with_values, refused_by, answer_in};

use answers::trees::{BuildAnswer, build_answer, refused};
use math::vec3::Vec3;
use math::words3::Words3;
use meshes::{Frame, PrepareRefusal};
use octants::answering::{OctantsAnswer, without};
use prepared::{Prepared, Values};

// 01's number, 0 where it is not refused, and all else 0 where it is. `materials` are counted before the list is filled; the octants are those of
// kind 4, and there is a tree where it has nodes.
#[repr(C)]
#[derive(Clone, Copy)]
pub struct PrepareAnswer {
    pub refusal: u32,
    pub frame: Frame,
    pub quantum: Vec3,
    pub materials: usize,
    pub octants: OctantsAnswer,
    pub tree: BuildAnswer,
}

fn no_frame() -> Frame
    ensures { result ≡ no_frame }
{
    let none = Words3 { x: 0, y: 0, z: 0 };
    Frame {
        box_min: none,
        box_max: none,
        box_center: none,
        sphere_center: none,
        sphere_radius: 0,
    }
}

fn with_values(values: Values, octants: OctantsAnswer, tree: BuildAnswer) -> PrepareAnswer
    ensures { result ≡ with_values values octants tree }
{
    let frame = values.frame;
    let quantum = values.quantum;
    PrepareAnswer {
        refusal: 0,
        frame,
        quantum,
        materials: values.materials,
        octants,
        tree,
    }
}

fn refused_by(number: u32) -> PrepareAnswer
    ensures { result ≡ refused_by number }
{
    let zero = Vec3 {
        x: 0.0,
        y: 0.0,
        z: 0.0,
    };
    PrepareAnswer {
        refusal: number,
        frame: no_frame(),
        quantum: zero,
        materials: 0,
        octants: without(0),
        tree: refused(0),
    }
}

pub fn answer(p: Result<Prepared, PrepareRefusal>) -> PrepareAnswer
    ensures { result ≡ answer_in p }
{
    match p {
        Ok(Prepared::Geometry(values, counts)) => with_values(
            values,
            octants::answering::answer(Ok(counts)),
            refused(0),
        ),
        Ok(Prepared::Bvh(values, tree)) => with_values(values, without(0), build_answer(Ok(tree))),
        Ok(Prepared::Empty(values)) => with_values(values, without(0), refused(0)),
        Err(why) => refused_by(u32::from(why)),
    }
}

// The words and floats that polygons and vertices are prepared in, all parts together: 55 a polygon, 13 a vertex, and 8.
pub fn work_len(polygons: u32, vertices: u32) -> u64
    ensures { result ≡ work_words polygons vertices }
{
    55 * (polygons as u64) + 13 * (vertices as u64) + 8
}
