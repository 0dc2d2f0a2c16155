// What shrinking answers in C: numbers for its answer and its refusals.
#![tactic(auto)]

ghost use Rattle.std.specs.Prelude.{◌≡◌};
ghost use Rattle.verts_shrunk.specs.Answers.{refusal_number, work_words};
ghost use Rattle.shrink_answers.specs.Interface.{without, shrunk_in, answer_in};

use verts_shrunk::entry::{ShrinkRefusal, Shrunk};

// 01's number, 0 where it is not refused; by what the vertices are shrunk, 1 a margin, 2 their normals, 0 nothing; and the margin, else 0.
#[repr(C)]
#[derive(Clone, Copy)]
pub struct ShrinkAnswer {
    pub refusal: u32,
    pub by: u32,
    pub margin: f32,
}

fn without(refusal: u32, by: u32) -> ShrinkAnswer
    ensures { result ≡ without refusal by }
{
    ShrinkAnswer {
        refusal: refusal,
        by: by,
        margin: 0.0,
    }
}

// The C interface tells a refusal by 01's number.
fn refusal_number(why: ShrinkRefusal) -> u32
    ensures { result ≡ refusal_number why }
{
    match why {
        ShrinkRefusal::TooManyPolygons => 1,
        ShrinkRefusal::TooManyVertices => 1,
        ShrinkRefusal::BufferTooShort => 2,
        ShrinkRefusal::UnknownKind => 6,
        ShrinkRefusal::InfiniteMargin => 7,
    }
}

fn shrunk(by: Shrunk) -> ShrinkAnswer
    ensures { result ≡ shrunk_in by }
{
    match by {
        Shrunk::ByMargin(margin) => ShrinkAnswer {
            refusal: 0,
            by: 1,
            margin: margin,
        },
        Shrunk::ByNormals => without(0, 2),
        Shrunk::NoVertices => without(0, 0),
    }
}

pub fn answer(s: Result<Shrunk, ShrinkRefusal>) -> ShrinkAnswer
    ensures { result ≡ answer_in s }
{
    match s {
        Ok(by) => shrunk(by),
        Err(why) => without(refusal_number(why), 0),
    }
}

// The words and floats that n polygons and v vertices are shrunk in, all parts together: 36 a polygon and one a vertex.
pub fn work_len(polygons: u32, vertices: u32) -> u64
    ensures { result ≡ work_words polygons vertices }
{
    36 * (polygons as u64) + (vertices as u64)
}
