// What calculating octants answers in C: a number in place of a Result.
ghost use Rattle.std.specs.Prelude.{◌≡◌};
ghost use Rattle.octants.specs.Octants.{work_words};
ghost use Rattle.octants.specs.Answers.{with_counts, without, answer_in};

use crate::entry::OctantsRefusal;
use crate::lists::OctantCounts;

// 01's number, 0 where it is not refused, and how many each list has, 0 where it is.
#[repr(C)]
#[derive(Clone, Copy)]
pub struct OctantsAnswer {
    pub refusal: u32,
    pub c0: u32,
    pub c1: u32,
    pub c2: u32,
    pub c3: u32,
    pub c4: u32,
    pub c5: u32,
    pub c6: u32,
    pub c7: u32,
}

fn with_counts(c: OctantCounts) -> OctantsAnswer
    ensures { result ≡ with_counts c }
{
    OctantsAnswer {
        refusal: 0,
        c0: c.c0,
        c1: c.c1,
        c2: c.c2,
        c3: c.c3,
        c4: c.c4,
        c5: c.c5,
        c6: c.c6,
        c7: c.c7,
    }
}

// A refusal by its number, or 0 where no octants are listed.
pub fn without(number: u32) -> OctantsAnswer
    ensures { result ≡ without number }
{
    OctantsAnswer {
        refusal: number,
        c0: 0,
        c1: 0,
        c2: 0,
        c3: 0,
        c4: 0,
        c5: 0,
        c6: 0,
        c7: 0,
    }
}

// By hand, since C is given a number and eight counts of one form in place of a Result.
pub fn answer(o: Result<OctantCounts, OctantsRefusal>) -> OctantsAnswer
    ensures { result ≡ answer_in o }
{
    match o {
        Ok(counts) => with_counts(counts),
        Err(why) => without(why as u32),
    }
}

// The words that n vertices are worked on in, all parts together: 3n for the keys, 4n for the rows, n each for order, temp and marks.
pub fn work_len(vertices: u32) -> u64
    ensures { result ≡ work_words vertices }
{
    10 * (vertices as u64)
}
