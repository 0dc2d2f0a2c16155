// What a walk answers.
ghost use Rattle.std.specs.Prelude.{◌≡◌};
ghost use Rattle.answers.specs.WalkAnswers.{sizes_of, counted, walk_answer};

use walk::slices::{Counts, Refused};
use walk_steps::state::Sizes;

// What a walk answers: 01's number, 0 where it is not refused, the records read and the positions handed out.
#[repr(C)]
#[derive(Clone, Copy)]
pub struct WalkAnswer {
    pub refusal: u32,
    pub reads: usize,
    pub handed: usize,
}

fn with_counts(number: u32, c: Counts) -> WalkAnswer
    ensures { result ≡ counted number c }
{
    WalkAnswer {
        refusal: number,
        reads: c.reads,
        handed: c.handed,
    }
}

pub fn walk_answer(w: Result<Counts, Refused>) -> WalkAnswer
    ensures { result ≡ walk_answer w }
{
    match w {
        Ok(counts) => with_counts(0, counts),
        Err(e) => with_counts(e.refusal as u32, e.counts),
    }
}

// How many nodes, trees and items a walk goes over.
pub fn sizes(nodes: usize, trees: usize, items: usize) -> Sizes
    ensures { result ≡ sizes_of nodes trees items }
{
    Sizes {
        nodes,
        trees,
        items,
    }
}
