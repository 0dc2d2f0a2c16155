// Whether our answer to a line is the recorded one.
ghost use Rattle.std.specs.Prelude.{◌≡◌, true, false, length};
ghost use Rattle.replay.specs.Answers.{words_of};
ghost use Rattle.replay.specs.Operations.{inputs_of, count_of};
ghost use Rattle.replay.specs.Outcomes.{Holds, Words, Agrees, Judged};

use crate::answer::Answer;
use crate::operation::Operation;

// No Result: a mismatch is a finding of this program and a line that is no case is one too, so that neither is the failure of a call.
#[derive(Clone, Copy)]
pub enum Outcome {
    Match(u32),
    Mismatch(u32),
    Bad,
}

// Whether these are the answer's words.
fn gives(a: Answer, words: &[u32]) -> bool
    ensures { Holds (words.now ≡ words_of a) result }
{
    match a {
        Answer::One(x) => words == [x].as_slice(),
        Answer::Three(x, y, z) => words == [x, y, z].as_slice(),
        Answer::Four(x, y, z, w) => words == [x, y, z, w].as_slice(),
        Answer::Six(x, y, z, u, v, w) => words == [x, y, z, u, v, w].as_slice(),
    }
}

// Whether the words after those that the operation takes are its answer.
fn judge(op: Operation, taken: usize, words: &[u32]) -> bool
    requires { (taken ≡ inputs_of op) × (length words.now ≡ count_of op) }
    ensures holds { Holds (Agrees op words.now) result }
    ensures words { Words words.now }
{
    gives(crate::answer::of(op, &words[..taken]), &words[taken..])
}

pub fn of(line: &[u8]) -> Outcome
    ensures { Judged line.now result }
{
    let mut words = [0u32; 28];
    match crate::line::parse(line, &mut words) {
        None => Outcome::Bad,
        Some(n) => {
            let op = crate::operation::of_number(n);
            let count = crate::operation::count(n);
            let taken = crate::operation::inputs(n);
            if judge(op, taken, &words[..count]) {
                Outcome::Match(n)
            } else {
                Outcome::Mismatch(n)
            }
        }
    }
}
