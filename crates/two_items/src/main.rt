// The scope document's two boxes, lent as a slice of items: the counts of their tree and its node records, byte by byte.
#![tactic(auto)]

mod two;

const STDOUT: i32 = 1;

fn main() {
    two::run(STDOUT);
}
