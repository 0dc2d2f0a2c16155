// Reads child box records and prints the tree over them.
#![tactic(auto)]

const STDIN: i32 = 0;

const STDOUT: i32 = 1;

fn main() {
    listing::run::run(STDIN, STDOUT);
}
