// Reads a mesh and prints it prepared.
#![tactic(auto)]

const STDIN: i32 = 0;

const STDOUT: i32 = 1;

fn main() {
    prepare_run::run(STDIN, STDOUT);
}
