// Runs what `prepare` runs on each of many inputs that stand one after another.
#![tactic(auto)]

const STDIN: i32 = 0;

const STDOUT: i32 = 1;

// A proved loop has to end, and nothing says that the input does: it ends after more turns than any run makes.
fn main() {
    for _ in 0..u64::MAX {
        if !prepare_run::run_next(STDIN, STDOUT) {
            return;
        }
    }
}
