// Runs what `prepare` runs on each file that an argument names, after a line with the name.
#![tactic(auto)]

use std::env;
use std::fs::File;
use std::os::fd::AsRawFd;
use std::rt::Files;

const STDOUT: i32 = 1;

fn run_case(rt: &(impl Files<File = File> + Eprint), name: &str) {
    io::write_all(STDOUT, b"case ");
    io::write_all(STDOUT, name.as_bytes());
    io::write_all(STDOUT, b"\n");
    match File::open(rt, name) {
        Ok(file) => prepare_run::run(file.as_raw_fd(), STDOUT),
        Err(error) => {
            let _ = eprintln!(rt; "{name}: {error}");
        }
    }
}

fn main(rt: HostRuntime) -> std::io::Result<()> {
    for name in env::args(&rt)?.skip(1) {
        run_case(&rt, &name);
    }
    Ok(())
}
