// Runs several commands of the desk program, parted by the word `then`, each with the line `then` after it.
#![tactic(auto)]

use desk_files::PATH_MOST;
use desk_lines::{Output, Tell};
use std::env::Env;
use std::fs::Files;

// Whether word i of the command line parts two commands.
fn parts<R: Env>(rt: &R, i: usize) -> bool {
    let mut buf = [0u8; PATH_MOST];
    matches!(desk_files::argument(rt, i, &mut buf), Ok(b"then"))
}

// One command.
fn run_one<R: Env + Files + Print + Tell>(stdout: &Output<'_, R>, at: usize, count: usize) {
    desk_commands::run(stdout, at, count);
    print!(stdout; "then\n");
}

// Every command.
fn run_all<R: Env + Files + Print + Tell>(stdout: &Output<'_, R>, words: usize) {
    let mut at: usize = 1;
    for i in 1..words {
        if parts(stdout.runtime(), i) {
            run_one(stdout, at, i - at);
            at = i + 1;
        }
    }
    if at < words {
        run_one(stdout, at, words - at);
    }
}

fn main(rt: HostRuntime) {
    let stdout = Output::new(&rt);
    run_all(&stdout, desk_files::argument_count(&rt));
}
