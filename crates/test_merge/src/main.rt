// Runs the pairs of normal files that the arguments name: each pair is merged, and what came of it is told. Then files as large as they may be.
// The expected text is the outside vectors': for a pair its two names, then the vector's answer; after `ok` the bytes of its merged file, two
// hexadecimal digits each. A pair whose files are both accepted (`ok`, or 21 to 24) stands there once more in the other order with the same answer.
#![tactic(auto)]

use desk_lines::{Output, Tell};
use merge::MergeRefusal;
use refusal::Fault;
use std::env::Env;
use std::fs::Files;

mod large;

fn tell_place<R: Print + Tell>(stdout: &Output<'_, R>, file: u8, fault: Fault) {
    let Fault { why, place } = fault;
    print!(stdout; "refused {} file {file} at {place}\n", refusal::number(why));
}

fn tell_merged<R: Print + Tell>(stdout: &Output<'_, R>, file: &[u8]) {
    print!(stdout; "ok ");
    desk_lines::put_bytes(stdout, file);
    print!(stdout; "\n");
}

// `ok` and the merged file, `refused N file K at PLACE`, or `refused N`.
fn tell<R: Print + Tell>(stdout: &Output<'_, R>, a: &[u8], b: &[u8], out: &mut [u8]) {
    match merge::merge(a, b, out) {
        Ok(n) => tell_merged(stdout, desk_lines::part(out, 0, n)),
        Err(MergeRefusal::First(fault)) => tell_place(stdout, 1, fault),
        Err(MergeRefusal::Second(fault)) => tell_place(stdout, 2, fault),
        Err(MergeRefusal::Together(why)) => desk_lines::put_refusal(stdout, why, b"\n"),
    }
}

// The files of two arguments.
fn run_pair<R: Env + Files + Print + Tell>(stdout: &Output<'_, R>, i: usize, j: usize) {
    let mut a = desk_files::zeros::<{ desk_files::NORMAL_ROOM }>();
    let mut b = desk_files::zeros::<{ desk_files::NORMAL_ROOM }>();
    let mut out = desk_files::zeros::<{ desk_files::NORMAL_ROOM }>();
    let first = test_runner::file(stdout, i, &mut a);
    let second = test_runner::file(stdout, j, &mut b);
    tell(stdout, first.bytes, second.bytes, &mut out);
}

// Every pair that the arguments name.
fn run_args<R: Env + Files + Print + Tell>(stdout: &Output<'_, R>, count: usize) {
    for pair in 0..count.saturating_sub(1) / 2 {
        run_pair(stdout, 2 * pair + 1, 2 * pair + 2);
    }
}

fn main(rt: HostRuntime) {
    let stdout = Output::new(&rt);
    run_args(&stdout, desk_files::argument_count(&rt));
    large::run(&stdout);
}
