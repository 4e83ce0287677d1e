// Runs stored files. An arc file that an argument names is read, written back where it is accepted, and listed; a normal file is read. Standard
// input has arc files in lines of hexadecimal digits: cut everywhere, with every byte changed, and at each limit; each line is written anew, the
// file as it was read from the line, and the library's own answer.
#![tactic(auto)]

use arc_heading::Heading;
use desk_lines::{Output, Tell};
use refusal::Fault;
use std::env::Env;
use std::fs::Files;

// `refused N at PLACE`
fn put_refused<R: Print + Tell>(stdout: &Output<'_, R>, fault: Fault) {
    let Fault { why, place } = fault;
    print!(stdout; "refused {} at {place}\n", refusal::number(why));
}

// ---- arc files

// Tells whether what was written is the file.
fn tell_same<R: Print + Tell>(stdout: &Output<'_, R>, file: &[u8], written: &[u8]) {
    if file == written {
        print!(stdout; "ok\n");
    } else {
        print!(stdout; "differs\n");
    }
}

// Writes a heading and its records into room for a file, and tells whether the file's bytes come out.
fn tell_back<R: Print + Tell>(stdout: &Output<'_, R>, file: &[u8], h: Heading, start: usize) {
    let mut out = desk_files::zeros::<{ desk_files::NORMAL_ROOM }>();
    match arc_write::write(h, desk_lines::part(file, start, file.len()), &mut out) {
        Ok(n) => tell_same(stdout, file, desk_lines::part(&out, 0, n)),
        Err(why) => desk_lines::put_refusal(stdout, why, b" on writing\n"),
    }
}

// `refused N at PLACE`, or `ok` where the file is accepted and rewritten to the same bytes.
fn tell_arc<R: Print + Tell>(stdout: &Output<'_, R>, file: &[u8]) {
    match arc_read::read(file) {
        Ok(r) => tell_back(stdout, file, r.heading, r.start),
        Err(fault) => put_refused(stdout, fault),
    }
}

// The listing of a file, or that it has no room.
fn put_listing<R: Print + Tell>(stdout: &Output<'_, R>, file: &[u8]) {
    let mut out = list_run::text_room();
    match list::list(file, &mut out) {
        Ok(n) => desk_lines::put(stdout, desk_lines::part(&out, 0, n)),
        Err(why) => desk_lines::put_refusal(stdout, why, b" on listing\n"),
    }
}

// What came of an arc file, and its listing.
fn run_arc<R: Print + Tell>(stdout: &Output<'_, R>, file: &[u8]) {
    tell_arc(stdout, file);
    put_listing(stdout, file);
}

// ---- normal files

// `ok`, or `refused N at PLACE`.
fn run_normal<R: Print + Tell>(stdout: &Output<'_, R>, file: &[u8]) {
    match norm_read::read(file) {
        Ok(_) => print!(stdout; "ok\n"),
        Err(fault) => put_refused(stdout, fault),
    }
}

// ---- all

// The file of argument i, NAME.nrm or NAME.arc: its name and what came of it.
fn run_arg<R: Env + Files + Print + Tell>(stdout: &Output<'_, R>, i: usize) {
    let mut buffer = desk_files::zeros::<{ desk_files::NORMAL_ROOM }>();
    let file = test_runner::file(stdout, i, &mut buffer);
    if file.last == Some(b'm') {
        run_normal(stdout, file.bytes);
    } else {
        run_arc(stdout, file.bytes);
    }
}

// A line `FILE -> ..`, written anew; `-` stands for no bytes.
fn run_line<R: Print + Tell>(stdout: &Output<'_, R>, line: &[u8]) {
    let mut buffer = [0u8; 4096];
    let file = desk_lines::hex_bytes(line, &mut buffer);
    if file.is_empty() {
        print!(stdout; "-");
    }
    desk_lines::put_bytes(stdout, file);
    print!(stdout; " -> ");
    tell_arc(stdout, file);
}

fn main(rt: HostRuntime) {
    let stdout = Output::new(&rt);
    for i in 1..desk_files::argument_count(&rt) {
        run_arg(&stdout, i);
    }
    let mut buffer = desk_files::zeros::<{ test_runner::INPUT_ROOM }>();
    test_runner::each_line(test_runner::input(&rt, &mut buffer), |line| {
        run_line(&stdout, line);
    });
}
