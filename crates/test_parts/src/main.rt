// Runs the vectors of arc files handed over in parts. Each line is written anew without its file: its cuts as they were read, and the library's
// own answer to each part, to finish and to one part after it; then the answers of the records that were taken.
#![tactic(auto)]

use desk_lines::{Output, Tell};
use num_limits::{ARC_SUMS_MOST, PARAMETERS_MOST};
use part::{Begun, Parted};
use part_laws::{PartRefusal, Position};
use refusal::Fault;
use take_tally::Tally;

// The vectors, and one byte more at least.
const INPUT_ROOM: usize = 1_100_000;

// The longest file.
const FILE_MOST: usize = 150_000;

fn put_answer<R: Print + Tell>(stdout: &Output<'_, R>, answer: Result<usize, PartRefusal>) {
    match answer {
        Ok(_) => print!(stdout; "ok "),
        Err(PartRefusal::Stopped(why)) => print!(stdout; "refused_{} ", refusal::number(why)),
        Err(PartRefusal::Broken(fault, _)) => {
            let Fault { why, place } = fault;
            print!(stdout; "refused_{}_at_{place} ", refusal::number(why));
        }
    }
}

// The cuts of a line, as a list; `-` is none.
fn cuts_of(text: &[u8]) -> &[u8] {
    if text.starts_with(b"-") { &[] } else { text }
}

// The answers of the records that were taken, or `-`.
fn put_taken<R: Print + Tell>(stdout: &Output<'_, R>, told: &[u8]) {
    print!(stdout; "taken=");
    if told.is_empty() {
        print!(stdout; "-");
    }
    desk_lines::put_list(stdout, told);
    print!(stdout; "\n");
}

// The file is over: finish, and a part after it.
fn close<R: Print + Tell>(
    stdout: &Output<'_, R>,
    p: Position,
    t: Tally,
    matrix: &mut [i64],
    rights: &mut [i64],
    told: &mut [u8],
) {
    let last = part::finish(p);
    put_answer(stdout, last.answer);
    let after = part::part(last.position, t, matrix, rights, b"", told);
    put_answer(stdout, after.answer);
}

// One part, with the room after the answers that are there; its answer is written.
fn hand_over<R: Print + Tell>(
    stdout: &Output<'_, R>,
    p: Position,
    t: Tally,
    matrix: &mut [i64],
    rights: &mut [i64],
    bytes: &[u8],
    told: &mut [u8],
) -> Parted {
    let k = p.taken.min(told.len());
    let r = part::part(p, t, matrix, rights, bytes, &mut told[k..]);
    put_answer(stdout, r.answer);
    r
}

// Where the parts before the last cut lead, and where it stands.
#[derive(Clone, Copy)]
struct Cut {
    position: Position,
    tally: Tally,
    at: usize,
}

// The parts before the cuts.
fn run_cuts<R: Print + Tell>(
    stdout: &Output<'_, R>,
    first: Begun,
    file: &[u8],
    cuts: &[u8],
    matrix: &mut [i64],
    rights: &mut [i64],
    told: &mut [u8],
) -> Cut {
    let mut p = first.position;
    let mut t = first.tally;
    let mut at: usize = 0;
    for cut in cuts_of(cuts).split_inclusive(|b| *b == b',') {
        let e = desk_lines::decimal(cut) as usize;
        let r = hand_over(
            stdout,
            p,
            t,
            matrix,
            rights,
            desk_lines::part(file, at, e),
            told,
        );
        p = r.position;
        t = r.tally;
        at = e;
    }
    Cut {
        position: p,
        tally: t,
        at,
    }
}

// The part after the last cut, and the end of the file.
fn run_last<R: Print + Tell>(
    stdout: &Output<'_, R>,
    c: Cut,
    file: &[u8],
    matrix: &mut [i64],
    rights: &mut [i64],
    told: &mut [u8],
) {
    let last = hand_over(
        stdout,
        c.position,
        c.tally,
        matrix,
        rights,
        desk_lines::part(file, c.at, file.len()),
        told,
    );
    close(stdout, last.position, last.tally, matrix, rights, told);
    put_taken(stdout, desk_lines::part(told, 0, last.position.taken));
}

// The parts of a line's file one after another: one before each cut, and one after the last.
fn run_line<R: Print + Tell>(stdout: &Output<'_, R>, line: &[u8]) {
    let mut room = desk_files::zeros::<FILE_MOST>();
    let file = desk_lines::hex_bytes(line, &mut room);
    let mut matrix = [0i64; ARC_SUMS_MOST];
    let mut rights = [0i64; PARAMETERS_MOST];
    let mut told = [0u8; 5000];
    desk_lines::put(
        stdout,
        desk_lines::before_word(desk_lines::from_word(line, 1), 2),
    );
    match part::begin(&mut matrix, &mut rights) {
        Ok(first) => {
            let c = run_cuts(
                stdout,
                first,
                file,
                desk_lines::value(line, 1),
                &mut matrix,
                &mut rights,
                &mut told,
            );
            run_last(stdout, c, file, &mut matrix, &mut rights, &mut told);
        }
        Err(why) => desk_lines::put_refusal(stdout, why, b"\n"),
    }
}

fn main(rt: HostRuntime) {
    let stdout = Output::new(&rt);
    let mut buffer = desk_files::zeros::<INPUT_ROOM>();
    test_runner::each_line(test_runner::input(&rt, &mut buffer), |line| {
        run_line(&stdout, line);
    });
}
