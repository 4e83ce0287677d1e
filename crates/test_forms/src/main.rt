// Runs the vectors of normal files moved to either form. Each line is written anew: the move and its file as they were read, and the library's own
// answer. Where a file was moved, a line more tells the same move into room that is one byte shorter.
#![tactic(auto)]

use desk_lines::{Output, Tell};
use refusal::Fault;

// `refused N at PLACE`, or the file that was moved.
fn put_answer<R: Print + Tell>(stdout: &Output<'_, R>, answer: Result<usize, Fault>, out: &[u8]) {
    match answer {
        Ok(n) => {
            print!(stdout; "ok ");
            desk_lines::put_bytes(stdout, desk_lines::part(out, 0, n));
            print!(stdout; "\n");
        }
        Err(Fault { why, place }) => {
            print!(stdout; "refused {} at {place}\n", refusal::number(why));
        }
    }
}

// A form that a file is moved to.
#[derive(Clone, Copy)]
enum Form {
    Small,
    Old,
}

impl Form {
    fn move_file(self, file: &[u8], out: &mut [u8]) -> Result<usize, Fault> {
        match self {
            Form::Small => norm_move::small(file, out),
            Form::Old => norm_move::old(file, out),
        }
    }
}

// A file moved, and what came of it; then the same move into room that is one byte shorter.
fn run_file<R: Print + Tell>(stdout: &Output<'_, R>, form: Form, file: &[u8]) {
    let mut out = desk_files::zeros::<{ desk_files::NORMAL_ROOM }>();
    let moved = form.move_file(file, &mut out);
    put_answer(stdout, moved, &out);
    let n = moved.unwrap_or(0);
    if n > 0 {
        let k = desk_files::within(n - 1, &out);
        let short = form.move_file(file, &mut out[..k]);
        print!(stdout; "one byte less -> ");
        put_answer(stdout, short, &out);
    }
}

// A line `MOVE FILE -> ..`, written anew; `-` stands for no bytes.
fn run_line<R: Print + Tell>(stdout: &Output<'_, R>, line: &[u8]) {
    let mut buffer = desk_files::zeros::<{ desk_files::NORMAL_ROOM }>();
    let file = desk_lines::hex_bytes(desk_lines::from_word(line, 1), &mut buffer);
    desk_lines::put(stdout, desk_lines::before_word(line, 1));
    if file.is_empty() {
        print!(stdout; "-");
    }
    desk_lines::put_bytes(stdout, file);
    print!(stdout; " -> ");
    let form = if line.starts_with(b"s") {
        Form::Small
    } else {
        Form::Old
    };
    run_file(stdout, form, file);
}

fn main(rt: HostRuntime) {
    let stdout = Output::new(&rt);
    let mut buffer = desk_files::zeros::<{ test_runner::INPUT_ROOM }>();
    test_runner::each_line(test_runner::input(&rt, &mut buffer), |line| {
        run_line(&stdout, line);
    });
}
