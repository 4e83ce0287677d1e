// The arc program: reads an arc file of any length on standard input, 64 KiB at a time, and prints its listing and nothing else. An input that can't
// be read is told on standard error, and nothing is listed.
#![tactic(auto)]

ghost use Rattle.std.specs.Prelude.{◌≡◌, length};
ghost use Rattle.list_run.specs.Rooms.{part_most};

use desk_lines::{Output, Tell};
use list_run::PART_MOST;
use list_tallies::ANSWERS;
use num_limits::PARAMETERS_MOST;

fn run<R: Input + Print + Tell>(stdout: &Output<'_, R>, buf: &mut [u8], out: &mut [u8])
    requires { length buf.old ≡ part_most }
{
    let mut matrix = list_run::sums_room();
    let mut rights: [i64; PARAMETERS_MOST] = [0; PARAMETERS_MOST];
    let mut table: [u64; ANSWERS] = [0; ANSWERS];
    let mut stdin = stdout.runtime().reader();
    let f = desk_arc::follow(&mut stdin, buf, &mut matrix, &mut rights, &mut table);
    match f.failed {
        None => {
            let n = list_run::put_end(f.answer, f.course, &matrix, &rights, &table, out);
            let k = desk_files::within(n, out);
            desk_lines::put(stdout, &out[..k]);
        }
        Some(e) => desk_files::fail(stdout.runtime(), b"standard input", e),
    }
}

fn main(rt: HostRuntime) {
    let stdout = Output::new(&rt);
    let mut buf = desk_files::zeros::<PART_MOST>();
    let mut out = list_run::text_room();
    run(&stdout, &mut buf, &mut out);
}
