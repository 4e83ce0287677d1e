// What the programs that run vectors and stored cases share: standard input read whole, its lines one after another, and the file that an
// argument names. What can't be read is told, and then what is written is not what is expected.
#![tactic(auto)]

ghost use Rattle.std.specs.Prelude.{◌≤◌, length};

use desk_lines::{Output, Tell};
use std::env::Env;
use std::fs::Files;

// The longest input, and one byte more, by which a longer one is found out.
pub const INPUT_ROOM: usize = 524_289;

// Standard input, read whole into a buffer; nothing where it can't be read or fills the buffer, which is told.
pub fn input<'a, R: Input + Tell>(rt: &R, buf: &'a mut [u8]) -> &'a [u8]
    ensures { length result.now ≤ length buf.old }
{
    let got = desk_files::load(&mut rt.reader(), buf);
    let n = got.length;
    if let Some(e) = got.failed {
        desk_files::fail(rt, b"standard input", e);
        return &[];
    }
    if n == buf.len() {
        let _ = rt.tell(b"standard input is too long\n");
        return &[];
    }
    &buf[..n]
}

// Runs each line of a text, with its end.
pub fn each_line<F: FnMut(&[u8])>(text: &[u8], mut run: F)
    requires { F.IsAlwaysCallable run }
{
    for line in text.split_inclusive(|b| *b == b'\n') {
        run(line);
    }
}

// A file that was read: the last byte of its name, which tells what kind of file it is, and its bytes.
#[derive(Clone, Copy)]
pub struct Named<'a> {
    pub last: Option<u8>,
    pub bytes: &'a [u8],
}

// The file that argument i names, read whole into a buffer. Its name is written, and whether it can't be read.
pub fn file<'a, R: Env + Files + Print + Tell>(
    stdout: &Output<'_, R>,
    i: usize,
    buf: &'a mut [u8],
) -> Named<'a>
    ensures { length result.bytes.now ≤ length buf.old }
{
    let rt = stdout.runtime();
    let mut room = [0u8; desk_files::PATH_MOST];
    let path = desk_files::argument(rt, i, &mut room).unwrap_or(&[]);
    desk_lines::put(stdout, path);
    print!(stdout; " ");
    let got = desk_files::load_path(rt, path, buf);
    if got.failed.is_some() {
        print!(stdout; "unread ");
    }
    Named {
        last: path.last().copied(),
        bytes: &buf[..got.length],
    }
}
