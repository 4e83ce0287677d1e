// What the programs share: the words of the command line, room for whole files, reading one whole, and writing one that is not there yet. What the
// system refuses is told on standard error, and only while no file is open for writing: it could have the number of standard error, where that was
// closed. A name is bytes, as the command line gives them; std takes names that are UTF-8 text, and another is told as refused.
#![tactic(auto)]

ghost use Rattle.std.specs.Prelude.{◌≡◌, ◌≤◌, IfOk, length};
ghost use Rattle.desk_files.specs.Counts.{IsPrefixLen};

use arrayvec::ArrayString;
use std::env::{Env, FillError};
use std::fmt::Write as _;
use std::fs::{File, Files, OpenFile};
use std::io::{Error, ErrorKind, Read, Write};
use std::{fs, io};

// The longest path, with the zero that the system puts behind it.
pub const PATH_MOST: usize = 4096;

// The longest normal file, and one byte more, by which a longer one is found out.
pub const NORMAL_ROOM: usize = 1_018_101;

// Room for N bytes, all 0.
pub fn zeros<const N: usize>() -> [u8; N]
    ensures { N ≡ length result }
{
    [0; N]
}

// k, or the buffer's length where k is more.
pub fn within(k: usize, buf: &[u8]) -> usize
    ensures { IsPrefixLen result buf.now }
{
    k.min(buf.len())
}

// ---- reading

// What was read: how many bytes came, which is all where the buffer is longer, and why the last read failed, where it did.
#[derive(Clone, Copy)]
pub struct Loaded {
    pub length: usize,
    pub failed: Option<Error>,
}

// Reads what a reader gives, to its end, to a read that fails, or until the buffer is full.
pub fn load<S: Read>(from: &mut S, buf: &mut [u8]) -> Loaded
    ensures { IsPrefixLen result.length buf.new }
{
    let mut n: usize = 0;
    let mut failed = None;
    while n < buf.len() {
        match from.read(&mut buf[n..]) {
            Ok(0) => break,
            Ok(count) => n += count,
            Err(e) => {
                failed = Some(e);
                break;
            }
        }
    }
    Loaded {
        length: within(n, buf),
        failed,
    }
}

// Opens what a path names for reading.
pub fn open<R: Files>(rt: &R, path: &[u8]) -> io::Result<R::File> {
    fs::open(rt, text_of(path)?)
}

// Opens what a path names, and reads it whole; it says why it cannot.
pub fn load_path<R: Files + Tell>(rt: &R, path: &[u8], buf: &mut [u8]) -> Loaded
    ensures { IsPrefixLen result.length buf.new }
{
    let loaded = match open(rt, path) {
        Ok(mut file) => load(&mut file, buf),
        Err(e) => Loaded {
            length: within(0, buf),
            failed: Some(e),
        },
    };
    if let Some(e) = loaded.failed {
        fail(rt, path, e);
    }
    loaded
}

// ---- the command line

// How many words the command line has, the program's name among them.
pub fn argument_count<R: Env>(rt: &R) -> usize {
    for i in 0..usize::MAX {
        if let Err(FillError::NotPresent) = rt.arg(i, &mut []) {
            return i;
        }
    }
    usize::MAX
}

// Word i of the command line, put at the start of a buffer; or whether there is none or the buffer is too short.
pub fn argument<'a, R: Env>(rt: &R, i: usize, buf: &'a mut [u8]) -> Result<&'a [u8], FillError>
    ensures { IfOk result (λ word. length word.now ≤ length buf.old) }
{
    let n = rt.arg(i, buf)?;
    Ok(&buf[..n])
}

// ---- standard error

// What can write bytes on standard error. `std::io::Eprint` takes text, and a name need be none.
pub trait Tell {
    fn tell(&self, bytes: &[u8]) -> io::Result<()>;
}

impl Tell for HostRuntime {
    fn tell(&self, bytes: &[u8]) -> io::Result<()> {
        self.stderr().write_all(bytes)
    }
}

// Says on standard error what is wrong with a file; that it could not be said can be told nowhere.
fn complain<R: Tell>(rt: &R, path: &[u8], text: &[u8]) {
    let _ = rt.tell(path);
    let _ = rt.tell(text);
}

// Writes a line on standard error: what failed, as the caller names it, a colon and the error's words, without the number in brackets that std
// puts behind those of the system.
pub fn fail<R: Tell>(rt: &R, what: &[u8], why: Error) {
    let mut text = ArrayString::<256>::new();
    let _ = write!(text, "{why}");
    let mut words = text.as_str();
    if why.raw_os_error().is_some() {
        if let Some((front, _)) = words.rsplit_once(" (") {
            words = front;
        }
    }
    complain(rt, what, b": ");
    complain(rt, words.as_bytes(), b"\n");
}

// ---- names

// A path as text.
fn text_of(path: &[u8]) -> io::Result<&str> {
    str::from_utf8(path).map_err(|_| Error::new(
        ErrorKind::InvalidInput,
        "The name is not UTF-8 text",
    ))
}

// A path with ".part" after it, put at the start of a buffer; none where the buffer is too short.
fn beside<'a>(path: &[u8], to: &'a mut [u8]) -> Option<&'a [u8]> {
    let n = path.len();
    let end = n + 5;
    if to.len() < end {
        return None;
    }
    to[..n].copy_from_slice(path);
    to[n..end].copy_from_slice(b".part");
    Some(&to[..end])
}

// A path as the system reads it, to its first zero; of one that is too long the beginning.
fn before_end(path: &[u8]) -> &[u8] {
    let seen = &path[..path.len().min(PATH_MOST - 1)];
    seen.split(|b| *b == 0).next().unwrap_or(seen)
}

// What has a name, a link itself and not what it leads to.
fn look_up<R: Files>(rt: &R, path: &[u8]) -> io::Result<fs::Metadata> {
    fs::symlink_metadata(rt, text_of(path)?)
}

// Whether nothing has this name, not even a link that leads nowhere; where something has it, or that can't be told, it says so.
fn is_free<R: Files + Tell>(rt: &R, path: &[u8]) -> bool {
    match look_up(rt, before_end(path)) {
        Ok(found) => {
            let taken: &[u8] = if found.is_symlink() {
                b": there is a link already, and it stays as it is\n"
            } else {
                b": there is one already, and it stays as it is\n"
            };
            complain(rt, path, taken);
            false
        }
        Err(e) if e.kind() == ErrorKind::NotFound => true,
        Err(e) => {
            fail(rt, path, e);
            false
        }
    }
}

// ---- writing

// Writes bytes and waits until they are on their device, or says why they are not.
fn is_down<F: Write + OpenFile>(file: &mut F, bytes: &[u8]) -> io::Result<()> {
    file.write_all(bytes)?;
    file.sync_all()
}

// Removes a file.
fn remove<R: Files>(rt: &R, path: &[u8]) -> io::Result<()> {
    fs::remove_file(rt, text_of(path)?)
}

// Removes a file that this program made, or says why it cannot.
fn discard<R: Files + Tell>(rt: &R, part: &[u8]) {
    if let Err(e) = remove(rt, part) {
        fail(rt, part, e);
    }
}

// Says why the file beside another could not be made.
fn tell_part<R: Tell>(rt: &R, part: &[u8], why: Error) {
    if why.kind() == ErrorKind::AlreadyExists {
        complain(
            rt,
            part,
            b": another run is writing it, or a run that was stopped left it; where none is running, remove it and run again\n",
        );
    } else {
        fail(rt, part, why);
    }
}

// Makes a file of a name that nothing has.
fn make<R: Files>(rt: &R, path: &[u8]) -> io::Result<R::File> {
    File::create_new(rt, text_of(path)?)
}

// Makes a file of this name with these bytes, on its device and closed; or leaves none, and says why.
fn save_part<R: Files + Tell>(rt: &R, part: &[u8], bytes: &[u8]) -> bool {
    match make(rt, part) {
        Ok(mut file) => {
            let written = is_down(&mut file, bytes);
            // closed before anything is told
            drop(file);
            if let Err(e) = written {
                fail(rt, part, e);
                discard(rt, part);
                return false;
            }
            true
        }
        Err(e) => {
            tell_part(rt, part, e);
            false
        }
    }
}

// Gives a file another name in one step.
fn rename<R: Files>(rt: &R, from: &[u8], to: &[u8]) -> io::Result<()> {
    fs::rename(rt, text_of(from)?, text_of(to)?)
}

// Gives a finished file its own name in one step, where nothing has it; else the finished file is removed.
fn give<R: Files + Tell>(rt: &R, part: &[u8], path: &[u8]) -> bool {
    if is_free(rt, path) {
        match rename(rt, part, path) {
            Ok(()) => return true,
            Err(e) => fail(rt, path, e),
        }
    }
    discard(rt, part);
    false
}

// Writes a file whole or not at all, by way of a file NAME.part beside it. That name is held from before the look whether NAME is free until NAME
// is given, so that no two runs can both find NAME free. NAME is never empty and never has a part of the bytes, whenever the program is stopped.
pub fn save<R: Files + Tell>(rt: &R, path: &[u8], bytes: &[u8]) -> bool {
    let mut buf = [0u8; PATH_MOST];
    match beside(path, &mut buf) {
        Some(part) => is_free(rt, path) && save_part(rt, part, bytes) && give(rt, part, path),
        None => {
            complain(rt, path, b": the name is too long\n");
            false
        }
    }
}
