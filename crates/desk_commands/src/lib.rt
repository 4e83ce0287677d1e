// The commands of the desk program: which words name them, which files they read and write, and what they tell. What is told of a file comes
// from the proved libraries; here bytes are only moved. Results and refusals go to standard output, what the system refuses to standard error.
// An arc file is read in parts, so that its length does not matter. The rooms for normal files are locals of one function, which is never made a part
// of its callers: the commands that read no normal file do without them.
#![tactic(auto)]

ghost use Rattle.std.specs.Prelude.{◌≡◌, ◌≤◌, IfSome, length};
ghost use Rattle.num_limits.specs.Capacities.{arc_sums_most, parameters_most};
ghost use Rattle.list_run.specs.Rooms.{part_most};
ghost use Rattle.list_run.specs.Course.{Open, Ended};
ghost use Rattle.merge.specs.Files.{merge_answer, merge_left, told_merge};

use arc_heading::Heading;
use desk_arc::Followed;
use desk_files::{NORMAL_ROOM, PATH_MOST};
use desk_lines::{Output, Tell};
use list_run::{Course, PART_MOST};
use list_tallies::ANSWERS;
use merge::MergeRefusal;
use norm_read::NormalRead;
use num_limits::PARAMETERS_MOST;
use part_laws::{PartRefusal, Position};
use refusal::Fault;
use std::env::{Env, FillError};
use std::fs::Files;
use std::io::Read;
use take_tally::Tally;

// ---- files in and out

// Reads a file into the room, whose last byte only shows that there is more: its bytes. A file that can't be read or is too long is told.
fn fetch<'a, R: Files + Print + Tell>(
    stdout: &Output<'_, R>,
    path: &[u8],
    room: &'a mut [u8],
) -> Option<&'a [u8]> {
    let got = desk_files::load_path(stdout.runtime(), path, room);
    let n = got.length;
    if got.failed.is_some() {
        return None;
    }
    if n < room.len() {
        return Some(&room[..n]);
    }
    if n > 0 {
        desk_tell::tell_long(stdout, path, n - 1);
    }
    None
}

// Writes the first bytes of the room as a new file: whether that was done.
fn store<R: Files + Print + Tell>(
    stdout: &Output<'_, R>,
    path: &[u8],
    room: &[u8],
    count: usize,
) -> bool {
    let k = desk_files::within(count, room);
    let is_saved = desk_files::save(stdout.runtime(), path, &room[..k]);
    if is_saved {
        desk_tell::begin(stdout, path, b"written, ");
        print!(stdout; "{k} bytes\n");
    }
    is_saved
}

// ---- arc files

// What is done with an arc file.
#[derive(Clone, Copy)]
enum Asked<'a> {
    Check,
    List,
    Stations,
    Normal { to: &'a [u8] },
}

fn tell_arc<R: Print + Tell>(stdout: &Output<'_, R>, path: &[u8], h: Heading, records: usize) {
    let Heading {
        parameters,
        stations,
        ..
    } = h;
    desk_tell::begin(stdout, path, b"accepted: ");
    print!(stdout;
        "arc {}, parameters {parameters}, stations {stations}, records {records}\n",
        h.settings.arc
    );
}

// The listing of an accepted arc file.
fn list_arc<R: Print + Tell>(
    stdout: &Output<'_, R>,
    c: Course,
    matrix: &[i64],
    rights: &[i64],
    table: &[u64],
)
    requires { Open c matrix.now rights.now table.now × (length matrix.now ≡ arc_sums_most) × (length rights.now ≡ parameters_most) }
{
    let mut out = list_run::text_room();
    let n = list_run::put_text(c, matrix, rights, table, &mut out);
    let k = desk_files::within(n, &out);
    desk_lines::put(stdout, &out[..k]);
}

// The longest normal file of one arc.
const SINGLE_MOST: usize = 11_840;

// The normal file of a state, and what its records came to.
fn store_state<R: Files + Print + Tell>(
    stdout: &Output<'_, R>,
    path: &[u8],
    h: Heading,
    records: usize,
    t: Tally,
    matrix: &[i64],
    rights: &[i64],
    table: &[u64],
    to: &[u8],
) {
    let mut out = desk_files::zeros::<SINGLE_MOST>();
    match norm_state::of_state(h, t, matrix, rights, &mut out) {
        Ok(n) => {
            if store(stdout, to, &out, n) {
                desk_tell::tell_records(stdout, records, table);
                desk_tell::tell_unseen(stdout, h, matrix);
            }
        }
        Err(why) => desk_tell::tell_refusal(stdout, path, why),
    }
}

// What is asked of an accepted arc file.
fn use_arc<R: Files + Print + Tell>(
    stdout: &Output<'_, R>,
    path: &[u8],
    h: Heading,
    c: Course,
    matrix: &[i64],
    rights: &[i64],
    table: &[u64],
    asked: Asked<'_>,
)
    requires { Open c matrix.now rights.now table.now × (length matrix.now ≡ arc_sums_most) × (length rights.now ≡ parameters_most) }
{
    let records = c.position.taken;
    match asked {
        Asked::Check => tell_arc(stdout, path, h, records),
        Asked::List => list_arc(stdout, c, matrix, rights, table),
        Asked::Stations => desk_tell::tell_stations(stdout, h, c.tally),
        Asked::Normal { to } => {
            store_state(stdout, path, h, records, c.tally, matrix, rights, table, to);
        }
    }
}

// The heading of a file that is over, where nothing is missing.
fn finished(p: Position) -> Result<Heading, PartRefusal> {
    part::finish(p).answer?;
    part::heading(p)
}

// The file is over: it is refused where something is missing, else it is used.
fn end_arc<R: Files + Print + Tell>(
    stdout: &Output<'_, R>,
    path: &[u8],
    c: Course,
    matrix: &[i64],
    rights: &[i64],
    table: &[u64],
    asked: Asked<'_>,
)
    requires { Open c matrix.now rights.now table.now × (length matrix.now ≡ arc_sums_most) × (length rights.now ≡ parameters_most) }
{
    match finished(c.position) {
        Ok(h) => use_arc(stdout, path, h, c, matrix, rights, table, asked),
        Err(PartRefusal::Broken(fault, _)) => desk_tell::tell_place(stdout, path, fault),
        Err(PartRefusal::Stopped(why)) => desk_tell::tell_refusal(stdout, path, why),
    }
}

// What the parts of a file led to: a refusal in its form, or all of it.
fn judge_arc<R: Files + Print + Tell>(
    stdout: &Output<'_, R>,
    path: &[u8],
    f: Followed,
    matrix: &[i64],
    rights: &[i64],
    table: &[u64],
    asked: Asked<'_>,
)
    requires { Ended f.answer f.course matrix.now rights.now table.now × (length matrix.now ≡ arc_sums_most) × (length rights.now ≡ parameters_most) }
{
    match f.answer {
        Ok(()) => end_arc(stdout, path, f.course, matrix, rights, table, asked),
        Err(fault) => desk_tell::tell_place(stdout, path, fault),
    }
}

// The parts of an open file, judged once all of them could be read; else it is told why not.
fn read_arc<R: Files + Print + Tell, S: Read>(
    stdout: &Output<'_, R>,
    from: &mut S,
    path: &[u8],
    asked: Asked<'_>,
    buf: &mut [u8],
)
    requires { length buf.old ≡ part_most }
{
    let mut matrix = list_run::sums_room();
    let mut rights: [i64; PARAMETERS_MOST] = [0; PARAMETERS_MOST];
    let mut table: [u64; ANSWERS] = [0; ANSWERS];
    let f = desk_arc::follow(from, buf, &mut matrix, &mut rights, &mut table);
    match f.failed {
        None => judge_arc(stdout, path, f, &matrix, &rights, &table, asked),
        Some(e) => desk_files::fail(stdout.runtime(), path, e),
    }
}

// An arc file of any length is read in parts and judged, and what is asked is done with it.
#[inline(never)]
fn with_arc<R: Files + Print + Tell>(stdout: &Output<'_, R>, path: &[u8], asked: Asked<'_>) {
    let mut buf = desk_files::zeros::<PART_MOST>();
    match desk_files::open(stdout.runtime(), path) {
        Ok(mut file) => read_arc(stdout, &mut file, path, asked, &mut buf),
        Err(e) => desk_files::fail(stdout.runtime(), path, e),
    }
}

// ---- normal files

// What is done with a normal file.
#[derive(Clone, Copy)]
enum Wanted<'a> {
    Check,
    Merge { second: &'a [u8], to: &'a [u8] },
    Small { to: &'a [u8] },
    Old { to: &'a [u8] },
}

fn tell_form<R: Print + Tell>(stdout: &Output<'_, R>, stored: usize, is_small: bool) {
    if is_small {
        print!(stdout; "small form with sums of {stored} parameters");
    } else {
        print!(stdout; "old form");
    }
}

fn tell_normal<R: Print + Tell>(stdout: &Output<'_, R>, path: &[u8], file: &[u8], r: NormalRead) {
    desk_tell::begin(stdout, path, b"accepted: ");
    tell_form(stdout, r.stored, r.is_small);
    let accepted = byte_read::read_u64(file, r.totals);
    print!(stdout;
        ", arcs {}, parameters {}, records accepted {accepted}\n",
        r.arcs, r.parameters
    );
}

// The bytes that a move gave, as a new file, or why there are none.
fn store_moved<R: Files + Print + Tell>(
    stdout: &Output<'_, R>,
    path: &[u8],
    to: &[u8],
    answer: Result<usize, Fault>,
    out: &[u8],
) {
    match answer {
        Ok(n) => {
            store(stdout, to, out, n);
        }
        Err(fault) => desk_tell::tell_place(stdout, path, fault),
    }
}

// Merging has rooms of its own, which are given back before the file is written: it is never made a part of its caller.
#[inline(never)]
fn merged(a: &[u8], b: &[u8], out: &mut [u8]) -> Result<usize, MergeRefusal>
    ensures { (told_merge result ≡ merge_answer a.now b.now (length out.old)) × (out.new ≡ merge_left a.now b.now out.old) }
{
    merge::merge(a, b, out)
}

// Two files and the name of the third.
fn merge_files<R: Files + Print + Tell>(
    stdout: &Output<'_, R>,
    first: &[u8],
    a: &[u8],
    second: &[u8],
    b: &[u8],
    to: &[u8],
    out: &mut [u8],
) {
    match merged(a, b, out) {
        Ok(n) => {
            store(stdout, to, out, n);
        }
        Err(MergeRefusal::First(fault)) => desk_tell::tell_place(stdout, first, fault),
        Err(MergeRefusal::Second(fault)) => desk_tell::tell_place(stdout, second, fault),
        Err(MergeRefusal::Together(why)) => {
            desk_lines::put(stdout, first);
            desk_lines::put(stdout, b" and ");
            desk_tell::tell_refusal(stdout, second, why);
        }
    }
}

// Reads the bytes of a normal file; a refusal is told.
fn judge<R: Print + Tell>(stdout: &Output<'_, R>, path: &[u8], file: &[u8]) -> Option<NormalRead> {
    match norm_read::read(file) {
        Ok(r) => Some(r),
        Err(fault) => {
            desk_tell::tell_place(stdout, path, fault);
            None
        }
    }
}

// What is wanted of a file that is here. Before a second one is fetched it is judged.
fn use_first<R: Files + Print + Tell>(
    stdout: &Output<'_, R>,
    first: &[u8],
    a: &[u8],
    wanted: Wanted<'_>,
    room: &mut [u8],
    out: &mut [u8],
) {
    match wanted {
        Wanted::Check => {
            if let Some(r) = judge(stdout, first, a) {
                tell_normal(stdout, first, a, r);
            }
        }
        Wanted::Merge { second, to } => {
            if judge(stdout, first, a).is_some() {
                if let Some(b) = fetch(stdout, second, room) {
                    merge_files(stdout, first, a, second, b, to, out);
                }
            }
        }
        Wanted::Small { to } => {
            let moved = norm_move::small(a, out);
            store_moved(stdout, first, to, moved, out);
        }
        Wanted::Old { to } => {
            let moved = norm_move::old(a, out);
            store_moved(stdout, first, to, moved, out);
        }
    }
}

// A normal file is read and judged, and told with its counts, moved to a form as OUT, or merged with a second one into OUT.
#[inline(never)]
fn with_normals<R: Files + Print + Tell>(stdout: &Output<'_, R>, first: &[u8], wanted: Wanted<'_>) {
    let mut one = desk_files::zeros::<NORMAL_ROOM>();
    let mut two = desk_files::zeros::<NORMAL_ROOM>();
    let mut out = desk_files::zeros::<NORMAL_ROOM>();
    if let Some(a) = fetch(stdout, first, &mut one) {
        use_first(stdout, first, a, wanted, &mut two, &mut out);
    }
}

// ---- the commands

// What the first word names.
#[derive(Clone, Copy)]
enum Verb {
    List,
    Stations,
    Normal,
    Merge,
    Small,
    Old,
    Check,
    Help,
}

impl Verb {
    fn named(name: &[u8]) -> Option<Verb> {
        match name {
            b"list" => Some(Verb::List),
            b"stations" => Some(Verb::Stations),
            b"normal" => Some(Verb::Normal),
            b"merge" => Some(Verb::Merge),
            b"small" => Some(Verb::Small),
            b"old" => Some(Verb::Old),
            b"check" => Some(Verb::Check),
            b"help" => Some(Verb::Help),
            _ => None,
        }
    }

    // How many words the command has, with this one.
    fn words(self) -> usize {
        match self {
            Verb::Help => 1,
            Verb::List | Verb::Stations => 2,
            Verb::Normal | Verb::Small | Verb::Old | Verb::Check => 3,
            Verb::Merge => 4,
        }
    }

    // The lines of help of the command, and of those that are told with it.
    fn help(self) -> &'static str {
        match self {
            Verb::List => HELP_LIST,
            Verb::Stations => HELP_STATIONS,
            Verb::Normal => HELP_NORMAL,
            Verb::Merge => HELP_MERGE,
            Verb::Small | Verb::Old => HELP_MOVES,
            Verb::Check => HELP_CHECK,
            Verb::Help => HELP_HELP,
        }
    }
}

const HELP_LIST: &str = "desk list ARC              the listing of an arc file\n";

const HELP_STATIONS: &str =
    "desk stations ARC          the stations of each parameter of an arc file, by number\n";

const HELP_NORMAL: &str =
    "desk normal ARC OUT        the normal file of an arc file, as a new file OUT\n";

const HELP_MERGE: &str = "desk merge A B OUT         two normal files merged, as a new file OUT\n";

const HELP_MOVES: &str =
    "desk small FILE OUT        a normal file without the sums of unseen parameters, as a new file OUT\ndesk old FILE OUT          a normal file with the sums of all parameters, as a new file OUT\n";

const HELP_CHECK: &str =
    "desk check arc FILE        an arc file accepted with its counts, or refused with number and place\ndesk check normal FILE     the same for a normal file\n";

const HELP_HELP: &str = "desk help                  these lines\n";

const HELP_FILES: &str =
    "Arc files may have any length, normal files up to 1018100 bytes. A file OUT that is there stays as it is.\nOUT is written as OUT.part and then gets its name, so that it is whole or not there.\n";

fn help<R: Print + Tell>(stdout: &Output<'_, R>) {
    print!(stdout;
        "{HELP_LIST}{HELP_STATIONS}{HELP_NORMAL}{HELP_MERGE}{HELP_MOVES}{HELP_CHECK}{HELP_HELP}{HELP_FILES}"
    );
}

// The words of a command that has too few or too many, or others.
fn usage<R: Print + Tell>(stdout: &Output<'_, R>, verb: Verb) {
    print!(stdout; "desk: this command wants other words:\n{}", verb.help());
}

// ---- the words

// A word of the command line, so many after word `at`, put into a buffer. One that is no path, since it is empty or too long for one, which has
// a 0 behind it, is told.
fn word<'a, R: Env + Print + Tell>(
    stdout: &Output<'_, R>,
    at: usize,
    after: usize,
    buf: &'a mut [u8],
) -> Option<&'a [u8]>
    ensures { IfSome result (λ word. length word.now ≤ length buf.old) }
{
    let number = after.saturating_add(1);
    match desk_files::argument(stdout.runtime(), at.saturating_add(after), buf) {
        Ok([]) | Err(FillError::NotPresent) => {
            print!(stdout; "desk: word {number} is empty\n");
            None
        }
        Ok(word) if word.len() < PATH_MOST => Some(word),
        Ok(_) | Err(FillError::TooLong) => {
            print!(stdout; "desk: word {number} is longer than a name may be, 4095 bytes\n");
            None
        }
    }
}

// Does something with the word after a command, where it is a path.
fn with_one<R: Env + Print + Tell, F: FnOnce(&[u8])>(stdout: &Output<'_, R>, at: usize, act: F)
    requires { F.IsAlwaysCallable act }
{
    let mut buf = [0u8; PATH_MOST];
    if let Some(first) = word(stdout, at, 1, &mut buf) {
        act(first);
    }
}

// The same with two words.
fn with_two<R: Env + Print + Tell, F: FnOnce(&[u8], &[u8])>(
    stdout: &Output<'_, R>,
    at: usize,
    act: F,
)
    requires { F.IsAlwaysCallable act }
{
    let mut one = [0u8; PATH_MOST];
    let mut two = [0u8; PATH_MOST];
    let first = word(stdout, at, 1, &mut one);
    let second = word(stdout, at, 2, &mut two);
    if let (Some(first), Some(second)) = (first, second) {
        act(first, second);
    }
}

// The same with three words.
fn with_three<R: Env + Print + Tell, F: FnOnce(&[u8], &[u8], &[u8])>(
    stdout: &Output<'_, R>,
    at: usize,
    act: F,
)
    requires { F.IsAlwaysCallable act }
{
    let mut one = [0u8; PATH_MOST];
    let mut two = [0u8; PATH_MOST];
    let mut three = [0u8; PATH_MOST];
    let first = word(stdout, at, 1, &mut one);
    let second = word(stdout, at, 2, &mut two);
    let third = word(stdout, at, 3, &mut three);
    if let (Some(first), Some(second), Some(third)) = (first, second, third) {
        act(first, second, third);
    }
}

// `check arc FILE`, `check normal FILE`
fn check<R: Files + Print + Tell>(stdout: &Output<'_, R>, what: &[u8], path: &[u8]) {
    match what {
        b"arc" => with_arc(stdout, path, Asked::Check),
        b"normal" => with_normals(stdout, path, Wanted::Check),
        _ => usage(stdout, Verb::Check),
    }
}

// A command with the words behind it.
fn run_verb<R: Env + Files + Print + Tell>(stdout: &Output<'_, R>, verb: Verb, at: usize) {
    match verb {
        Verb::List => with_one(stdout, at, |path| with_arc(stdout, path, Asked::List)),
        Verb::Stations => with_one(stdout, at, |path| {
            with_arc(stdout, path, Asked::Stations);
        }),
        Verb::Normal => with_two(stdout, at, |path, to| {
            with_arc(stdout, path, Asked::Normal { to });
        }),
        Verb::Merge => with_three(stdout, at, |first, second, to| {
            with_normals(stdout, first, Wanted::Merge { second, to });
        }),
        Verb::Small => with_two(stdout, at, |path, to| {
            with_normals(stdout, path, Wanted::Small { to });
        }),
        Verb::Old => with_two(stdout, at, |path, to| {
            with_normals(stdout, path, Wanted::Old { to });
        }),
        Verb::Check => with_two(stdout, at, |what, path| check(stdout, what, path)),
        Verb::Help => help(stdout),
    }
}

// The command of `count` words from word `at` of the command line on; with none, the lines of help.
pub fn run<R: Env + Files + Print + Tell>(stdout: &Output<'_, R>, at: usize, count: usize) {
    if count == 0 {
        help(stdout);
        return;
    }
    let mut buf = [0u8; PATH_MOST];
    if let Some(name) = word(stdout, at, 0, &mut buf) {
        match Verb::named(name) {
            Some(verb) if count == verb.words() => run_verb(stdout, verb, at),
            Some(verb) => usage(stdout, verb),
            None => print!(stdout; "desk: no such command; 'desk help' names them\n"),
        }
    }
}
