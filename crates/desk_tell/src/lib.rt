// What the desk program says of a file: its name, the refusal's number and place, and the sentence of the paper's table, in one line; and what an
// arc's records came to, with the stations of each parameter.
#![tactic(auto)]

ghost use Rattle.std.specs.Prelude.{◌<◌};
ghost use Rattle.num_limits.specs.Capacities.{parameters_most};

use arc_heading::Heading;
use arc_limits::Label;
use desk_lines::{Output, Tell};
use num_limits::{PARAMETERS_MOST, STATIONS_MOST};
use refusal::{Fault, Refusal};
use take_tally::Tally;

// The sentence of the paper's table for a refusal.
pub fn sentence(r: Refusal) -> &'static str {
    match r {
        Refusal::Short => "bytes end before a count or section is complete, or a record is short",
        Refusal::Count => "a count is not one that this paper allows",
        Refusal::Surplus => "bytes follow the last section or a record's end",
        Refusal::Limits => "a heading, label, calendar or cell field is out of its limits",
        Refusal::Order => "labels, stations or arcs don't ascend",
        Refusal::Unsound => "sums not sound",
        Refusal::NoStation => "station not listed",
        Refusal::NoType => "type not 1 to 10",
        Refusal::Sigma => "s not 1 to 256",
        Refusal::Clock => "day not 1 to 54,787, or ms not 0 to 86,399,999",
        Refusal::Window => "t outside the window",
        Refusal::NotFinite => "observed or computed not finite",
        Refusal::UnitLimits => "either one's q out of its limits",
        Refusal::NotLater => "t not later than the last time of this station and type",
        Refusal::Edit => "edit not passed",
        Refusal::Full => "station already has 256",
        Refusal::Room => "a lent buffer shorter than needed",
        Refusal::SharedArc => "both files list one arc",
        Refusal::ManyArcs => "more than 16 arcs together",
        Refusal::ManyParameters => "more than 500 parameters together",
        Refusal::Unlike => "a common label with unlike prior weight or estimate",
        Refusal::Lacking => "a label or arc that the system lacks",
        Refusal::Early => "written before every listed arc has been added",
        Refusal::NothingLeft => "nothing is left",
        Refusal::Closed => "the file is over, or was refused",
        Refusal::Falling => "a time falls within a run",
    }
}

// One line: the file, and what came of it so far.
pub fn begin<R: Print + Tell>(stdout: &Output<'_, R>, path: &[u8], text: &[u8]) {
    desk_lines::put(stdout, path);
    desk_lines::put(stdout, b": ");
    desk_lines::put(stdout, text);
}

// A refusal with its place in a file.
pub fn tell_place<R: Print + Tell>(stdout: &Output<'_, R>, path: &[u8], fault: Fault) {
    let Fault { why, place } = fault;
    begin(stdout, path, b"");
    print!(stdout;
        "refused {} at byte {place}: {}\n",
        refusal::number(why),
        sentence(why)
    );
}

// A refusal that has no place.
pub fn tell_refusal<R: Print + Tell>(stdout: &Output<'_, R>, path: &[u8], why: Refusal) {
    begin(stdout, path, b"");
    print!(stdout; "refused {}: {}\n", refusal::number(why), sentence(why));
}

// A file that is longer than the room for it.
pub fn tell_long<R: Print + Tell>(stdout: &Output<'_, R>, path: &[u8], most: usize) {
    begin(stdout, path, b"");
    print!(stdout; "refused 20 at byte {most}: the file is longer than this program reads\n");
}

// ---- the records of an arc

// The lines of the records have 59 bytes and at most 19 times 42.
const LINES_MOST: usize = 857;

// The listing's lines of the records: how many, how many accepted, and how many have each refusal.
pub fn tell_records<R: Print + Tell>(stdout: &Output<'_, R>, records: usize, table: &[u64]) {
    let mut room = desk_files::zeros::<LINES_MOST>();
    let a = list_lines::put_two(
        &mut room,
        0,
        b"records ",
        records as u64,
        b" accepted ",
        list_tallies::tally(table, 0),
    );
    let b = list_tallies::put_tallies(&mut room, a, table);
    let k = desk_files::within(b, &room);
    desk_lines::put(stdout, &room[..k]);
}

// Whether parameter i of an arc is unseen: its diagonal sum is 0.
fn is_unseen(matrix: &[i64], i: usize) -> bool
    requires { i < parameters_most }
{
    matrix.get(num_packed::place(i, i)) == Some(&0)
}

// One line: the unseen parameters of an arc by kind and index, or that there is none.
pub fn tell_unseen<R: Print + Tell>(stdout: &Output<'_, R>, h: Heading, matrix: &[i64]) {
    print!(stdout; "unseen parameters:");
    let mut separator = "";
    for i in 0..h.parameters.min(PARAMETERS_MOST) {
        if is_unseen(matrix, i) {
            let Label { kind, index, .. } = h.labels[i];
            print!(stdout; "{separator} {kind} {index}");
            separator = ",";
        }
    }
    if separator.is_empty() {
        print!(stdout; " none");
    }
    print!(stdout; "\n");
}

// ---- the stations of an arc's parameters

// The numbers of the stations that a word has marks of, in the heading's order.
fn tell_marked<R: Print + Tell>(stdout: &Output<'_, R>, h: Heading, word: u16) {
    for k in 0..STATIONS_MOST {
        if take_marks::has(word, k as u16) {
            print!(stdout; " {}", h.listed[k].number);
        }
    }
}

// One line: a parameter's kind and index, and the stations of its marks.
fn tell_carriers<R: Print + Tell>(stdout: &Output<'_, R>, h: Heading, l: Label, word: u16) {
    let Label { kind, index, .. } = l;
    print!(stdout; "{kind} {index}");
    if word == 0 {
        print!(stdout; " unseen\n");
    } else {
        print!(stdout; " seen by");
        tell_marked(stdout, h, word);
        print!(stdout; "\n");
    }
}

// A line for each parameter of an arc.
pub fn tell_stations<R: Print + Tell>(stdout: &Output<'_, R>, h: Heading, t: Tally) {
    for i in 0..h.parameters.min(PARAMETERS_MOST) {
        tell_carriers(stdout, h, h.labels[i], t.marks[i]);
    }
}
