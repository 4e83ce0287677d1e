// The lines of the arc program's listing, each written into lent room at a place; each function gives the place after its lines. What was
// answered is `list_tallies`, the whole listing of an arc `list_arc`.
#![tactic(auto)]

ghost use Rattle.std.specs.Prelude.{◌≡◌, not, ◌≤◌, length};
ghost use Rattle.num_limits.specs.Capacities.{parameters_most};
ghost use Rattle.num_whole.specs.Tests.{pick};
ghost use Rattle.decimal.specs.Laid.{laid};
ghost use Rattle.arc_heading.specs.Judge.{labels_of};
ghost use Rattle.num_packed.specs.Triangle.{tri};
ghost use Rattle.num_packed.specs.Sound.{is_zero};
ghost use Rattle.take_marks.specs.Marks.{mark_count};
ghost use Rattle.list_lines.specs.Lines.{one_line, two_line, refused_line, seen_text, unseen_text, label_text, sums_text, parameter_line, parameter_lines};

use arc_heading::Heading;
use arc_limits::Label;
use take_tally::Tally;

// A text and a number.
pub fn put_one(room: &mut [u8], at: usize, text: &[u8], n: u64) -> usize
    ensures { (room.new, result) ≡ laid room.old at (one_line text.now n) }
{
    let a = decimal::put_text(room, at, text);
    let b = decimal::put_decimal(room, a, n);
    decimal::put_text(room, b, b"\n")
}

// A number behind a text, twice.
pub fn put_two(room: &mut [u8], at: usize, before: &[u8], m: u64, between: &[u8], n: u64) -> usize
    ensures { (room.new, result) ≡ laid room.old at (two_line before.now m between.now n) }
{
    let a = decimal::put_text(room, at, before);
    let b = decimal::put_decimal(room, a, m);
    put_one(room, b, between, n)
}

pub fn put_refused(room: &mut [u8], at: usize, number: u64, place: u64) -> usize
    ensures { (room.new, result) ≡ laid room.old at (refused_line number place) }
{
    put_two(room, at, b"refused ", number, b" at ", place)
}

// ---- parameters

fn put_seen(room: &mut [u8], at: usize, seen: bool) -> usize
    ensures { (room.new, result) ≡ laid room.old at (pick seen seen_text unseen_text) }
{
    if seen {
        decimal::put_text(room, at, b" seen ")
    } else {
        decimal::put_text(room, at, b" unseen ")
    }
}

fn put_label(room: &mut [u8], at: usize, l: Label) -> usize
    ensures { (room.new, result) ≡ laid room.old at (label_text l) }
{
    let a = decimal::put_decimal(room, at, u64::from(l.kind));
    let b = decimal::put_text(room, a, b" ");
    decimal::put_decimal(room, b, u64::from(l.index))
}

fn put_sums(room: &mut [u8], at: usize, diagonal: i64, right: i64, n: u64) -> usize
    ensures { (room.new, result) ≡ laid room.old at (sums_text diagonal right n) }
{
    let a = decimal::put_signed(room, at, diagonal);
    let b = decimal::put_text(room, a, b" ");
    let c = decimal::put_signed(room, b, right);
    put_one(room, c, b" ", n)
}

// Seen where its diagonal sum is not 0. The word holds its marks.
fn put_parameter(
    room: &mut [u8],
    at: usize,
    l: Label,
    diagonal: i64,
    right: i64,
    word: u16,
) -> usize
    ensures { (room.new, result) ≡ laid room.old at (parameter_line l (not (is_zero diagonal)) diagonal right (mark_count word)) }
{
    let a = put_label(room, at, l);
    let b = put_seen(room, a, diagonal != 0);
    put_sums(room, b, diagonal, right, take_marks::count(word) as u64)
}

// A line for each parameter of a heading, with its sums and the number of its stations.
pub fn put_parameters(
    room: &mut [u8],
    start: usize,
    h: Heading,
    t: Tally,
    matrix: &[i64],
    rights: &[i64],
) -> usize
    requires { (h.parameters ≤ parameters_most) × (tri h.parameters ≤ length matrix.now) × (h.parameters ≤ length rights.now) }
    ensures { (room.new, result) ≡ laid room.old start (parameter_lines matrix.now rights.now t.marks 0 (labels_of h)) }
{
    let n = h.parameters;
    let mut at = start;
    for i in 0..n {
        let k = num_packed::place(i, i);
        at = put_parameter(room, at, h.labels[i], matrix[k], rights[i], t.marks[i]);
    }
    at.min(room.len())
}
