// Inner to `list` and the programs: the listing of an arc file as the file arrives, part by part. What is put is a function of the bytes handed over.
#![tactic(auto)]

ghost use Rattle.std.specs.Prelude.{◌≡◌, [], ◌≤◌, length, Err};
ghost use Rattle.num_whole.specs.Answer.{bad};
ghost use Rattle.refusal.specs.Number.{number_of};
ghost use Rattle.refusal.specs.Told.{told_placed};
ghost use Rattle.decimal.specs.Laid.{laid};
ghost use Rattle.num_limits.specs.Capacities.{arc_sums_most, parameters_most};
ghost use Rattle.part_laws.specs.Entries.{told_part};
ghost use Rattle.part_laws.specs.Sequence.{form_of};
ghost use Rattle.list_lines.specs.Lines.{tallies_of, refused_line};
ghost use Rattle.list_run.specs.Rooms.{part_most, told_most, text_most};
ghost use Rattle.list_run.specs.Course.{Follows, Open, Leads, Texts, Ended, EndTexts, counted_by, Countable};

use num_limits::ARC_SUMS_MOST;
use part::Parted;
use part_laws::{PartRefusal, Position};
use refusal::Fault;
use take_tally::Tally;

// The bytes that a part may have: 64 KiB.
pub const PART_MOST: usize = 65536;

// The records that such a part can complete: 34 bytes each at least, with 1,087 kept.
const TOLD_MOST: usize = 2048;

// The bytes of the longest listing (docs/FORMATS.md).
pub const TEXT_MOST: usize = 6646;

// Where in the file we are, and the state beside its sums.
#[derive(Clone, Copy)]
pub struct Course {
    pub position: Position,
    pub tally: Tally,
}

// What a part came to: nothing refused so far, or the first refusal in the file's form with its place.
#[derive(Clone, Copy)]
pub struct Heard {
    pub answer: Result<(), Fault>,
    pub course: Course,
}

fn told_room() -> [u8; TOLD_MOST]
    ensures { told_most ≡ length result }
{
    [0; TOLD_MOST]
}

// Room for the matrix sums of fifty parameters.
pub fn sums_room() -> [i64; ARC_SUMS_MOST]
    ensures { arc_sums_most ≡ length result }
{
    [0; ARC_SUMS_MOST]
}

// Room for the longest listing.
pub fn text_room() -> [u8; TEXT_MOST]
    ensures { text_most ≡ length result }
{
    [0; TEXT_MOST]
}

// Before the first part; the sums are cleared, and the table has counted nothing.
pub fn begin(matrix: &mut [i64], rights: &mut [i64], table: &[u64]) -> Course
    requires { (length matrix.old ≡ arc_sums_most) × (length rights.old ≡ parameters_most) × (table.now ≡ tallies_of []) }
    ensures { Follows [] result matrix.new rights.new table.now }
{
    let b = part::begin(matrix, rights).unwrap();
    Course {
        position: b.position,
        tally: b.tally,
    }
}

// What a refusal says of a file: 28, 20 and 6 have no place.
fn fault_of(r: PartRefusal) -> Fault
    ensures { bad (number_of result.why) result.place ≡ form_of (told_part (Err r)) }
{
    match r {
        PartRefusal::Broken(fault, _) => fault,
        PartRefusal::Stopped(why) => Fault { why, place: 0 },
    }
}

// The line of a file that is refused.
pub fn put_fault(fault: Fault, room: &mut [u8]) -> usize
    ensures { (room.new, result) ≡ laid room.old 0 (refused_line (number_of fault.why) fault.place) }
{
    list_lines::put_refused(
        room,
        0,
        refusal::number(fault.why) as u64,
        fault.place as u64,
    )
}

// What a part's answer comes to, and the answers of its records counted.
fn note(x: Parted, table: &mut [u64], told: &[u8]) -> Heard
    requires { Countable (told_part x.answer) table.old told.now }
    ensures answer { told_placed result.answer ≡ form_of (told_part x.answer) }
    ensures course { (result.course.position ≡ x.position) × (result.course.tally ≡ x.tally) }
    ensures table { table.new ≡ counted_by (told_part x.answer) table.old told.now }
{
    let course = Course {
        position: x.position,
        tally: x.tally,
    };
    match x.answer {
        Ok(n) => {
            list_tallies::count(table, &told[..n]);
            Heard {
                answer: Ok(()),
                course,
            }
        }
        Err(r) => Heard {
            answer: Err(fault_of(r)),
            course,
        },
    }
}

// The next part.
pub fn hear(
    c: Course,
    matrix: &mut [i64],
    rights: &mut [i64],
    table: &mut [u64],
    bytes: &[u8],
) -> Heard
    requires { Open c matrix.old rights.old table.old × (length bytes.now ≤ part_most) }
    ensures { Leads c matrix.old rights.old table.old bytes.now result matrix.new rights.new table.new }
{
    let mut told = told_room();
    let x = part::part(c.position, c.tally, matrix, rights, bytes, &mut told);
    note(x, table, &told)
}

// The listing of the bytes handed over, where the file is over.
pub fn put_text(c: Course, matrix: &[i64], rights: &[i64], table: &[u64], room: &mut [u8]) -> usize
    requires { Open c matrix.now rights.now table.now × (length matrix.now ≡ arc_sums_most) × (length rights.now ≡ parameters_most) }
    ensures { Texts c matrix.now rights.now table.now room.old room.new result }
{
    let p = c.position;
    let f = part::finish(p);
    match f.answer {
        Ok(_) => {
            let h = part::heading(p).unwrap();
            list_arc::put_arc(room, h, p.taken as u64, table, c.tally, matrix, rights)
        }
        Err(r) => put_fault(fault_of(r), room),
    }
}

// The same where a refusal in the file's form may have come before.
pub fn put_end(
    answer: Result<(), Fault>,
    c: Course,
    matrix: &[i64],
    rights: &[i64],
    table: &[u64],
    room: &mut [u8],
) -> usize
    requires { Ended answer c matrix.now rights.now table.now × (length matrix.now ≡ arc_sums_most) × (length rights.now ≡ parameters_most) }
    ensures { EndTexts answer c matrix.now rights.now table.now room.old room.new result }
{
    match answer {
        Ok(()) => put_text(c, matrix, rights, table, room),
        Err(fault) => put_fault(fault, room),
    }
}
