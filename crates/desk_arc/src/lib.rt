// What the programs share of arc files: one is read in parts of 64 KiB, and its records are taken as they complete.
#![tactic(auto)]

ghost use Rattle.std.specs.Prelude.{◌≡◌, [], length};
ghost use Rattle.num_limits.specs.Capacities.{arc_sums_most, parameters_most};
ghost use Rattle.list_lines.specs.Lines.{tallies_of};
ghost use Rattle.list_run.specs.Rooms.{part_most};
ghost use Rattle.list_run.specs.Course.{Ended};

use list_run::{Course, PART_MOST};
use num_limits::RECORDS_MOST;
use part_laws::{OPENED_MOST, RECORD_SIZE_MOST};
use refusal::Fault;
use std::io::{Error, Read};

// The bytes of the longest arc file, 8,651,576: its heading with the counts, and its records. A longer one is refused before more are read.
const ARC_BYTES_MOST: usize = OPENED_MOST + RECORDS_MOST * RECORD_SIZE_MOST;

// What came of a file: what its parts said of its form, where they led, and why a read failed, where one did before they were refused.
#[derive(Clone, Copy)]
pub struct Followed {
    pub answer: Result<(), Fault>,
    pub course: Course,
    pub failed: Option<Error>,
}

// Reads what a reader gives to its end, to a read that fails, or to a refusal in the file's form. The end of the file is not told yet.
pub fn follow<S: Read>(
    from: &mut S,
    buf: &mut [u8],
    matrix: &mut [i64],
    rights: &mut [i64],
    table: &mut [u64],
) -> Followed
    requires { (length buf.old ≡ part_most) × (length matrix.old ≡ arc_sums_most) × (length rights.old ≡ parameters_most) × (table.old ≡ tallies_of []) }
    ensures { Ended result.answer result.course matrix.new rights.new table.new }
{
    let mut c = list_run::begin(matrix, rights, table);
    let mut total: usize = 0;
    while total <= ARC_BYTES_MOST {
        let got = desk_files::load(from, buf);
        let n = got.length;
        let heard = list_run::hear(c, matrix, rights, table, &buf[..n]);
        c = heard.course;
        if heard.answer.is_err() {
            return Followed {
                answer: heard.answer,
                course: c,
                failed: None,
            };
        }
        if n < PART_MOST {
            return Followed {
                answer: heard.answer,
                course: c,
                failed: got.failed,
            };
        }
        total += n;
    }
    Followed {
        answer: Ok(()),
        course: c,
        failed: None,
    }
}
