// The arc program's whole output: an arc file read, its records taken from the empty state, and what came of it as text in lent room.
#![tactic(auto)]

ghost use Rattle.std.specs.Prelude.{◌≡◌, [], length};
ghost use Rattle.refusal.specs.Told.{told};
ghost use Rattle.num_limits.specs.Capacities.{arc_sums_most, parameters_most};
ghost use Rattle.decimal.specs.Laid.{laid};
ghost use Rattle.list_lines.specs.Lines.{tallies_of};
ghost use Rattle.list_run.specs.Rooms.{text_most};
ghost use Rattle.list_run.specs.Runs.{listing};
ghost use Rattle.list.specs.Listing.{list_answer, list_left};

use list_run::PART_MOST;
use list_tallies::ANSWERS;
use num_limits::PARAMETERS_MOST;
use refusal::Refusal;

// The listing of a file at the room's start: the file's parts, none above 64 KiB, are heard one after another.
fn put_parts(
    room: &mut [u8],
    file: &[u8],
    matrix: &mut [i64],
    rights: &mut [i64],
    table: &mut [u64],
) -> usize
    requires { (length matrix.old ≡ arc_sums_most) × (length rights.old ≡ parameters_most) × (table.old ≡ tallies_of []) }
    ensures { (room.new, result) ≡ laid room.old 0 (listing file.now) }
{
    let mut c = list_run::begin(matrix, rights, table);
    let mut at: usize = 0;
    while at < file.len() {
        let e = at + num_whole::least(PART_MOST, file.len() - at);
        let x = list_run::hear(c, matrix, rights, table, &file[at..e]);
        match x.answer {
            Ok(()) => {
                c = x.course;
                at = e;
            }
            Err(fault) => return list_run::put_fault(fault, room),
        }
    }
    list_run::put_text(c, matrix, rights, table, room)
}

// The same with room of its own for the sums.
fn put_listing(room: &mut [u8], file: &[u8]) -> usize
    ensures { (room.new, result) ≡ laid room.old 0 (listing file.now) }
{
    let mut matrix = list_run::sums_room();
    let mut rights: [i64; PARAMETERS_MOST] = [0; PARAMETERS_MOST];
    let mut table: [u64; ANSWERS] = [0; ANSWERS];
    put_parts(room, file, &mut matrix, &mut rights, &mut table)
}

// ---- the entry

// The listing by way of room for the longest.
fn list_by(file: &[u8], room: &mut [u8], out: &mut [u8]) -> Result<usize, Refusal>
    requires { length room.old ≡ text_most }
    ensures answer { told result ≡ list_answer file.now (length out.old) }
    ensures left { out.new ≡ list_left file.now out.old }
{
    let n = put_listing(room, file);
    if out.len() < n {
        return Err(Refusal::Room);
    }
    decimal::put_text(out, 0, &room[..n]);
    Ok(n)
}

// The listing of a file at the start of lent room, which keeps its rest; 20 where the room is too short, which then is as it was.
pub fn list(file: &[u8], out: &mut [u8]) -> Result<usize, Refusal>
    ensures answer { told result ≡ list_answer file.now (length out.old) }
    ensures left { out.new ≡ list_left file.now out.old }
{
    let mut room = list_run::text_room();
    list_by(file, &mut room, out)
}
