// The library for callers in C and in Rust: numbers and slices only, no requirement on any of them. A call answers 0 where it is done, else the
// paper's refusal number; results go into lent room, and a refusal changes nothing there. include/wheloruka.h declares the calls.
#![tactic(auto)]

ghost use Rattle.std.specs.Prelude.{◌≡◌, length, true, false};
ghost use Rattle.call_rooms.specs.Result.{result_number, result_left, told_values, one, room_for, bytes_left};
ghost use Rattle.arc_read.specs.Arc.{read_arc};
ghost use Rattle.norm_read.specs.Normal.{read_normal};
ghost use Rattle.norm_room.specs.Room.{heads_of};
ghost use Rattle.norm_unpack.specs.Unpack.{unpack_normal, filled, matrix_of, rights_of};
ghost use Rattle.norm_write.specs.Write.{write_normal, normal_left_in};
ghost use Rattle.norm_move.specs.Move.{move_answer, move_left};
ghost use Rattle.merge.specs.Files.{merge_answer, merge_left};
ghost use Rattle.list.specs.Listing.{list_answer, list_left};
ghost use Rattle.wheloruka.specs.Numbers.{day_values, date_values, cell_values, index_values, unit_values, double_values, residual_values};
ghost use Rattle.call_files.specs.Reading.{refusal_place, read_number, heading_left, places_left, judged_number};
ghost use Rattle.wheloruka.specs.Reading.{form_number, normal_values};
ghost use Rattle.wheloruka.specs.Taking.{
  lent,
  start_number,
  start_left,
  judge_number,
  take_number,
  take_left,
  run_call_number,
  run_left,
  answers_left,
  seen_values,
  carriers_values,
  carries_values,
};
ghost use Rattle.call_told.specs.Told.{told_number, told_out};
ghost use Rattle.call_part.specs.Calls.{
  rooms,
  begin_call,
  begin_left,
  part_call,
  part_left,
  part_answers_left,
  finish_call,
  finish_left,
  head_call,
  head_left,
};
ghost use Rattle.call_files.specs.Writing.{move_call_number, merge_call_number};
ghost use Rattle.call_files.specs.Arcs.{arc_file, arc_left};
ghost use Rattle.wheloruka.specs.Writing.{headed_number, state_file, state_file_left};

use days::Date;

// ---- days

// The number of a date.
#[unsafe(no_mangle)]
pub extern "C" fn whl_day_of_date(year: u32, month: u32, day: u32, out: &mut [u32]) -> u32
    ensures value { result ≡ result_number (day_values year month day) (length out.old) }
    ensures left { out.new ≡ result_left (day_values year month day) out.old }
{
    call_rooms::give_told(out, days::day_of_date(Date { year, month, day }))
}

// The year, the month and the day of a day number.
#[unsafe(no_mangle)]
pub extern "C" fn whl_date_of_day(day: u32, out: &mut [u32]) -> u32
    ensures value { result ≡ result_number (date_values day) (length out.old) }
    ensures left { out.new ≡ result_left (date_values day) out.old }
{
    call_numbers::give_date(out, days::date_of_day(day))
}

// ---- cells

// The letter, the degree and the order of the cell at an index.
#[unsafe(no_mangle)]
pub extern "C" fn whl_cell_at(index: u32, out: &mut [u32]) -> u32
    ensures value { result ≡ result_number (cell_values index) (length out.old) }
    ensures left { out.new ≡ result_left (cell_values index) out.old }
{
    call_numbers::give_cell(out, cells::cell_at(index))
}

// The index of a cell by its letter's number.
#[unsafe(no_mangle)]
pub extern "C" fn whl_index_of(letter: u32, degree: u32, order: u32, out: &mut [u32]) -> u32
    ensures value { result ≡ result_number (index_values letter degree order) (length out.old) }
    ensures left { out.new ≡ result_left (index_values letter degree order) out.old }
{
    call_rooms::give_told(out, call_numbers::index_by(letter, degree, order))
}

// ---- units

// The unit of a double of a type.
#[unsafe(no_mangle)]
pub extern "C" fn whl_unit_of(kind: u32, x: f64, out: &mut [i64]) -> u32
    ensures value { result ≡ result_number (unit_values kind x) (length out.old) }
    ensures left { out.new ≡ result_left (unit_values kind x) out.old }
{
    call_rooms::give_told(out, unit_convert::unit_of(kind, x))
}

// The double of a unit of a type.
#[unsafe(no_mangle)]
pub extern "C" fn whl_double_of(kind: u32, unit: i64, out: &mut [f64]) -> u32
    ensures value { result ≡ result_number (double_values kind unit) (length out.old) }
    ensures left { out.new ≡ result_left (double_values kind unit) out.old }
{
    call_rooms::give_told(out, unit_convert::double_of_unit(kind, unit))
}

// The residual of a measurement: observed minus computed, in units.
#[unsafe(no_mangle)]
pub extern "C" fn whl_residual(kind: u32, observed: f64, computed: f64, out: &mut [i64]) -> u32
    ensures value { result ≡ result_number (residual_values kind observed computed) (length out.old) }
    ensures left { out.new ≡ result_left (residual_values kind observed computed) out.old }
{
    call_rooms::give_told(out, call_numbers::residual_as(kind, observed, computed))
}

// ---- files

// An arc file's heading in one room; the number of its records and the first one's place in another.
#[unsafe(no_mangle)]
pub extern "C" fn whl_read(file: &[u8], heading: &mut [u8], out: &mut [u64]) -> u32
    ensures value { result ≡ read_number (read_arc file.now) (length heading.old) (length out.old) }
    ensures heading { heading.new ≡ heading_left (read_arc file.now) heading.old (length out.old) }
    ensures places { out.new ≡ places_left (read_arc file.now) (length heading.old) out.old }
{
    call_files::give_arc(arc_read::read(file), heading, out)
}

// The place of an arc file's refusal; 0 where the file is accepted.
#[unsafe(no_mangle)]
pub extern "C" fn whl_read_place(file: &[u8]) -> u64
    ensures { result ≡ refusal_place (read_arc file.now) }
{
    call_files::read_place(arc_read::read(file))
}

// An arc file of a heading and a run of records.
#[unsafe(no_mangle)]
pub extern "C" fn whl_write(heading: &[u8], run: &[u8], out: &mut [u8], size: &mut [u64]) -> u32
    ensures value { result ≡ result_number (told_values one (arc_file heading.now run.now (room_for (length size.old) (length out.old)))) (length size.old) }
    ensures size { size.new ≡ result_left (told_values one (arc_file heading.now run.now (room_for (length size.old) (length out.old)))) size.old }
    ensures bytes { out.new ≡ bytes_left (length size.old) (arc_left heading.now run.now) out.old }
{
    let room = call_rooms::room_for(size.len(), out.len());
    let w = call_files::write_arc(heading, run, &mut out[..room]);
    call_files::give_written(size, w)
}

fn form_number(is_small: bool) -> u64
    ensures { result ≡ form_number is_small }
{
    if is_small { 1 } else { 0 }
}

// A normal file's numbers of arcs and parameters, the places of its matrix sums, right sides and totals, how many parameters have their sums
// stored, and 1 for the small form, 0 for the old one.
#[unsafe(no_mangle)]
pub extern "C" fn whl_normal_read(file: &[u8], out: &mut [u64]) -> u32
    ensures value { result ≡ result_number (normal_values (read_normal file.now)) (length out.old) }
    ensures left { out.new ≡ result_left (normal_values (read_normal file.now)) out.old }
{
    match norm_read::read(file) {
        Err(fault) => refusal::number(fault.why),
        Ok(r) => call_rooms::give(
            out,
            &[
                r.arcs as u64,
                r.parameters as u64,
                r.matrix as u64,
                r.rights as u64,
                r.totals as u64,
                r.stored as u64,
                form_number(r.is_small),
            ],
        ),
    }
}

// The place of a normal file's refusal; 0 where the file is accepted.
#[unsafe(no_mangle)]
pub extern "C" fn whl_normal_place(file: &[u8]) -> u64
    ensures { result ≡ refusal_place (read_normal file.now) }
{
    call_files::read_place(norm_read::read(file))
}

// ---- taking

// The empty state of a heading.
#[unsafe(no_mangle)]
pub extern "C" fn whl_start(
    heading: &[u8],
    tally: &mut [u8],
    matrix: &mut [i64],
    rights: &mut [i64],
) -> u32
    ensures value { result ≡ start_number heading.now (lent tally.old matrix.old rights.old) }
    ensures left { lent tally.new matrix.new rights.new ≡ start_left heading.now (lent tally.old matrix.old rights.old) }
{
    if call_heading::has_both(heading, tally) {
        let started = take_state::start(call_heading::heading_in(heading), matrix, rights);
        call_files::give_taken(started, tally)
    } else {
        20
    }
}

// A heading and a state judged.
#[unsafe(no_mangle)]
pub extern "C" fn whl_judge(heading: &[u8], tally: &[u8], matrix: &[i64], rights: &[i64]) -> u32
    ensures { result ≡ judge_number heading.now (lent tally.now matrix.now rights.now) }
{
    if call_heading::has_both(heading, tally) {
        let h = call_heading::heading_in(heading);
        let t = call_tally::tally_in(tally);
        match take_state::judge_state(h, t, matrix, rights) {
            Ok(()) => 0,
            Err(e) => refusal::number(e),
        }
    } else {
        20
    }
}

// A record taken into a state.
#[unsafe(no_mangle)]
pub extern "C" fn whl_take(
    heading: &[u8],
    tally: &mut [u8],
    matrix: &mut [i64],
    rights: &mut [i64],
    bytes: &[u8],
) -> u32
    ensures value { result ≡ take_number heading.now bytes.now (lent tally.old matrix.old rights.old) }
    ensures left { lent tally.new matrix.new rights.new ≡ take_left heading.now bytes.now (lent tally.old matrix.old rights.old) }
{
    if call_heading::has_both(heading, tally) {
        let h = call_heading::heading_in(heading);
        let t = call_tally::tally_in(tally);
        call_files::give_taken(take::take(h, t, matrix, rights, bytes), tally)
    } else {
        20
    }
}

// A run of whole records taken into a state, each with its answer.
#[unsafe(no_mangle)]
pub extern "C" fn whl_take_run(
    heading: &[u8],
    tally: &mut [u8],
    matrix: &mut [i64],
    rights: &mut [i64],
    run: &[u8],
    answers: &mut [u8],
) -> u32
    ensures value { result ≡ run_call_number heading.now run.now (length answers.old) (lent tally.old matrix.old rights.old) }
    ensures left { lent tally.new matrix.new rights.new ≡ run_left heading.now run.now (length answers.old) (lent tally.old matrix.old rights.old) }
    ensures told { answers.new ≡ answers_left heading.now run.now answers.old (lent tally.old matrix.old rights.old) }
{
    if call_heading::has_both(heading, tally) {
        let h = call_heading::heading_in(heading);
        let t = call_tally::tally_in(tally);
        let taken = take::take_run(h, t, matrix, rights, run, answers);
        call_files::give_taken(taken, tally)
    } else {
        20
    }
}

// Whether a parameter is seen: 1 or 0.
#[unsafe(no_mangle)]
pub extern "C" fn whl_seen(
    heading: &[u8],
    tally: &[u8],
    matrix: &[i64],
    rights: &[i64],
    parameter: usize,
    out: &mut [u32],
) -> u32
    ensures value { result ≡ result_number (seen_values heading.now (lent tally.now matrix.now rights.now) parameter) (length out.old) }
    ensures left { out.new ≡ result_left (seen_values heading.now (lent tally.now matrix.now rights.now) parameter) out.old }
{
    if call_heading::has_both(heading, tally) {
        let h = call_heading::heading_in(heading);
        let t = call_tally::tally_in(tally);
        call_files::give_sight(out, take_state::seen(h, t, matrix, rights, parameter))
    } else {
        20
    }
}

// How many stations gave an accepted partial other than 0 for a parameter.
#[unsafe(no_mangle)]
pub extern "C" fn whl_carriers(
    heading: &[u8],
    tally: &[u8],
    matrix: &[i64],
    rights: &[i64],
    parameter: usize,
    out: &mut [u32],
) -> u32
    ensures value { result ≡ result_number (carriers_values heading.now (lent tally.now matrix.now rights.now) parameter) (length out.old) }
    ensures left { out.new ≡ result_left (carriers_values heading.now (lent tally.now matrix.now rights.now) parameter) out.old }
{
    if call_heading::has_both(heading, tally) {
        let h = call_heading::heading_in(heading);
        let t = call_tally::tally_in(tally);
        match take_state::carried_by(h, t, matrix, rights, parameter) {
            Ok(n) => call_rooms::give(out, &[n]),
            Err(refusal) => refusal::number(refusal),
        }
    } else {
        20
    }
}

// Whether the station of a row of the heading did: 1 or 0.
#[unsafe(no_mangle)]
pub extern "C" fn whl_carries(
    heading: &[u8],
    tally: &[u8],
    matrix: &[i64],
    rights: &[i64],
    parameter: usize,
    station: usize,
    out: &mut [u32],
) -> u32
    ensures value { result ≡ result_number (carries_values heading.now (lent tally.now matrix.now rights.now) parameter station) (length out.old) }
    ensures left { out.new ≡ result_left (carries_values heading.now (lent tally.now matrix.now rights.now) parameter station) out.old }
{
    if call_heading::has_both(heading, tally) {
        let h = call_heading::heading_in(heading);
        let t = call_tally::tally_in(tally);
        call_files::give_sight(
            out,
            take_state::carries(h, t, matrix, rights, parameter, station),
        )
    } else {
        20
    }
}

// ---- an arc file in parts

// Where a file begins, and the empty state.
#[unsafe(no_mangle)]
pub extern "C" fn whl_begin(
    position: &mut [u8],
    tally: &mut [u8],
    matrix: &mut [i64],
    rights: &mut [i64],
) -> u32
    ensures value { result ≡ begin_call (rooms position.old tally.old matrix.old rights.old) }
    ensures left { rooms position.new tally.new matrix.new rights.new ≡ begin_left (rooms position.old tally.old matrix.old rights.old) }
{
    call_part::begin(position, tally, matrix, rights)
}

// A part handed over: the records that it completes are taken, each with its answer.
#[unsafe(no_mangle)]
pub extern "C" fn whl_part(
    position: &mut [u8],
    tally: &mut [u8],
    matrix: &mut [i64],
    rights: &mut [i64],
    bytes: &[u8],
    answers: &mut [u8],
    out: &mut [u64],
) -> u32
    ensures value { result ≡ told_number (part_call (rooms position.old tally.old matrix.old rights.old) bytes.now (length answers.old) (length out.old)) }
    ensures left { rooms position.new tally.new matrix.new rights.new ≡ part_left (rooms position.old tally.old matrix.old rights.old) bytes.now (length answers.old) (length out.old) }
    ensures answers { answers.new ≡ part_answers_left (rooms position.old tally.old matrix.old rights.old) bytes.now answers.old (length out.old) }
    ensures told { out.new ≡ told_out (part_call (rooms position.old tally.old matrix.old rights.old) bytes.now (length answers.old) (length out.old)) out.old }
{
    call_part::part(position, tally, matrix, rights, bytes, answers, out)
}

// The file is over.
#[unsafe(no_mangle)]
pub extern "C" fn whl_finish(position: &mut [u8], out: &mut [u64]) -> u32
    ensures value { result ≡ told_number (finish_call position.old (length out.old)) }
    ensures left { position.new ≡ finish_left position.old (length out.old) }
    ensures told { out.new ≡ told_out (finish_call position.old (length out.old)) out.old }
{
    call_part::finish(position, out)
}

// The heading of what was handed over.
#[unsafe(no_mangle)]
pub extern "C" fn whl_position_heading(position: &[u8], heading: &mut [u8], out: &mut [u64]) -> u32
    ensures value { result ≡ told_number (head_call position.now (length heading.old) (length out.old)) }
    ensures heading { heading.new ≡ head_left position.now heading.old (length out.old) }
    ensures told { out.new ≡ told_out (head_call position.now (length heading.old) (length out.old)) out.old }
{
    call_part::heading(position, heading, out)
}

// ---- normal files, from and into lent room

// A normal file's values put into three rooms.
#[unsafe(no_mangle)]
pub extern "C" fn whl_normal_unpack(
    file: &[u8],
    heads: &mut [u64],
    matrix: &mut [i64],
    rights: &mut [i64],
) -> u32
    ensures value { result ≡ judged_number (unpack_normal file.now (length heads.old) (length matrix.old) (length rights.old)) }
    ensures heads { heads.new ≡ filled heads_of (unpack_normal file.now (length heads.old) (length matrix.old) (length rights.old)) heads.old }
    ensures matrix { matrix.new ≡ filled matrix_of (unpack_normal file.now (length heads.old) (length matrix.old) (length rights.old)) matrix.old }
    ensures rights { rights.new ≡ filled rights_of (unpack_normal file.now (length heads.old) (length matrix.old) (length rights.old)) rights.old }
{
    call_files::read_number(norm_unpack::unpack(file, heads, matrix, rights))
}

// The normal file of a system in three rooms.
#[unsafe(no_mangle)]
pub extern "C" fn whl_normal_write(
    arcs: usize,
    parameters: usize,
    heads: &[u64],
    matrix: &[i64],
    rights: &[i64],
    out: &mut [u8],
    size: &mut [u64],
) -> u32
    ensures value { result ≡ result_number (told_values one (write_normal arcs parameters heads.now matrix.now rights.now (room_for (length size.old) (length out.old)))) (length size.old) }
    ensures size { size.new ≡ result_left (told_values one (write_normal arcs parameters heads.now matrix.now rights.now (room_for (length size.old) (length out.old)))) size.old }
    ensures bytes { out.new ≡ bytes_left (length size.old) (normal_left_in arcs parameters heads.now matrix.now rights.now) out.old }
{
    let room = call_rooms::room_for(size.len(), out.len());
    let w = norm_write::write(arcs, parameters, heads, matrix, rights, &mut out[..room]);
    call_files::give_written(size, w)
}

// What is wrong with a heading and a tally in lent bytes that are to be written from, before any sum is looked at; 0 where nothing is.
fn judge_headed(heading: &[u8], tally: &[u8]) -> u32
    ensures { result ≡ headed_number heading.now tally.now }
{
    let k = call_heading::judge_head(heading);
    if k == 0 {
        match arc_heading::judge(call_heading::heading_in(heading)) {
            Err(e) => refusal::number(e),
            Ok(()) => if call_tally::has_tally(tally) { 0 } else { 20 },
        }
    } else {
        k
    }
}

// The normal file of a state.
#[unsafe(no_mangle)]
pub extern "C" fn whl_of_state(
    heading: &[u8],
    tally: &[u8],
    matrix: &[i64],
    rights: &[i64],
    out: &mut [u8],
    size: &mut [u64],
) -> u32
    ensures value { result ≡ result_number (told_values one (state_file heading.now (lent tally.now matrix.now rights.now) (room_for (length size.old) (length out.old)))) (length size.old) }
    ensures size { size.new ≡ result_left (told_values one (state_file heading.now (lent tally.now matrix.now rights.now) (room_for (length size.old) (length out.old)))) size.old }
    ensures bytes { out.new ≡ bytes_left (length size.old) (state_file_left heading.now (lent tally.now matrix.now rights.now)) out.old }
{
    let k = judge_headed(heading, tally);
    if k == 0 {
        let h = call_heading::heading_in(heading);
        let t = call_tally::tally_in(tally);
        let room = call_rooms::room_for(size.len(), out.len());
        let w = norm_state::of_state(h, t, matrix, rights, &mut out[..room]);
        call_files::give_written(size, w)
    } else {
        k
    }
}

// A normal file moved to the small form.
#[unsafe(no_mangle)]
pub extern "C" fn whl_normal_small(file: &[u8], out: &mut [u8], size: &mut [u64]) -> u32
    ensures value { result ≡ result_number (told_values one (move_call_number (move_answer true file.now (room_for (length size.old) (length out.old))))) (length size.old) }
    ensures size { size.new ≡ result_left (told_values one (move_call_number (move_answer true file.now (room_for (length size.old) (length out.old))))) size.old }
    ensures bytes { out.new ≡ bytes_left (length size.old) (move_left true file.now) out.old }
{
    let room = call_rooms::room_for(size.len(), out.len());
    let w = norm_move::small(file, &mut out[..room]);
    call_files::give_moved(size, w)
}

// A normal file moved to the old form.
#[unsafe(no_mangle)]
pub extern "C" fn whl_normal_old(file: &[u8], out: &mut [u8], size: &mut [u64]) -> u32
    ensures value { result ≡ result_number (told_values one (move_call_number (move_answer false file.now (room_for (length size.old) (length out.old))))) (length size.old) }
    ensures size { size.new ≡ result_left (told_values one (move_call_number (move_answer false file.now (room_for (length size.old) (length out.old))))) size.old }
    ensures bytes { out.new ≡ bytes_left (length size.old) (move_left false file.now) out.old }
{
    let room = call_rooms::room_for(size.len(), out.len());
    let w = norm_move::old(file, &mut out[..room]);
    call_files::give_moved(size, w)
}

// Two normal files merged: a file's own refusal plus 100 for the first, plus 200 for the second.
#[unsafe(no_mangle)]
pub extern "C" fn whl_merge(first: &[u8], second: &[u8], out: &mut [u8], size: &mut [u64]) -> u32
    ensures value { result ≡ result_number (told_values one (merge_call_number (merge_answer first.now second.now (room_for (length size.old) (length out.old))))) (length size.old) }
    ensures size { size.new ≡ result_left (told_values one (merge_call_number (merge_answer first.now second.now (room_for (length size.old) (length out.old))))) size.old }
    ensures bytes { out.new ≡ bytes_left (length size.old) (merge_left first.now second.now) out.old }
{
    let room = call_rooms::room_for(size.len(), out.len());
    let w = merge::merge(first, second, &mut out[..room]);
    call_files::give_merged(size, w)
}

// ---- the listing

// The text that the arc program prints of a file.
#[unsafe(no_mangle)]
pub extern "C" fn whl_list(file: &[u8], out: &mut [u8], size: &mut [u64]) -> u32
    ensures value { result ≡ result_number (told_values one (list_answer file.now (room_for (length size.old) (length out.old)))) (length size.old) }
    ensures size { size.new ≡ result_left (told_values one (list_answer file.now (room_for (length size.old) (length out.old)))) size.old }
    ensures bytes { out.new ≡ bytes_left (length size.old) (list_left file.now) out.old }
{
    let room = call_rooms::room_for(size.len(), out.len());
    let w = list::list(file, &mut out[..room]);
    call_files::give_written(size, w)
}
