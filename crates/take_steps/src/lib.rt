// A run of records taken, the heading and the state found sound: each judged, its terms added, its answer written.
#![tactic(auto)]

ghost use Rattle.std.specs.Prelude.{◌≡◌, ◌*◌, ◌/◌, ◌≤◌, ◌<◌, ◌^◌, pos, nat_abs, length, get_or};
ghost use Rattle.num_limits.specs.Capacities.{parameters_most, stations_most, weight_top};
ghost use Rattle.take_marks.specs.Marks.{marks_with};
ghost use Rattle.num_whole.specs.Sums.{plus, Within};
ghost use Rattle.refusal.specs.First.{answered, number_in};
ghost use Rattle.refusal.specs.Told.{told};
ghost use Rattle.byte_words.specs.Words.{lay};
ghost use Rattle.arc_kinds.specs.Kinds.{record_size};
ghost use Rattle.num_packed.specs.Triangle.{times, triangle_terms, tri};
ghost use Rattle.arc_record.specs.Record.{partials_in};
ghost use Rattle.take_state.specs.State.{state_of};
ghost use Rattle.take_laws.specs.Taking.{frame, record_answer, record_step};
ghost use Rattle.take_steps.specs.Runs.{Prepared, run_by, answers_by};

use arc_limits::Settings;
use num_limits::{PARTIAL_SIZE, RECORD_FIXED};
use refusal::Refusal;
use take_tally::Tally;

// An answer in a byte: 0, or the number of its refusal.
fn code(answer: Result<(), Refusal>) -> u8
    ensures { result ≡ number_in (told answer) }
{
    match answer {
        Ok(()) => 0,
        Err(e) => refusal::number(e) as u8,
    }
}

// Adds the terms of a record to the sums: w times the products of its partials, and typeof.w.R times each; and its station's marks. The partials are
// laid out in `room`.
pub fn add_record(
    matrix: &mut [i64],
    rights: &mut [i64],
    room: &mut [i16],
    bytes: &[u8],
    weight: u32,
    side: i64,
    marks: &mut [u16],
    row: u16,
)
    requires rights_len_bound { (length rights.old ≤ parameters_most) × (length matrix.old ≡ tri (length rights.old)) × (length room.old ≡ length rights.old) }
    requires weight_le_weight_top { (weight ≤ weight_top) × (nat_abs side ≤ 2 ^ 31) × (length marks.old ≡ parameters_most) × (row < stations_most) }
    requires within { Within (2 ^ 62) matrix.old × Within (2 ^ 62) rights.old }
    ensures matrix { matrix.new ≡ plus matrix.old (triangle_terms (pos weight) (partials_in (length rights.old) bytes.now)) }
    ensures rights { rights.new ≡ plus rights.old (times side (partials_in (length rights.old) bytes.now)) }
    ensures marks { marks.new ≡ marks_with row (partials_in (length rights.old) bytes.now) marks.old }
{
    arc_record::partials(bytes, room);
    take_add::add_matrix(matrix, room, weight, marks, row);
    take_add::add_times(rights, side, room);
}

// A record taken into sums of just its parameters: 1, 3, 10 to 19, or accepted.
pub fn take_in(
    settings: Settings,
    numbers: &[u16],
    corrections: &[i32],
    t: &mut Tally,
    matrix: &mut [i64],
    rights: &mut [i64],
    room: &mut [i16],
    bytes: &[u8],
) -> Result<(), Refusal>
    requires { Prepared settings numbers.now corrections.now (state_of matrix.old rights.old t.old) × (length room.old ≡ length rights.old) }
    ensures answer_value { told result ≡ answered (record_answer (frame settings (length rights.old) numbers.now corrections.now) bytes.now (state_of matrix.old rights.old t.old)) tt }
    ensures state { state_of matrix.new rights.new t.new ≡ record_step (frame settings (length rights.old) numbers.now corrections.now) bytes.now (state_of matrix.old rights.old t.old) }
{
    let x = take_fit::fits(settings, rights.len(), numbers, corrections, bytes)?;
    let last = t.rows[x.place].times[x.column];
    let count = t.counts[x.place];
    let y = match take_judge::judge(settings.level, x, last, count) {
        Ok(y) => y,
        Err(late) => return Err(late),
    };
    add_record(
        matrix,
        rights,
        room,
        bytes,
        y.weight,
        y.side,
        &mut t.marks,
        x.place as u16,
    );
    t.square += y.square;
    t.counts[x.place] = count + 1;
    t.rows[x.place].times[x.column] = x.time;
    Ok(())
}

// The whole records of a run taken one after another, each with its answer written: 0, or the number of its refusal.
pub fn take_all(
    settings: Settings,
    numbers: &[u16],
    corrections: &[i32],
    t: Tally,
    matrix: &mut [i64],
    rights: &mut [i64],
    room: &mut [i16],
    run: &[u8],
    out: &mut [u8],
) -> Tally
    requires prepared { Prepared settings numbers.now corrections.now (state_of matrix.old rights.old t) × (length room.old ≡ length rights.old) }
    requires rights_in_bounds { length run.now / record_size (length rights.old) ≤ length out.old }
    ensures state { state_of matrix.new rights.new result ≡ run_by (frame settings (length rights.old) numbers.now corrections.now) (state_of matrix.old rights.old t) run.now }
    ensures told { out.new ≡ lay out.old 0 (answers_by (frame settings (length rights.old) numbers.now corrections.now) (state_of matrix.old rights.old t) run.now) }
{
    let size = RECORD_FIXED + PARTIAL_SIZE * rights.len();
    let mut u = t;
    let mut at: usize = 0;
    for i in 0..run.len() / size {
        let e = at + size;
        let bytes = &run[at..e];
        out[i] = code(take_in(
            settings,
            numbers,
            corrections,
            &mut u,
            matrix,
            rights,
            room,
            bytes,
        ));
        at = e;
    }
    u
}
