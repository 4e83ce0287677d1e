// Taking records: one record, or a run of them, into the state of an arc.
#![tactic(auto)]

ghost use Rattle.std.specs.Prelude.{◌≡◌, ◌*◌, ◌/◌, ◌<◌, length};
ghost use Rattle.refusal.specs.First.{answered, value_or, verdict_of};
ghost use Rattle.refusal.specs.Told.{told};
ghost use Rattle.take_state.specs.State.{state_of, state_number};
ghost use Rattle.take_laws.specs.Taking.{frame_of, record_answer, record_step, take_answer, take_step, run_number, run_state, run_answers};

use arc_heading::Heading;
use num_limits::{PARAMETERS_MOST, PARTIAL_SIZE, RECORD_FIXED};
use refusal::Refusal;
use take_tally::Tally;

// A record taken, the heading and the state found sound.
fn take_sound(
    h: Heading,
    t: Tally,
    matrix: &mut [i64],
    rights: &mut [i64],
    bytes: &[u8],
) -> Result<Tally, Refusal>
    requires { state_number h (state_of matrix.old rights.old t) ≡ 0 }
    ensures answer_value { verdict_of (told result) ≡ answered (record_answer (frame_of h) bytes.now (state_of matrix.old rights.old t)) tt }
    ensures state { state_of matrix.new rights.new (value_or t (told result)) ≡ record_step (frame_of h) bytes.now (state_of matrix.old rights.old t) }
{
    let p = h.parameters;
    let n = h.stations;
    let k = num_packed::triangle(p);
    let numbers = take_lent::numbers_of(h);
    let corrections = take_lent::corrections_of(h);
    let mut room: [i16; PARAMETERS_MOST] = [0; PARAMETERS_MOST];
    take_one::take_record(
        h.settings,
        &numbers[..n],
        &corrections[..n],
        t,
        &mut matrix[..k],
        &mut rights[..p],
        &mut room[..p],
        bytes,
    )
}

// A record taken into a state: 20, 2, 4, 5, 6, 1, 3, 10 to 19, or accepted.
pub fn take(
    h: Heading,
    t: Tally,
    matrix: &mut [i64],
    rights: &mut [i64],
    bytes: &[u8],
) -> Result<Tally, Refusal>
    ensures answer_value { verdict_of (told result) ≡ answered (take_answer h bytes.now (state_of matrix.old rights.old t)) tt }
    ensures state { state_of matrix.new rights.new (value_or t (told result)) ≡ take_step h bytes.now (state_of matrix.old rights.old t) }
{
    take_state::judge_state(h, t, matrix, rights)?;
    take_sound(h, t, matrix, rights, bytes)
}

// 20 where the room for the answers is short, else what the state's judge says, else 1 where the run ends inside a record.
fn judge_run(
    h: Heading,
    t: Tally,
    matrix: &[i64],
    rights: &[i64],
    run: &[u8],
    answers: usize,
) -> Result<(), Refusal>
    ensures { told result ≡ answered (run_number h run.now answers (state_of matrix.now rights.now t)) tt }
{
    let size = RECORD_FIXED + PARTIAL_SIZE * num_whole::least(h.parameters, PARAMETERS_MOST);
    let n = run.len() / size;
    if answers < n {
        return Err(Refusal::Room);
    }
    take_state::judge_state(h, t, matrix, rights)?;
    if n * size == run.len() {
        Ok(())
    } else {
        Err(Refusal::Short)
    }
}

// A run of whole records taken into a state, each with its answer written, one element a record: 0, or the number of its refusal.
pub fn take_run(
    h: Heading,
    t: Tally,
    matrix: &mut [i64],
    rights: &mut [i64],
    run: &[u8],
    answers: &mut [u8],
) -> Result<Tally, Refusal>
    ensures answer_value { verdict_of (told result) ≡ answered (run_number h run.now (length answers.old) (state_of matrix.old rights.old t)) tt }
    ensures state { state_of matrix.new rights.new (value_or t (told result)) ≡ run_state h run.now (length answers.old) (state_of matrix.old rights.old t) }
    ensures told { answers.new ≡ run_answers h run.now answers.old (state_of matrix.old rights.old t) }
{
    judge_run(h, t, matrix, rights, run, answers.len())?;
    Ok(take_lent::run_sound(h, t, matrix, rights, run, answers))
}
