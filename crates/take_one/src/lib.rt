// Inner to `take`: one record taken into sums of just its parameters.
#![tactic(auto)]

ghost use Rattle.std.specs.Prelude.{◌≡◌, length};
ghost use Rattle.refusal.specs.First.{answered, value_or, verdict_of};
ghost use Rattle.refusal.specs.Told.{told};
ghost use Rattle.take_state.specs.State.{state_of};
ghost use Rattle.take_laws.specs.Taking.{frame, record_answer, record_step};
ghost use Rattle.take_steps.specs.Runs.{Prepared};

use arc_limits::Settings;
use refusal::Refusal;
use take_tally::Tally;

// A record taken into sums of just its parameters, the heading and the state found sound.
pub fn take_record(
    settings: Settings,
    numbers: &[u16],
    corrections: &[i32],
    t: Tally,
    matrix: &mut [i64],
    rights: &mut [i64],
    room: &mut [i16],
    bytes: &[u8],
) -> Result<Tally, Refusal>
    requires { Prepared settings numbers.now corrections.now (state_of matrix.old rights.old t) × (length room.old ≡ length rights.old) }
    ensures answer_value { verdict_of (told result) ≡ answered (record_answer (frame settings (length rights.old) numbers.now corrections.now) bytes.now (state_of matrix.old rights.old t)) tt }
    ensures state { state_of matrix.new rights.new (value_or t (told result)) ≡ record_step (frame settings (length rights.old) numbers.now corrections.now) bytes.now (state_of matrix.old rights.old t) }
{
    let mut after = t;
    take_steps::take_in(
        settings,
        numbers,
        corrections,
        &mut after,
        matrix,
        rights,
        room,
        bytes,
    )?;
    Ok(after)
}
