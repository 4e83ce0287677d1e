// Inner to the taking: a run taken into lent sums, the heading, the state and the run found sound.
#![tactic(auto)]

ghost use Rattle.std.specs.Prelude.{◌≡◌, length};
ghost use Rattle.arc_heading.specs.Judge.{numbers_of};
ghost use Rattle.take_state.specs.State.{state_of};
ghost use Rattle.take_laws.specs.Taking.{corrections_of, run_number, run_state, run_answers};

use arc_heading::Heading;
use num_limits::{PARAMETERS_MOST, STATIONS_MOST};
use take_tally::Tally;

// The numbers of the listed stations, in the order of the heading.
pub fn numbers_of(h: Heading) -> [u16; STATIONS_MOST]
    ensures { result ≡ numbers_of h.listed }
{
    h.listed.map(|t| t.number)
}

// Their corrections.
pub fn corrections_of(h: Heading) -> [i32; STATIONS_MOST]
    ensures { result ≡ corrections_of h.listed }
{
    h.listed.map(|t| t.correction)
}

// A run taken, the heading, the state and the run found sound.
pub fn run_sound(
    h: Heading,
    t: Tally,
    matrix: &mut [i64],
    rights: &mut [i64],
    run: &[u8],
    out: &mut [u8],
) -> Tally
    requires { run_number h run.now (length out.old) (state_of matrix.old rights.old t) ≡ 0 }
    ensures state { state_of matrix.new rights.new result ≡ run_state h run.now (length out.old) (state_of matrix.old rights.old t) }
    ensures told { out.new ≡ run_answers h run.now out.old (state_of matrix.old rights.old t) }
{
    let p = h.parameters;
    let n = h.stations;
    let k = num_packed::triangle(p);
    let numbers = numbers_of(h);
    let corrections = corrections_of(h);
    let mut room: [i16; PARAMETERS_MOST] = [0; PARAMETERS_MOST];
    take_steps::take_all(
        h.settings,
        &numbers[..n],
        &corrections[..n],
        t,
        &mut matrix[..k],
        &mut rights[..p],
        &mut room[..p],
        run,
        out,
    )
}
