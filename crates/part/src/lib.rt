// An arc file handed over in parts, cut anywhere: begin, a part, finish, and the heading of what was handed over so far.
#![tactic(auto)]

ghost use Rattle.std.specs.Prelude.{◌≡◌, ◌≤◌, length};
ghost use Rattle.num_whole.specs.Tests.{both};
ghost use Rattle.num_whole.specs.Answer.{bad};
ghost use Rattle.num_packed.specs.Triangle.{tri};
ghost use Rattle.refusal.specs.First.{answered, verdict_of};
ghost use Rattle.refusal.specs.Number.{number_of};
ghost use Rattle.refusal.specs.Told.{told};
ghost use Rattle.arc_read.specs.Arc.{Arc};
ghost use Rattle.take_state.specs.State.{state_of};
ghost use Rattle.part_laws.specs.Feeding.{begun, so_far};
ghost use Rattle.part_laws.specs.Entries.{
  position_of,
  held_of,
  fair,
  sound_at,
  parameters_in,
  stopped,
  told_part,
  told_form,
  begin_number,
  begin_state,
  part_told,
  part_position,
  part_state,
  part_answers,
  finish_told,
  finish_position,
  heading_told,
  heading_given,
};
ghost use Rattle.part.specs.Given.{tally_of, begun_at, told_heading, heading_of};
ghost use Rattle.part.specs.Going.{Going, grown};

use arc_heading::Heading;
use arc_read::ArcRead;
use num_limits::PARAMETERS_MOST;
use part_laws::{Finished, PartRefusal, Position};
use part_place::Front;
use refusal::{Fault, Refusal};
use take_tally::Tally;

// ---- begin

// Where a file begins, and an empty state.
#[derive(Clone, Copy)]
pub struct Begun {
    pub position: Position,
    pub tally: Tally,
}

// Where a file begins, with an empty state: 20 where the room for fifty parameters is short, else the sums are cleared.
pub fn begin(matrix: &mut [i64], rights: &mut [i64]) -> Result<Begun, Refusal>
    ensures answer_value { verdict_of (told result) ≡ answered (begin_number matrix.old rights.old) tt }
    ensures position { begun_at result ≡ held_of begun }
    ensures state { state_of matrix.new rights.new (tally_of result) ≡ begin_state matrix.old rights.old }
{
    if !take_room::is_roomy(PARAMETERS_MOST, matrix, rights) {
        return Err(Refusal::Room);
    }
    let sums = num_packed::triangle(PARAMETERS_MOST);
    take_room::clear(matrix, sums);
    take_room::clear(rights, PARAMETERS_MOST);
    Ok(Begun {
        position: part_place::begun(),
        tally: take_tally::no_tally(),
    })
}

// ---- a part

#[derive(Clone, Copy)]
pub struct Parted {
    pub answer: Result<usize, PartRefusal>,
    pub position: Position,
    pub tally: Tally,
}

// Nothing changes.
fn stopped(r: Refusal, p: Position, t: Tally) -> Parted
    ensures { (told_part result.answer ≡ stopped (number_of r)) × (result.position ≡ p) × (result.tally ≡ t) }
{
    Parted {
        answer: Err(PartRefusal::Stopped(r)),
        position: p,
        tally: t,
    }
}

// A part of a file that it does not open: what is kept grows, or a refusal in its form closes it.
fn unopened(fault: Fault, f: Front, taken: usize) -> Finished
    ensures answer_value { told_part result.answer ≡ told_form (so_far {A = Arc} (bad (number_of fault.why) fault.place)) 0 taken }
    ensures position { result.position ≡ grown (so_far {A = Arc} (bad (number_of fault.why) fault.place)) f taken }
{
    if refusal::number(fault.why) == 1 {
        let kept = f.room;
        Finished {
            answer: Ok(0),
            position: Position {
                kept,
                length: f.length,
                taken,
                over: false,
            },
        }
    } else {
        Finished {
            answer: Err(PartRefusal::Broken(fault, taken)),
            position: part_place::ended(taken),
        }
    }
}

// A part that nothing but the file's form refuses.
fn go_on(
    p: Position,
    new: Result<ArcRead, Fault>,
    f: Front,
    n: usize,
    t: Tally,
    matrix: &mut [i64],
    rights: &mut [i64],
    bytes: &[u8],
    answers: &mut [u8],
) -> Parted
    requires { Going p (state_of matrix.old rights.old t) bytes.now (length answers.old) new f n }
    ensures answer_value { told_part result.answer ≡ part_told p (state_of matrix.old rights.old t) bytes.now (length answers.old) }
    ensures position { result.position ≡ part_position p (state_of matrix.old rights.old t) bytes.now (length answers.old) }
    ensures state { state_of matrix.new rights.new result.tally ≡ part_state p (state_of matrix.old rights.old t) bytes.now (length answers.old) }
    ensures told { answers.new ≡ part_answers p (state_of matrix.old rights.old t) bytes.now answers.old }
{
    match new {
        Ok(a) => {
            let tally = part_take::take_done(a, f, p.taken, n, t, matrix, rights, bytes, answers);
            let Finished { answer, position } = part_take::moved_on(a, f, p.taken, n, bytes);
            Parted {
                answer,
                position,
                tally,
            }
        }
        Err(fault) => {
            let Finished { answer, position } = unopened(fault, f, p.taken);
            Parted {
                answer,
                position,
                tally: t,
            }
        }
    }
}

// Whether the position and the state at it are such as the entries give.
fn is_given(p: Position, parameters: usize, t: Tally, matrix: &[i64], rights: &[i64]) -> bool
    requires { (parameters ≡ parameters_in (position_of p).kept) × (tri parameters ≤ length matrix.now) × (parameters ≤ length rights.now) }
    ensures { result ≡ both (fair p) (sound_at (position_of p) (state_of matrix.now rights.now t)) }
{
    let old = part_place::open_at(p);
    part_place::is_fair(p, old)
        && part_place::is_sound_at(old, parameters, p.taken, t, matrix, rights)
}

// A part handed over: 28, 20, 6, a refusal in the file's form, or the records that it completes are taken.
pub fn part(
    p: Position,
    t: Tally,
    matrix: &mut [i64],
    rights: &mut [i64],
    bytes: &[u8],
    answers: &mut [u8],
) -> Parted
    ensures answer_value { told_part result.answer ≡ part_told p (state_of matrix.old rights.old t) bytes.now (length answers.old) }
    ensures position { result.position ≡ part_position p (state_of matrix.old rights.old t) bytes.now (length answers.old) }
    ensures state { state_of matrix.new rights.new result.tally ≡ part_state p (state_of matrix.old rights.old t) bytes.now (length answers.old) }
    ensures told { answers.new ≡ part_answers p (state_of matrix.old rights.old t) bytes.now answers.old }
{
    if p.over {
        return stopped(Refusal::Closed, p, t);
    }
    let parameters = part_place::parameters_at(p);
    if !take_room::is_roomy(parameters, matrix, rights) {
        return stopped(Refusal::Room, p, t);
    }
    let f = part_place::front_of(p, bytes);
    let new = part_open::open(&f.room[..f.length]);
    let n = part_place::completed(new, p.taken, f.held + bytes.len());
    if answers.len() < n {
        return stopped(Refusal::Room, p, t);
    }
    if !is_given(p, parameters, t, matrix, rights) {
        return stopped(Refusal::Unsound, p, t);
    }
    go_on(p, new, f, n, t, matrix, rights, bytes, answers)
}

// ---- finish

// The file is over: 28, 6, 1 where something is missing, or nothing is wrong.
pub fn finish(p: Position) -> Finished
    ensures answer_value { told_part result.answer ≡ finish_told p }
    ensures position { result.position ≡ finish_position p }
{
    if p.over {
        return Finished {
            answer: Err(PartRefusal::Stopped(Refusal::Closed)),
            position: p,
        };
    }
    let old = part_place::open_at(p);
    if !part_place::is_fair(p, old) {
        return Finished {
            answer: Err(PartRefusal::Stopped(Refusal::Unsound)),
            position: p,
        };
    }
    part_place::end_of(p, old)
}

// ---- the heading

// The heading of what was handed over: 6, or 1 where it is not complete yet.
pub fn heading(p: Position) -> Result<Heading, PartRefusal>
    ensures answer_value { told_heading result ≡ heading_told p }
    ensures heading { heading_of result ≡ heading_given p }
{
    let old = part_place::open_at(p);
    if !part_place::is_fair(p, old) {
        return Err(PartRefusal::Stopped(Refusal::Unsound));
    }
    match old {
        Ok(a) => Ok(a.heading),
        Err(fault) => Err(PartRefusal::Broken(fault, p.taken)),
    }
}
