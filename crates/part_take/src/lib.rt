// The records that a part of an arc file completes, taken, and where the part leads once the file is opened.
#![tactic(auto)]

ghost use Rattle.std.specs.Prelude.{◌≡◌, ◌∷◌, ◌+◌, ◌*◌, ◌≤◌, length};
ghost use Rattle.num_limits.specs.Capacities.{parameters_most, records_most};
ghost use Rattle.byte_words.specs.Words.{lay};
ghost use Rattle.arc_kinds.specs.Kinds.{record_size};
ghost use Rattle.take_state.specs.State.{state_of, state_number};
ghost use Rattle.take_laws.specs.Machine as machine;
ghost use Rattle.take_laws.specs.Taking.{frame_of, record_answer, record_step, cut};
ghost use Rattle.part_laws.specs.Beginning.{size_of, done, left, read_at};
ghost use Rattle.part_laws.specs.Feeding.{so_far, moved};
ghost use Rattle.part_laws.specs.Entries.{opened_most, held_of, told_part, told_form};
ghost use Rattle.part_take.specs.Ready.{beginning, Ready};

use arc_heading::Heading;
use arc_read::ArcRead;
use num_limits::{PARTIAL_SIZE, RECORD_FIXED};
use part_laws::{Finished, PartRefusal, Position};
use part_place::Front;
use refusal::{Fault, Refusal};
use take_tally::Tally;

// A record, and n others after it, taken into a state that is found sound.
fn take_records(
    h: Heading,
    t: Tally,
    matrix: &mut [i64],
    rights: &mut [i64],
    one: &[u8],
    run: &[u8],
    n: usize,
    answers: &mut [u8],
) -> Tally
    requires t_value { state_number h (state_of matrix.old rights.old t) ≡ 0 }
    requires one_len { (length one.now ≡ record_size h.parameters) × (length run.now ≡ n * record_size h.parameters) × (n + 1 ≤ length answers.old) }
    ensures state { state_of matrix.new rights.new result ≡ machine.run (record_step (frame_of h)) (state_of matrix.old rights.old t) (one.now ∷ cut (record_size h.parameters) n run.now) }
    ensures told { answers.new ≡ lay answers.old 0 (machine.answers (record_step (frame_of h)) (record_answer (frame_of h)) (state_of matrix.old rights.old t) (one.now ∷ cut (record_size h.parameters) n run.now)) }
{
    let u = take_lent::run_sound(h, t, matrix, rights, one, &mut answers[..1]);
    take_lent::run_sound(h, u, matrix, rights, run, &mut answers[1..])
}

// The records that a part completes, taken: the first of them out of the front, the others out of the part.
pub fn take_done(
    a: ArcRead,
    f: Front,
    taken: usize,
    n: usize,
    t: Tally,
    matrix: &mut [i64],
    rights: &mut [i64],
    bytes: &[u8],
    answers: &mut [u8],
) -> Tally
    requires t_value { state_number a.heading (state_of matrix.old rights.old t) ≡ 0 }
    requires ready { Ready a f taken n bytes.now }
    requires n_in_bounds { n ≤ length answers.old }
    ensures state { state_of matrix.new rights.new result ≡ machine.run (record_step (frame_of a.heading)) (state_of matrix.old rights.old t) (done taken (beginning f bytes.now)) }
    ensures told { answers.new ≡ lay answers.old 0 (machine.answers (record_step (frame_of a.heading)) (record_answer (frame_of a.heading)) (state_of matrix.old rights.old t) (done taken (beginning f bytes.now))) }
{
    if n == 0 {
        return t;
    }
    let size = RECORD_FIXED + PARTIAL_SIZE * a.heading.parameters;
    let end = a.start + size;
    let from = end - f.held;
    let others = n - 1;
    take_records(
        a.heading,
        t,
        matrix,
        rights,
        &f.room[a.start..end],
        &bytes[from..from + others * size],
        others,
        answers,
    )
}

// Where a part leads once the file is opened: 3 where bytes follow the last record, else what is left of it.
pub fn moved_on(a: ArcRead, f: Front, taken: usize, n: usize, bytes: &[u8]) -> Finished
    requires ready { Ready a f taken n bytes.now }
    requires fits { (a.heading.parameters ≤ parameters_most) × (a.count ≤ records_most) × (taken ≤ a.count) × (a.start ≤ opened_most) × (a.start + n * size_of a ≤ f.held + length bytes.now) }
    ensures answer_value { told_part result.answer ≡ told_form (so_far (read_at taken (beginning f bytes.now))) n (taken + n) }
    ensures position { result.position ≡ held_of (moved (so_far (read_at taken (beginning f bytes.now))) (taken + n) (left taken (beginning f bytes.now))) }
{
    let size = RECORD_FIXED + PARTIAL_SIZE * a.heading.parameters;
    let end = a.start + a.count * size;
    let total = f.held + bytes.len();
    let all = taken + n;
    if end < total + taken * size {
        let fault = Fault {
            why: Refusal::Surplus,
            place: end,
        };
        return Finished {
            answer: Err(PartRefusal::Broken(fault, all)),
            position: part_place::ended(all),
        };
    }
    if n == 0 {
        return Finished {
            answer: Ok(0),
            position: Position {
                kept: f.room,
                length: total,
                taken: all,
                over: false,
            },
        };
    }
    let upto = a.start + n * size - f.held;
    let rest = &bytes[upto..];
    Finished {
        answer: Ok(n),
        position: Position {
            kept: part_place::keep(&f.room[..a.start], rest),
            length: a.start + rest.len(),
            taken: all,
            over: false,
        },
    }
}
