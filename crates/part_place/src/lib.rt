// A position in an arc file that is handed over in parts: made, put together with a part, and judged with the state at it.
#![tactic(auto)]

ghost use Rattle.std.specs.Prelude.{◌≡◌, true, false, ◌++◌, ◌+◌, ◌≤◌, length, IfOk};
ghost use Rattle.num_whole.specs.Tests.{less, pick, both, same};
ghost use Rattle.num_whole.specs.Lists.{padded};
ghost use Rattle.num_limits.specs.Capacities.{parameters_most};
ghost use Rattle.num_packed.specs.Triangle.{tri};
ghost use Rattle.refusal.specs.Number.{number_of};
ghost use Rattle.refusal.specs.Told.{told_placed};
ghost use Rattle.take_state.specs.State.{state_of, sums_sound, sound_state};
ghost use Rattle.part_laws.specs.Beginning.{read_at};
ghost use Rattle.part_laws.specs.Feeding.{ended, begun, closing};
ghost use Rattle.part_laws.specs.Entries.{record_size_most, position_most, position_of, held_of, tidy, fair, parameters_in, placed_by, ends_by, sound_by, told_part, told_end};
ghost use Rattle.part_place.specs.Looks.{completed_by, OpensAt, FrontOf, RoomAt};

use arc_read::ArcRead;
use num_limits::{PARAMETERS_MOST, PARAMETERS_U32, PARTIAL_SIZE, RECORD_FIXED, RECORDS_MOST};
use part_laws::{Finished, POSITION_MOST, PartRefusal, Position};
use refusal::{Fault, Refusal};
use take_tally::Tally;

// ---- positions

// Where a file begins.
pub fn begun() -> Position
    ensures { result ≡ held_of begun }
{
    Position {
        kept: [0; POSITION_MOST],
        length: 0,
        taken: 0,
        over: false,
    }
}

// Where a refusal in the file's form leads.
pub fn ended(taken: usize) -> Position
    ensures { result ≡ held_of (ended taken) }
{
    Position {
        kept: [0; POSITION_MOST],
        length: 0,
        taken,
        over: true,
    }
}

// Bytes and others after them, with zeros to the end of the room.
pub fn keep(first: &[u8], others: &[u8]) -> [u8; POSITION_MOST]
    requires { length first.now + length others.now ≤ position_most }
    ensures { result ≡ padded position_most 0 (first.now ++ others.now) }
{
    let mut a = [0; POSITION_MOST];
    arc_fields::put_run(first, &mut a, 0);
    arc_fields::put_run(others, &mut a, first.len());
    a
}

// What opens the file, by a position's bytes.
pub fn open_at(p: Position) -> Result<ArcRead, Fault>
    ensures { OpensAt p result }
{
    let kept = p.kept;
    let len = num_whole::least(p.length, POSITION_MOST);
    part_open::open(&kept[..len])
}

// The first bytes of what is kept and handed over, how many they are, and how many of them were kept.
#[derive(Clone, Copy)]
pub struct Front {
    pub room: [u8; POSITION_MOST],
    pub length: usize,
    pub held: usize,
}

pub fn front_of(p: Position, bytes: &[u8]) -> Front
    ensures { FrontOf p bytes.now result }
{
    let kept = p.kept;
    let held = num_whole::least(p.length, POSITION_MOST);
    let n = num_whole::least(POSITION_MOST - held, bytes.len());
    let room = keep(&kept[..held], &bytes[..n]);
    Front {
        room,
        length: held + n,
        held,
    }
}

// ---- 20

// The parameters that were read, or fifty.
fn parameters_in(s: &[u8]) -> usize
    ensures { result ≡ parameters_in s.now }
{
    if arc_kinds::read_settings(s).is_ok() {
        byte_section::read_count(s, 16, 1, PARAMETERS_U32).unwrap_or(PARAMETERS_MOST)
    } else {
        PARAMETERS_MOST
    }
}

pub fn parameters_at(p: Position) -> usize
    ensures { result ≡ parameters_in (position_of p).kept }
{
    let kept = p.kept;
    let len = num_whole::least(p.length, POSITION_MOST);
    parameters_in(&kept[..len])
}

// How many records are whole in `long` bytes of a file that opens so.
pub fn completed(new: Result<ArcRead, Fault>, taken: usize, long: usize) -> usize
    requires { IfOk new (λ a. a.heading.parameters ≤ parameters_most) }
    ensures { result ≡ completed_by taken long (told_placed new) }
{
    match new {
        Ok(a) => {
            let size = RECORD_FIXED + PARTIAL_SIZE * a.heading.parameters;
            num_whole::least(
                byte_words::left(a.count, taken),
                byte_words::left(long, a.start) / size,
            )
        }
        Err(_) => 0,
    }
}

// ---- 6

// Whether the room past the bytes is 0.
fn is_tidy(p: Position) -> bool
    ensures { result ≡ tidy p }
{
    p.length <= POSITION_MOST && p.kept[p.length..POSITION_MOST].iter().all(|b| *b == 0)
}

// The length that a position's bytes stay below, counted from the first record.
fn limit(taken: usize, count: usize, size: usize) -> usize
    requires { size ≤ record_size_most }
    ensures { (result ≡ pick (less taken count) size 1) × (result ≤ record_size_most) }
{
    if taken < count { size } else { 1 }
}

fn first_only(r: Refusal, taken: usize) -> bool
    ensures { result ≡ both (same (number_of r) 1) (same taken 0) }
{
    refusal::number(r) == 1 && taken == 0
}

// Whether the entries give so many bytes and records taken, while the file is not over.
fn is_placed(old: Result<ArcRead, Fault>, length: usize, taken: usize) -> bool
    requires { IfOk old (λ a. (a.heading.parameters ≤ parameters_most) × (a.start ≤ position_most)) }
    ensures { result ≡ placed_by length taken (told_placed old) }
{
    match old {
        Ok(a) => {
            let size = RECORD_FIXED + PARTIAL_SIZE * a.heading.parameters;
            taken <= a.count && length < a.start + limit(taken, a.count, size)
        }
        Err(fault) => first_only(fault.why, taken),
    }
}

// Whether they do where it is over.
fn is_ended(old: Result<ArcRead, Fault>, length: usize, taken: usize) -> bool
    ensures { result ≡ ends_by length taken (told_placed old) }
{
    match old {
        Ok(a) => length == a.start && taken == a.count,
        Err(_) => length == 0 && taken <= RECORDS_MOST,
    }
}

// Whether a position is one that the entries give.
pub fn is_fair(p: Position, old: Result<ArcRead, Fault>) -> bool
    requires { OpensAt p old }
    ensures { result ≡ fair p }
{
    if !is_tidy(p) {
        return false;
    }
    if p.over {
        is_ended(old, p.length, p.taken)
    } else {
        is_placed(old, p.length, p.taken)
    }
}

// Whether the tally and the sums hold nothing, for so many parameters.
fn sums_empty(parameters: usize, t: Tally, matrix: &[i64], rights: &[i64]) -> bool
    requires { (parameters ≤ parameters_most) × (tri parameters ≤ length matrix.now) × (parameters ≤ length rights.now) }
    ensures { result ≡ sums_sound 0 parameters (state_of matrix.now rights.now t) }
{
    if !take_tally::tally_sound(0, t) {
        return false;
    }
    num_packed::first_unsound(matrix, parameters, 0).is_none()
        && num_packed::first_broken_side(matrix, rights, parameters, 0).is_none()
}

// Whether a state holds nothing, for so many parameters.
fn is_empty(parameters: usize, t: Tally, matrix: &[i64], rights: &[i64]) -> bool
    requires { (parameters ≤ parameters_most) × (tri parameters ≤ length matrix.now) × (parameters ≤ length rights.now) }
    ensures { result ≡ sound_state 0 parameters (state_of matrix.now rights.now t) }
{
    sums_empty(parameters, t, matrix, rights) && take_tally::marks_sound(parameters, t, matrix)
}

// Whether a state is one that the entries give at a position.
pub fn is_sound_at(
    old: Result<ArcRead, Fault>,
    parameters: usize,
    taken: usize,
    t: Tally,
    matrix: &[i64],
    rights: &[i64],
) -> bool
    requires parameters_le_parameters_most { (parameters ≤ parameters_most) × (tri parameters ≤ length matrix.now) × (parameters ≤ length rights.now) }
    requires room_at { RoomAt (told_placed old) matrix.now rights.now }
    ensures { result ≡ sound_by parameters taken (state_of matrix.now rights.now t) (told_placed old) }
{
    match old {
        Ok(a) => take_state::judge_state(a.heading, t, matrix, rights).is_ok()
            && take_counts::accepted(t.counts) <= taken as u64,
        Err(_) => is_empty(parameters, t, matrix, rights),
    }
}

// ---- the end

// What is answered where the file is over, and where that leads: 1 where something is missing, else its heading is kept.
pub fn end_of(p: Position, old: Result<ArcRead, Fault>) -> Finished
    requires { OpensAt p old × (fair p ≡ true) × (p.over ≡ false) }
    ensures answer_value { told_part result.answer ≡ told_end (read_at p.taken (position_of p).kept) p.taken }
    ensures position { result.position ≡ held_of (closing (read_at p.taken (position_of p).kept) (position_of p)) }
{
    match old {
        Ok(a) => {
            let size = RECORD_FIXED + PARTIAL_SIZE * a.heading.parameters;
            let total = p.length + p.taken * size;
            if total < a.start + a.count * size {
                Finished {
                    answer: Err(PartRefusal::Broken(
                        Fault {
                            why: Refusal::Short,
                            place: total,
                        },
                        p.taken,
                    )),
                    position: ended(p.taken),
                }
            } else {
                Finished {
                    answer: Ok(0),
                    position: Position { over: true, ..p },
                }
            }
        }
        Err(fault) => Finished {
            answer: Err(PartRefusal::Broken(fault, p.taken)),
            position: ended(p.taken),
        },
    }
}
