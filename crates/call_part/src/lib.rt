// Inner to `wheloruka`: the calls for an arc file in parts, on a position and a state in lent room.
#![tactic(auto)]

ghost use Rattle.std.specs.Prelude.{◌≡◌, ◌≤◌, length, IfOk};
ghost use Rattle.num_limits.specs.Capacities.{parameters_most, stations_most};
ghost use Rattle.num_whole.specs.Tests.{up_to, pick, both};
ghost use Rattle.byte_words.specs.Words.{lay};
ghost use Rattle.call_tally.specs.Tally.{tally_bytes};
ghost use Rattle.part_laws.specs.Entries.{told_part};
ghost use Rattle.part.specs.Given.{told_heading, heading_of};
ghost use Rattle.call_position.specs.Position.{position_long, position_bytes};
ghost use Rattle.call_told.specs.Told.{told_number, told_out, changes};
ghost use Rattle.call_part.specs.Calls.{
  rooms,
  has_state,
  place_lent,
  begin_call,
  begin_left,
  part_call,
  part_left,
  part_answers_left,
  finish_call,
  finish_left,
  head_told,
  head_given,
  head_call,
  head_left,
};

use arc_heading::Heading;
use part::Parted;
use part_laws::{PartRefusal, Position};
use refusal::Refusal;
use take_tally::Tally;

// ---- what the calls share

// Whether a position and a tally are there whole.
fn has_state(position: &[u8], tally: &[u8]) -> bool
    ensures { result ≡ has_state position.now tally.now }
{
    call_position::has_position(position) && call_tally::has_tally(tally)
}

// Whether a position is there whole, with room for two numbers.
fn is_lent(position: &[u8], out: usize) -> bool
    ensures { result ≡ place_lent position.now out }
{
    call_position::has_position(position) && 2 <= out
}

fn put_back(answer: Result<usize, PartRefusal>, p: Position, position: &mut [u8])
    requires { position_long ≤ length position.old }
    ensures { position.new ≡ pick (changes (told_part answer)) (lay position.old 0 (position_bytes p)) position.old }
{
    if call_told::changes(answer) {
        call_position::put_position(p, position);
    }
}

fn put_tally_back(answer: Result<usize, PartRefusal>, t: Tally, tally: &mut [u8])
    ensures { tally.new ≡ pick (changes (told_part answer)) (lay tally.old 0 (tally_bytes t)) tally.old }
{
    if call_told::changes(answer) {
        call_tally::put_tally(t, tally);
    }
}

// ---- begin

// Where a file begins, and the empty state: 20, or all four rooms are filled.
pub fn begin(position: &mut [u8], tally: &mut [u8], matrix: &mut [i64], rights: &mut [i64]) -> u32
    ensures value { result ≡ begin_call (rooms position.old tally.old matrix.old rights.old) }
    ensures left { rooms position.new tally.new matrix.new rights.new ≡ begin_left (rooms position.old tally.old matrix.old rights.old) }
{
    if has_state(position, tally) {
        match part::begin(matrix, rights) {
            Ok(b) => {
                call_position::put_position(b.position, position);
                call_tally::put_tally(b.tally, tally);
                0
            }
            Err(e) => refusal::number(e),
        }
    } else {
        20
    }
}

// ---- a part

fn give_parted(x: Parted, position: &mut [u8], tally: &mut [u8], out: &mut [u64]) -> u32
    requires { (position_long ≤ length position.old) × (2 ≤ length out.old) }
    ensures value { result ≡ told_number (told_part x.answer) }
    ensures position { position.new ≡ pick (changes (told_part x.answer)) (lay position.old 0 (position_bytes x.position)) position.old }
    ensures tally { tally.new ≡ pick (changes (told_part x.answer)) (lay tally.old 0 (tally_bytes x.tally)) tally.old }
    ensures left { out.new ≡ told_out (told_part x.answer) out.old }
{
    put_back(x.answer, x.position, position);
    put_tally_back(x.answer, x.tally, tally);
    call_told::give_told(x.answer, out)
}

// Whether a position and a tally are there whole, with room for two numbers.
fn has_rooms(position: &[u8], tally: &[u8], out: usize) -> bool
    ensures { result ≡ both (has_state position.now tally.now) (up_to 2 out) }
{
    has_state(position, tally) && 2 <= out
}

// A part handed over: 20, 28, 20, 6, a refusal in the file's form, or the records that it completes are taken.
pub fn part(
    position: &mut [u8],
    tally: &mut [u8],
    matrix: &mut [i64],
    rights: &mut [i64],
    bytes: &[u8],
    answers: &mut [u8],
    out: &mut [u64],
) -> u32
    ensures value { result ≡ told_number (part_call (rooms position.old tally.old matrix.old rights.old) bytes.now (length answers.old) (length out.old)) }
    ensures left { rooms position.new tally.new matrix.new rights.new ≡ part_left (rooms position.old tally.old matrix.old rights.old) bytes.now (length answers.old) (length out.old) }
    ensures answers { answers.new ≡ part_answers_left (rooms position.old tally.old matrix.old rights.old) bytes.now answers.old (length out.old) }
    ensures told { out.new ≡ told_out (part_call (rooms position.old tally.old matrix.old rights.old) bytes.now (length answers.old) (length out.old)) out.old }
{
    if has_rooms(position, tally, out.len()) {
        let p = call_position::position_in(position);
        let t = call_tally::tally_in(tally);
        let x = part::part(p, t, matrix, rights, bytes, answers);
        give_parted(x, position, tally, out)
    } else {
        20
    }
}

// ---- finish

// The file is over: 20, 28, 6, 1, or nothing is wrong.
pub fn finish(position: &mut [u8], out: &mut [u64]) -> u32
    ensures value { result ≡ told_number (finish_call position.old (length out.old)) }
    ensures left { position.new ≡ finish_left position.old (length out.old) }
    ensures told { out.new ≡ told_out (finish_call position.old (length out.old)) out.old }
{
    if is_lent(position, out.len()) {
        let p = call_position::position_in(position);
        let n = p.taken;
        let f = part::finish(p);
        let answer = call_told::with_all(n, f.answer);
        put_back(answer, f.position, position);
        call_told::give_told(answer, out)
    } else {
        20
    }
}

// ---- the heading

// The heading of a position, 6 also where the word for whether the file is over is neither 0 nor 1.
fn head_of(position: &[u8]) -> Result<Heading, PartRefusal>
    ensures answer_value { told_heading result ≡ head_told position.now }
    ensures heading { heading_of result ≡ head_given position.now }
    ensures fits { IfOk result (λ h. (h.parameters ≤ parameters_most) × (h.stations ≤ stations_most)) }
{
    if call_position::is_marked(position) {
        part::heading(call_position::position_in(position))
    } else {
        Err(PartRefusal::Stopped(Refusal::Unsound))
    }
}

// The heading of a position: 20, 6, 1 where it is not complete yet, 20 for its room, or it is put there.
pub fn heading(position: &[u8], heading: &mut [u8], out: &mut [u64]) -> u32
    ensures value { result ≡ told_number (head_call position.now (length heading.old) (length out.old)) }
    ensures heading { heading.new ≡ head_left position.now heading.old (length out.old) }
    ensures told { out.new ≡ told_out (head_call position.now (length heading.old) (length out.old)) out.old }
{
    if is_lent(position, out.len()) {
        let n = call_position::position_in(position).taken;
        match head_of(position) {
            Ok(h) => call_told::give_head(h, n, heading, out),
            Err(r) => call_told::give_told(Err(r), out),
        }
    } else {
        20
    }
}
