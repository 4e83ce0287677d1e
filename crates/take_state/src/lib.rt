// The state of an arc: its sums in lent room, its tally by value; the empty state, and the judging of one that is handed in.
#![tactic(auto)]

ghost use Rattle.std.specs.Prelude.{◌≡◌, ◌+◌, ◌*◌, ◌^◌, ◌≤◌, ◌<◌, min, pos, length};
ghost use Rattle.num_limits.specs.Capacities.{accepted_most, parameters_most};
ghost use Rattle.num_packed.specs.Triangle.{tri};
ghost use Rattle.refusal.specs.First.{answered, value_or, verdict_of};
ghost use Rattle.refusal.specs.Told.{told};
ghost use Rattle.take_tally.specs.Tally.{empty_tally};
ghost use Rattle.take_state.specs.State.{
  state_of,
  matrix_top,
  right_top,
  matrix_sound,
  rights_sound,
  sums_sound,
  sound_state,
  room_number,
  state_number,
  started,
  parameter_number,
  sight_of,
  carriers_of,
  carries_of,
};

use arc_heading::Heading;
use num_limits::PARAMETERS_MOST;
use refusal::Refusal;
use take_tally::Tally;

// ---- room

// 20, 2, 4, 5.
fn judge_room(h: Heading, matrix: &[i64], rights: &[i64]) -> Result<(), Refusal>
    ensures { told result ≡ answered (room_number h matrix.now rights.now) tt }
{
    if take_room::is_roomy(h.parameters, matrix, rights) {
        arc_heading::judge(h)
    } else {
        Err(Refusal::Room)
    }
}

// 20, 2, 4, 5, else the empty state.
pub fn start(h: Heading, matrix: &mut [i64], rights: &mut [i64]) -> Result<Tally, Refusal>
    ensures answer_value { verdict_of (told result) ≡ answered (room_number h matrix.old rights.old) tt }
    ensures state { state_of matrix.new rights.new (value_or empty_tally (told result)) ≡ started h matrix.old rights.old }
{
    judge_room(h, matrix, rights)?;
    let p = h.parameters;
    take_room::clear(matrix, num_packed::place(0, p));
    take_room::clear(rights, p);
    Ok(take_tally::no_tally())
}

// ---- the sums

// What one record adds to a matrix sum and to a right side at the most: 2^46 and 2^43.
const MATRIX_UNIT: u64 = 70368744177664;

const RIGHT_UNIT: u64 = 8796093022208;

// The bound of sums of n records, each within `unit`.
fn bound_of(n: u64, unit: u64) -> i64
    requires { (n ≤ accepted_most) × (unit ≤ 2 ^ 46) }
    ensures { result ≡ pos (n * unit) }
{
    (n * unit) as i64
}

fn matrix_sound(p: usize, n: u64, matrix: &[i64]) -> bool
    requires { (p ≤ parameters_most) × (tri p ≤ length matrix.now) × (n ≤ accepted_most) }
    ensures { result ≡ matrix_sound p (matrix_top n) matrix.now }
{
    num_packed::first_unsound(matrix, p, bound_of(n, MATRIX_UNIT)).is_none()
}

fn rights_sound(p: usize, n: u64, matrix: &[i64], rights: &[i64]) -> bool
    requires { (p ≤ parameters_most) × (tri p ≤ length matrix.now) × (p ≤ length rights.now) × (n ≤ accepted_most) }
    ensures { result ≡ rights_sound p (right_top n) matrix.now rights.now }
{
    num_packed::first_broken_side(matrix, rights, p, bound_of(n, RIGHT_UNIT)).is_none()
}

fn sums_sound(h: Heading, t: Tally, matrix: &[i64], rights: &[i64]) -> bool
    requires { (h.parameters ≤ parameters_most) × (tri h.parameters ≤ length matrix.now) × (h.parameters ≤ length rights.now) }
    ensures { result ≡ sums_sound h.stations h.parameters (state_of matrix.now rights.now t) }
{
    if !take_tally::tally_sound(h.stations, t) {
        return false;
    }
    let n = take_counts::accepted(t.counts);
    matrix_sound(h.parameters, n, matrix) && rights_sound(h.parameters, n, matrix, rights)
}

fn is_sound(h: Heading, t: Tally, matrix: &[i64], rights: &[i64]) -> bool
    requires { (h.parameters ≤ parameters_most) × (tri h.parameters ≤ length matrix.now) × (h.parameters ≤ length rights.now) }
    ensures { result ≡ sound_state h.stations h.parameters (state_of matrix.now rights.now t) }
{
    sums_sound(h, t, matrix, rights) && take_tally::marks_sound(h.parameters, t, matrix)
}

// 20, 2, 4, 5, 6, else sound.
pub fn judge_state(h: Heading, t: Tally, matrix: &[i64], rights: &[i64]) -> Result<(), Refusal>
    ensures { told result ≡ answered (state_number h (state_of matrix.now rights.now t)) tt }
{
    judge_room(h, matrix, rights)?;
    if is_sound(h, t, matrix, rights) {
        Ok(())
    } else {
        Err(Refusal::Unsound)
    }
}

// ---- what is seen, and by whom

// 20, 2, 4, 5, 6 for the heading and its state, 4 where i is none of its parameters.
fn judge_parameter(
    h: Heading,
    t: Tally,
    matrix: &[i64],
    rights: &[i64],
    i: usize,
) -> Result<(), Refusal>
    ensures { told result ≡ answered (parameter_number h (state_of matrix.now rights.now t) i) tt }
{
    judge_state(h, t, matrix, rights)?;
    if i < h.parameters {
        Ok(())
    } else {
        Err(Refusal::Limits)
    }
}

// Whether parameter i is seen.
pub fn seen(h: Heading, t: Tally, matrix: &[i64], rights: &[i64], i: usize) -> Result<bool, Refusal>
    ensures { told result ≡ sight_of h (state_of matrix.now rights.now t) i }
{
    judge_parameter(h, t, matrix, rights, i)?;
    Ok(take_tally::is_seen(matrix, i))
}

// How many stations gave an accepted partial other than 0 for a parameter.
pub fn carried_by(
    h: Heading,
    t: Tally,
    matrix: &[i64],
    rights: &[i64],
    parameter: usize,
) -> Result<u32, Refusal>
    ensures { told result ≡ carriers_of h (state_of matrix.now rights.now t) parameter }
{
    match judge_parameter(h, t, matrix, rights, parameter) {
        Ok(()) => Ok(take_marks::count(t.marks[parameter])),
        Err(refusal) => Err(refusal),
    }
}

// Whether the station of row k did; 4 also where k is none of the heading's stations.
pub fn carries(
    h: Heading,
    t: Tally,
    matrix: &[i64],
    rights: &[i64],
    i: usize,
    k: usize,
) -> Result<bool, Refusal>
    ensures { told result ≡ carries_of h (state_of matrix.now rights.now t) i k }
{
    judge_parameter(h, t, matrix, rights, i)?;
    if h.stations <= k {
        return Err(Refusal::Limits);
    }
    Ok(take_marks::has(t.marks[i], k as u16))
}
