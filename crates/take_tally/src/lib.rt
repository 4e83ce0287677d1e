// The tally of an arc by value: the empty one, and whether one that is handed in is sound.
#![tactic(auto)]

ghost use Rattle.std.specs.Prelude.{◌≡◌, not, ◌+◌, ◌≤◌, ◌<◌, length};
ghost use Rattle.num_limits.specs.Capacities.{parameters_most};
ghost use Rattle.num_packed.specs.Triangle.{tri};
ghost use Rattle.num_packed.specs.Sound.{entry, is_zero};
ghost use Rattle.num_whole.specs.Tests.{same, both};
ghost use Rattle.num_whole.specs.Lists.{all};
ghost use Rattle.take_tally.specs.Tally.{empty_tally, rows_sound, tally_sound, marks_sound};
ghost use Rattle.take_marks.specs.Parts.{among_marks};
ghost use Rattle.take_tally.specs.Parts.{mark_good};

use num_limits::{PARAMETERS_MOST, STATIONS_MOST, TYPES};

// The last times of one station, a type each; 0 for none.
#[derive(Clone, Copy)]
pub struct Row {
    pub times: [u64; TYPES],
}

// The square sum, the accepted records of each station, the last times of each station, and the marks of each parameter.
#[derive(Clone, Copy)]
pub struct Tally {
    pub square: u64,
    pub counts: [u32; STATIONS_MOST],
    pub rows: [Row; STATIONS_MOST],
    pub marks: [u16; PARAMETERS_MOST],
}

fn no_rows() -> [Row; STATIONS_MOST]
    ensures { result ≡ empty_tally.rows }
{
    [Row {
        times: [0u64; TYPES],
    }; STATIONS_MOST]
}

pub fn no_tally() -> Tally
    ensures { result ≡ empty_tally }
{
    Tally {
        square: 0,
        counts: [0u32; STATIONS_MOST],
        rows: no_rows(),
        marks: [0u16; PARAMETERS_MOST],
    }
}

// Whether a station has no last time.
fn is_blank(w: Row) -> bool
    ensures { result ≡ all (λ t. same t 0) w.times }
{
    w.times.iter().all(|t| *t == 0)
}

fn rows_sound(stations: usize, t: Tally) -> bool
    ensures { result ≡ rows_sound stations t.rows }
{
    for i in stations..STATIONS_MOST {
        if !is_blank(t.rows[i]) {
            return false;
        }
    }
    true
}

// What one record adds to the square sum at the most: 2^40.
const SQUARE_UNIT: u64 = 1099511627776;

#[tactic(auto, using(take_counts::proofs::Totals::counts_small), unfolding(crate::specs::Tally::tally_sound, num_whole::specs::Tests::both, num_whole::specs::Tests::up_to))]
pub fn tally_sound(stations: usize, t: Tally) -> bool
    ensures { result ≡ tally_sound stations t }
{
    take_counts::counts_sound(stations, t.counts)
        && rows_sound(stations, t)
        && t.square <= take_counts::accepted(t.counts) * SQUARE_UNIT
}

// ---- marks and sums

// Whether the diagonal of parameter i is not 0.
pub fn is_seen(matrix: &[i64], i: usize) -> bool
    requires { (i < parameters_most) × (tri (i + 1) ≤ length matrix.now) }
    ensures { result ≡ not (is_zero (entry matrix.now i i)) }
{
    matrix[num_packed::place(i, i)] != 0
}

// Whether there is a mark, and none but of stations that have records.
#[tactic(auto, unfolding(num_whole::specs::Tests::both, num_whole::specs::Tests::same))]
fn is_marked(word: u16, heard: u16) -> bool
    ensures { result ≡ both (not (same word 0)) (among_marks word heard) }
{
    word != 0 && take_marks::is_among(word, heard)
}

// Whether a parameter's marks agree with its diagonal and with the stations that have records; past the parameters they are 0.
fn mark_sound(p: usize, i: usize, word: u16, heard: u16, matrix: &[i64]) -> bool
    requires { (p ≤ parameters_most) × (tri p ≤ length matrix.now) }
    ensures { (result ≡ mark_good p matrix.now i word heard) × (word < 65536) }
{
    if p <= i {
        return word == 0;
    }
    if is_seen(matrix, i) {
        is_marked(word, heard)
    } else {
        word == 0
    }
}

pub fn marks_sound(p: usize, t: Tally, matrix: &[i64]) -> bool
    requires { (p ≤ parameters_most) × (tri p ≤ length matrix.now) }
    ensures { result ≡ marks_sound p matrix.now t }
{
    let heard = take_marks::heard(t.counts);
    for i in 0..PARAMETERS_MOST {
        if !mark_sound(p, i, t.marks[i], heard, matrix) {
            return false;
        }
    }
    true
}
