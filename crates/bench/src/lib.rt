// For the benchmarks' drivers: an arc file's records taken from an empty state, as one run, one by one, or in parts as they arrive; a normal file read, and two merged. The
// functions promise only that they are safe and end; what the entries promise stands in `take`, `part`, `norm_read` and `merge`.
#![tactic(auto)]

ghost use Rattle.std.specs.Prelude.{◌<◌};

use arc_heading::Heading;
use merge::MergeRefusal;
use part_laws::Position;
use refusal::Refusal;
use take_tally::Tally;

// ---- taking

// Lays out a tally in room for its 227 numbers: the square sum, the counts, the last times, ten a station, and the marks.
fn put_tally(t: Tally, out: &mut [u64]) {
    if out.len() < 227 {
        return;
    }
    let counts = t.counts.iter().map(|count| u64::from(*count));
    let times = t.rows.iter().flat_map(|row| row.times.iter().copied());
    let marks = t.marks.iter().map(|mark| u64::from(*mark));
    let numbers = std::iter::once(t.square)
        .chain(counts)
        .chain(times)
        .chain(marks);
    for (place, number) in out.iter_mut().zip(numbers) {
        *place = number;
    }
}

// The number of a refusal in a byte.
fn number_of(why: Refusal) -> u8 {
    (refusal::number(why) % 256) as u8
}

// The records of a file, from their place on.
fn records_of(file: &[u8], start: usize) -> &[u8] {
    file.get(start..).unwrap_or(&[])
}

// The heading of a file and the place of its records; a blank heading and 0 where the file is refused.
fn front_of(file: &[u8]) -> (Heading, usize) {
    match arc_read::read(file) {
        Ok(r) => (r.heading, r.start),
        Err(_) => (arc_front::blank(), 0),
    }
}

// The tally that a heading begins with; the empty one where it is refused.
fn started(h: Heading, matrix: &mut [i64], rights: &mut [i64]) -> Tally {
    take_state::start(h, matrix, rights).unwrap_or(take_tally::no_tally())
}

// The records of an arc file as one run.
#[unsafe(no_mangle)]
pub extern "C" fn bench_run(
    file: &[u8],
    matrix: &mut [i64],
    rights: &mut [i64],
    tally: &mut [u64],
    answers: &mut [u8],
) -> u8 {
    let (h, start) = front_of(file);
    let t = started(h, matrix, rights);
    match take::take_run(h, t, matrix, rights, records_of(file, start), answers) {
        Ok(after) => {
            put_tally(after, tally);
            0
        }
        Err(why) => {
            put_tally(t, tally);
            number_of(why)
        }
    }
}

// As many records of a file as there is room for answers, each by itself.
fn take_each(file: &[u8], matrix: &mut [i64], rights: &mut [i64], answers: &mut [u8]) -> Tally {
    let (h, start) = front_of(file);
    let mut t = started(h, matrix, rights);
    for (i, told) in answers.iter_mut().enumerate() {
        let bytes = arc_record::record_at(file, start, h.parameters, i);
        match take::take(h, t, matrix, rights, bytes) {
            Ok(after) => {
                t = after;
                *told = 0;
            }
            Err(why) => *told = number_of(why),
        }
    }
    t
}

// The records of an arc file one by one.
#[unsafe(no_mangle)]
pub extern "C" fn bench_take(
    file: &[u8],
    matrix: &mut [i64],
    rights: &mut [i64],
    tally: &mut [u64],
    answers: &mut [u8],
) -> u8 {
    put_tally(take_each(file, matrix, rights, answers), tally);
    0
}

// The position and the tally that a file in parts begins with, where the room is short too.
fn begun(matrix: &mut [i64], rights: &mut [i64]) -> (Position, Tally) {
    match part::begin(matrix, rights) {
        Ok(b) => (b.position, b.tally),
        Err(_) => (part_place::begun(), take_tally::no_tally()),
    }
}

// The records of an arc file, handed over in parts of so many bytes.
fn take_parts(
    file: &[u8],
    size: usize,
    matrix: &mut [i64],
    rights: &mut [i64],
    answers: &mut [u8],
) -> Tally
    requires { 0 < size }
{
    let (mut p, mut t) = begun(matrix, rights);
    for bytes in file.chunks(size) {
        let k = p.taken.min(answers.len());
        let taken = part::part(p, t, matrix, rights, bytes, &mut answers[k..]);
        p = taken.position;
        t = taken.tally;
    }
    t
}

// The records of an arc file, handed over in parts of 64 KiB.
#[unsafe(no_mangle)]
pub extern "C" fn bench_parts(
    file: &[u8],
    matrix: &mut [i64],
    rights: &mut [i64],
    tally: &mut [u64],
    answers: &mut [u8],
) -> u8 {
    put_tally(take_parts(file, 65536, matrix, rights, answers), tally);
    0
}

// The same in parts of one byte.
#[unsafe(no_mangle)]
pub extern "C" fn bench_bytes(
    file: &[u8],
    matrix: &mut [i64],
    rights: &mut [i64],
    tally: &mut [u64],
    answers: &mut [u8],
) -> u8 {
    put_tally(take_parts(file, 1, matrix, rights, answers), tally);
    0
}

// ---- normal files

// Lays out a number where there is room for it.
fn put(told: &mut [u64], i: usize, x: u64) {
    if let Some(place) = told.get_mut(i) {
        *place = x;
    }
}

// Lays out a refusal's number, and gives it.
fn put_number(why: Refusal, told: &mut [u64]) -> u8 {
    let number = refusal::number(why);
    put(told, 0, u64::from(number));
    (number % 256) as u8
}

// A normal file read: the refusal's number and place, the numbers of arcs and parameters, the three places, how many parameters have their sums
// stored, and the form; each 0 where there is none.
#[unsafe(no_mangle)]
pub extern "C" fn bench_read(file: &[u8], told: &mut [u64]) -> u8 {
    for i in 0..9 {
        put(told, i, 0);
    }
    match norm_read::read(file) {
        Ok(r) => {
            put(told, 2, r.arcs as u64);
            put(told, 3, r.parameters as u64);
            put(told, 4, r.matrix as u64);
            put(told, 5, r.rights as u64);
            put(told, 6, r.totals as u64);
            put(told, 7, r.stored as u64);
            put(told, 8, u64::from(r.is_small));
            0
        }
        Err(fault) => {
            put(told, 1, fault.place as u64);
            put_number(fault.why, told)
        }
    }
}

// The refusal's number, the file that it is of, its place or the length of the merged file; each 0 where there is none.
fn put_merged(a: Result<usize, MergeRefusal>, told: &mut [u64]) -> u8 {
    match a {
        Ok(long) => {
            put(told, 0, 0);
            put(told, 1, 0);
            put(told, 2, long as u64);
            0
        }
        Err(MergeRefusal::First(fault)) => {
            put(told, 1, 1);
            put(told, 2, fault.place as u64);
            put_number(fault.why, told)
        }
        Err(MergeRefusal::Second(fault)) => {
            put(told, 1, 2);
            put(told, 2, fault.place as u64);
            put_number(fault.why, told)
        }
        Err(MergeRefusal::Together(why)) => {
            put(told, 1, 0);
            put(told, 2, 0);
            put_number(why, told)
        }
    }
}

// Two normal files merged.
#[unsafe(no_mangle)]
pub extern "C" fn bench_merge(first: &[u8], second: &[u8], out: &mut [u8], told: &mut [u64]) -> u8 {
    let answer = merge::merge(first, second, out);
    put_merged(answer, told)
}
