// Runs the vectors of taking. Each line is written anew: its question as it was read, the library's own answer, and the state: of a
// record that is accepted the one after it, else the one before, as it is after the call.
// Four of the sixty lines from outside are left out: they hold something in a sum's slot past the parameters, which this layout does not have.
// The last four lines take one set of sixteen records from the empty state, in mixes that keep each station's own order: one after another, by
// turns, backwards, and one more. The state after them is the same, and so is what each record was told.
#![tactic(auto)]

use arc_heading::Heading;
use arc_limits::{Label, Settings, Station};
use desk_lines::{Output, Tell};
use num_limits::{ARC_SUMS_MOST, PARAMETERS_MOST, STATIONS_MOST, TYPES};
use refusal::Refusal;
use take_tally::{Row, Tally};

// Fills room with the items of a list, each read where it begins, with a mark after it; past the last one the text is empty.
fn fill<T: Copy, F: Fn(&[u8]) -> T>(text: &[u8], mark: u8, out: &mut [T], read: F)
    requires { F.IsAlwaysCallable read }
{
    let mut rest = text;
    for item in out {
        *item = read(rest);
        rest = desk_lines::after(rest, mark);
    }
}

fn decimal_u16(text: &[u8]) -> u16 {
    desk_lines::as_u16(desk_lines::decimal(text))
}

fn decimal_u32(text: &[u8]) -> u32 {
    desk_lines::as_u32(desk_lines::decimal(text))
}

// ---- the heading

// `ARC,FIRST,DAYS,LEVEL`
fn settings_of(text: &[u8]) -> Settings {
    Settings {
        arc: decimal_u32(text),
        first: decimal_u32(desk_lines::from_item(text, b',', 1)),
        days: decimal_u16(desk_lines::from_item(text, b',', 2)),
        level: decimal_u16(desk_lines::from_item(text, b',', 3)),
    }
}

// `KIND:INDEX:WEIGHT:ESTIMATE`
fn label_of(text: &[u8]) -> Label {
    Label {
        kind: decimal_u16(text),
        index: decimal_u16(desk_lines::from_item(text, b':', 1)),
        weight: decimal_u32(desk_lines::from_item(text, b':', 2)),
        estimate: desk_lines::signed(desk_lines::from_item(text, b':', 3)),
    }
}

// The signed number that begins a text, as far as 32 bits go.
fn signed_i32(text: &[u8]) -> i32 {
    let value = desk_lines::signed(text);
    let limit = if value < 0 { i32::MIN } else { i32::MAX };
    i32::try_from(value).unwrap_or(limit)
}

// `NUMBER:ZERO:CORRECTION`
fn station_of(text: &[u8]) -> Station {
    Station {
        number: decimal_u16(text),
        correction: signed_i32(desk_lines::from_item(text, b':', 2)),
    }
}

// The heading of a line; its counts are those of the line, though no more are stored than it has room for. What is past the last one is zeros.
fn heading_of(line: &[u8]) -> Heading {
    let parameters = desk_lines::value(line, 1);
    let stations = desk_lines::value(line, 2);
    let mut labels = [label_of(b""); PARAMETERS_MOST];
    let mut listed = [station_of(b""); STATIONS_MOST];
    fill(parameters, b';', &mut labels, label_of);
    fill(stations, b';', &mut listed, station_of);
    Heading {
        settings: settings_of(desk_lines::value(line, 0)),
        parameters: desk_lines::items(parameters, b';'),
        stations: desk_lines::items(stations, b';'),
        labels,
        listed,
    }
}

// ---- the state

// The last times of a list, ten of each station.
fn rows_of(text: &[u8]) -> [Row; STATIONS_MOST] {
    let mut rows = [Row { times: [0; TYPES] }; STATIONS_MOST];
    let mut rest = text;
    for row in &mut rows {
        fill(rest, b',', &mut row.times, desk_lines::decimal);
        rest = desk_lines::from_item(rest, b',', TYPES);
    }
    rows
}

fn tally_of(line: &[u8]) -> Tally {
    let mut counts = [0; STATIONS_MOST];
    let mut marks = [0; PARAMETERS_MOST];
    fill(desk_lines::value(line, 8), b',', &mut counts, decimal_u32);
    fill(desk_lines::value(line, 10), b',', &mut marks, decimal_u16);
    Tally {
        square: desk_lines::decimal(desk_lines::value(line, 7)),
        counts,
        rows: rows_of(desk_lines::value(line, 9)),
        marks,
    }
}

// ---- writing

// Writes the last times, ten of each station.
fn put_rows<R: Print + Tell>(stdout: &Output<'_, R>, rows: &[Row]) {
    for (i, row) in rows.iter().enumerate() {
        if i > 0 {
            print!(stdout; ",");
        }
        desk_lines::put_list(stdout, &row.times);
    }
}

// Writes a state, each of its parts by a name that begins as told, and ends the line.
fn put_state<R: Print + Tell>(
    stdout: &Output<'_, R>,
    name: &str,
    t: Tally,
    matrix: &[i64],
    rights: &[i64],
) {
    print!(stdout; " {name}.matrix=");
    desk_lines::put_list(stdout, matrix);
    print!(stdout; " {name}.rights=");
    desk_lines::put_list(stdout, rights);
    print!(stdout; " {name}.square={} {name}.counts=", t.square);
    desk_lines::put_list(stdout, &t.counts);
    print!(stdout; " {name}.last=");
    put_rows(stdout, &t.rows);
    print!(stdout; " {name}.marks=");
    desk_lines::put_list(stdout, &t.marks);
    print!(stdout; "\n");
}

// ---- lines

// The state after a record that was accepted, and the one before it as it was read.
fn put_accepted<R: Print + Tell>(
    stdout: &Output<'_, R>,
    line: &[u8],
    t: Tally,
    matrix: &[i64],
    rights: &[i64],
) {
    let before = desk_lines::from_word(line, 5);
    print!(stdout; "0 ");
    desk_lines::put(stdout, desk_lines::before_word(before, 5));
    desk_lines::put(
        stdout,
        desk_lines::first_word(desk_lines::from_word(before, 5)),
    );
    put_state(stdout, "after", t, matrix, rights);
}

// The number of a refusal, and the state as it is after it.
fn put_refused<R: Print + Tell>(
    stdout: &Output<'_, R>,
    why: Refusal,
    t: Tally,
    matrix: &[i64],
    rights: &[i64],
) {
    print!(stdout; "{}", refusal::number(why));
    put_state(stdout, "before", t, matrix, rights);
}

// Takes a line's record into its state, and writes the line from the answer on.
fn answer_line<R: Print + Tell>(
    stdout: &Output<'_, R>,
    line: &[u8],
    matrix: &mut [i64],
    rights: &mut [i64],
    bytes: &[u8],
) {
    let before = tally_of(line);
    let taken = take::take(heading_of(line), before, matrix, rights, bytes);
    print!(stdout; "answer=");
    match taken {
        Ok(after) => put_accepted(stdout, line, after, matrix, rights),
        Err(why) => put_refused(stdout, why, before, matrix, rights),
    }
}

// A line that takes one record, written anew.
fn run_one<R: Print + Tell>(
    stdout: &Output<'_, R>,
    line: &[u8],
    matrix: &mut [i64],
    rights: &mut [i64],
    bytes: &[u8],
) {
    fill(desk_lines::value(line, 5), b',', matrix, desk_lines::signed);
    fill(desk_lines::value(line, 6), b',', rights, desk_lines::signed);
    desk_lines::put(stdout, desk_lines::before_word(line, 4));
    answer_line(stdout, line, matrix, rights, bytes);
}

// ---- mixes

// Takes record i of some bytes, and writes what it was told: the tally after it.
fn take_next<R: Print + Tell>(
    stdout: &Output<'_, R>,
    h: Heading,
    t: Tally,
    matrix: &mut [i64],
    rights: &mut [i64],
    bytes: &[u8],
    i: usize,
) -> Tally {
    let taken = take::take(
        h,
        t,
        matrix,
        rights,
        arc_record::record_at(bytes, 0, h.parameters, i),
    );
    if i > 0 {
        print!(stdout; ",");
    }
    print!(stdout; "{}", taken.map_or_else(refusal::number, |_| 0));
    taken.unwrap_or(t)
}

// Takes so many records, one by one, from the empty state: the tally after them.
fn take_each<R: Print + Tell>(
    stdout: &Output<'_, R>,
    h: Heading,
    matrix: &mut [i64],
    rights: &mut [i64],
    bytes: &[u8],
    count: usize,
) -> Tally {
    let mut tally = take_state::start(h, matrix, rights).unwrap_or(take_tally::no_tally());
    for i in 0..count {
        tally = take_next(stdout, h, tally, matrix, rights, bytes, i);
    }
    tally
}

// A line that takes several records, written anew: `.. records=BYTES answers=.. after.matrix=..`, with as many records as answers.
fn run_mix<R: Print + Tell>(
    stdout: &Output<'_, R>,
    line: &[u8],
    matrix: &mut [i64],
    rights: &mut [i64],
    bytes: &[u8],
) {
    let count = desk_lines::items(desk_lines::value(line, 4), b',');
    desk_lines::put(stdout, desk_lines::before_word(line, 4));
    print!(stdout; "answers=");
    let t = take_each(stdout, heading_of(line), matrix, rights, bytes, count);
    put_state(stdout, "after", t, matrix, rights);
}

// ---- all

// A line of keys and values, written anew: the fourth key is `record` or `records`.
fn run_line<R: Print + Tell>(stdout: &Output<'_, R>, line: &[u8]) {
    let mut matrix = [0i64; ARC_SUMS_MOST];
    let mut rights = [0i64; PARAMETERS_MOST];
    let mut buffer = [0u8; 4096];
    let bytes = desk_lines::hex_bytes(desk_lines::value(line, 3), &mut buffer);
    if desk_lines::from_word(line, 3).get(6) == Some(&b's') {
        run_mix(stdout, line, &mut matrix, &mut rights, bytes);
    } else {
        run_one(stdout, line, &mut matrix, &mut rights, bytes);
    }
}

fn main(rt: HostRuntime) {
    let stdout = Output::new(&rt);
    let mut buffer = desk_files::zeros::<{ test_runner::INPUT_ROOM }>();
    test_runner::each_line(test_runner::input(&rt, &mut buffer), |line| {
        run_line(&stdout, line);
    });
}
