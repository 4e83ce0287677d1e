// Runs the vectors of days, cells and units, and doubles of every exponent. The first word of a line tells what it asks. Each line is written anew: its question as it was read,
// and the library's own answer.
#![tactic(auto)]

use cells::{Cell, Letter};
use days::Date;
use desk_lines::{Output, Tell};

// ---- days

// Writes a date, and what stands after it.
fn put_date<R: Print + Tell>(stdout: &Output<'_, R>, date: Date, after: &[u8]) {
    let Date { year, month, day } = date;
    print!(stdout; "{year} {month} {day}");
    desk_lines::put(stdout, after);
}

// Writes the number of a date, and ends the line.
fn put_day_of<R: Print + Tell>(stdout: &Output<'_, R>, date: Date) {
    match days::day_of_date(date) {
        Ok(number) => print!(stdout; "ok {number}\n"),
        Err(why) => desk_lines::put_refusal(stdout, why, b"\n"),
    }
}

// Writes the date of a number, and ends the line.
fn put_date_of<R: Print + Tell>(stdout: &Output<'_, R>, number: u32) {
    match days::date_of_day(number) {
        Ok(date) => {
            print!(stdout; "ok ");
            put_date(stdout, date, b"\n");
        }
        Err(why) => desk_lines::put_refusal(stdout, why, b"\n"),
    }
}

// A line `date YEAR MONTH DAY -> ..`, written anew.
fn run_date<R: Print + Tell>(stdout: &Output<'_, R>, line: &[u8]) {
    let date = Date {
        year: desk_lines::small(line, 1),
        month: desk_lines::small(line, 2),
        day: desk_lines::small(line, 3),
    };
    print!(stdout; "date ");
    put_date(stdout, date, b" -> ");
    put_day_of(stdout, date);
}

// A line `day NUMBER -> ..`, written anew.
fn run_day<R: Print + Tell>(stdout: &Output<'_, R>, line: &[u8]) {
    let number = desk_lines::small(line, 1);
    print!(stdout; "day {number} -> ");
    put_date_of(stdout, number);
}

// ---- cells

// The letter that a text begins with: S, or else C.
fn letter_of(text: &[u8]) -> Letter {
    if text.starts_with(b"S") {
        Letter::S
    } else {
        Letter::C
    }
}

// Writes the index of a cell.
fn put_index<R: Print + Tell>(stdout: &Output<'_, R>, cell: Cell) {
    match cells::index_of(cell) {
        Ok(index) => print!(stdout; "{index} "),
        Err(why) => desk_lines::put_refusal(stdout, why, b" "),
    }
}

// Writes a letter.
fn put_letter<R: Print + Tell>(stdout: &Output<'_, R>, letter: Letter) {
    match letter {
        Letter::C => print!(stdout; "C "),
        Letter::S => print!(stdout; "S "),
    }
}

// Writes the cell of an index.
fn put_cell<R: Print + Tell>(stdout: &Output<'_, R>, index: u32) {
    match cells::cell_at(index) {
        Ok(cell) => {
            let Cell {
                letter,
                degree,
                order,
            } = cell;
            put_letter(stdout, letter);
            print!(stdout; "{degree} {order} ");
        }
        Err(why) => desk_lines::put_refusal(stdout, why, b" "),
    }
}

// Writes whether a parameter may have an index, and ends the line.
fn put_parameter<R: Print + Tell>(stdout: &Output<'_, R>, index: u32) {
    if arc_limits::is_parameter(index) {
        print!(stdout; "parameter\n");
    } else {
        print!(stdout; "never\n");
    }
}

// A line `cell INDEX LETTER DEGREE ORDER ..`, written anew: the index from the line's cell, and all else from its index.
fn run_cell<R: Print + Tell>(stdout: &Output<'_, R>, line: &[u8]) {
    let index = desk_lines::small(line, 1);
    let cell = Cell {
        letter: letter_of(desk_lines::from_word(line, 2)),
        degree: desk_lines::small(line, 3),
        order: desk_lines::small(line, 4),
    };
    print!(stdout; "cell ");
    put_index(stdout, cell);
    put_cell(stdout, index);
    put_parameter(stdout, index);
}

// ---- units

// Writes the unit of a double of a type, and ends the line.
fn put_unit_of<R: Print + Tell>(stdout: &Output<'_, R>, kind: u32, x: f64) {
    match unit_convert::unit_of(kind, x) {
        Ok(q) => print!(stdout; "ok {q}\n"),
        Err(why) => desk_lines::put_refusal(stdout, why, b"\n"),
    }
}

// Writes the pattern of the double of a unit of a type, and ends the line.
fn put_double_of<R: Print + Tell>(stdout: &Output<'_, R>, kind: u32, q: i64) {
    match unit_convert::double_of_unit(kind, q) {
        Ok(x) => print!(stdout; "ok {:016x}\n", f64::to_bits(x)),
        Err(why) => desk_lines::put_refusal(stdout, why, b"\n"),
    }
}

// Writes the unit that comes back from the double of a unit of a type, and ends the line.
fn put_back_of<R: Print + Tell>(stdout: &Output<'_, R>, kind: u32, q: i64) {
    match unit_convert::double_of_unit(kind, q) {
        Ok(x) => put_unit_of(stdout, kind, x),
        Err(why) => desk_lines::put_refusal(stdout, why, b"\n"),
    }
}

// A line `unit TYPE PATTERN -> ..`, written anew.
fn run_unit<R: Print + Tell>(stdout: &Output<'_, R>, line: &[u8]) {
    let kind = desk_lines::small(line, 1);
    let pattern = desk_lines::hex(desk_lines::from_word(line, 2));
    print!(stdout; "unit {kind} {pattern:016x} -> ");
    put_unit_of(stdout, kind, unit_bits::double_of_bits(pattern));
}

// The unit that a line `WORD TYPE UNIT -> ..` asks about.
fn unit_in(line: &[u8]) -> i64 {
    desk_lines::signed(desk_lines::from_word(line, 2))
}

// A line `double TYPE UNIT -> ..`, written anew.
fn run_double<R: Print + Tell>(stdout: &Output<'_, R>, line: &[u8]) {
    let kind = desk_lines::small(line, 1);
    let q = unit_in(line);
    print!(stdout; "double {kind} {q} -> ");
    put_double_of(stdout, kind, q);
}

// A line `back TYPE UNIT -> ..`, written anew: the unit becomes a double, and the double a unit again.
fn run_back<R: Print + Tell>(stdout: &Output<'_, R>, line: &[u8]) {
    let kind = desk_lines::small(line, 1);
    let q = unit_in(line);
    print!(stdout; "back {kind} {q} -> ");
    put_back_of(stdout, kind, q);
}

// ---- units of doubles of every exponent

// What was answered: how many units, 15 and 16, and a checksum of the units in their order.
#[derive(Clone, Copy, Default)]
struct Told {
    units: u64,
    not_finite: u64,
    out_of_limits: u64,
    sum: u64,
}

// One unit more.
fn with_unit(told: Told, q: i64) -> Told {
    Told {
        units: told.units.wrapping_add(1),
        sum: (told.sum % 4294967296 * 31 + q.cast_unsigned() % 281474976710656) % 4294967291,
        ..told
    }
}

// One refusal more.
fn with_refusal(told: Told, number: u32) -> Told {
    match number {
        15 => Told {
            not_finite: told.not_finite.wrapping_add(1),
            ..told
        },
        16 => Told {
            out_of_limits: told.out_of_limits.wrapping_add(1),
            ..told
        },
        _ => told,
    }
}

// One double more, by its pattern.
fn with_pattern(told: Told, kind: u32, pattern: u64) -> Told {
    match unit_convert::unit_of(kind, unit_bits::double_of_bits(pattern)) {
        Ok(q) => with_unit(told, q),
        Err(why) => with_refusal(told, refusal::number(why)),
    }
}

// The four fractions of a sign and an exponent: 0, 1, all ones, and a half, which is the first of the 52 bits alone.
fn with_fractions(told: Told, kind: u32, first: u64) -> Told {
    [0, 1, 0xf_ffff_ffff_ffff, 0x8_0000_0000_0000u64]
        .iter()
        .fold(told, |told, fraction| {
            with_pattern(told, kind, first | *fraction)
        })
}

// Both signs of an exponent.
fn with_exponent(told: Told, kind: u32, exponent: u64) -> Told {
    let first = exponent % 2048 * 0x10_0000_0000_0000;
    with_fractions(
        with_fractions(told, kind, first),
        kind,
        0x8000_0000_0000_0000 + first,
    )
}

// The 64 exponents of a block.
fn told_of(kind: u32, block: u64) -> Told {
    let first = block % 32 * 64;
    (first..first + 64).fold(Told::default(), |told, exponent| {
        with_exponent(told, kind, exponent)
    })
}

// A line `field TYPE BLOCK -> ..`, written anew: what the doubles of 64 exponents' fields, both signs and four fractions give.
fn run_field<R: Print + Tell>(stdout: &Output<'_, R>, line: &[u8]) {
    let kind = desk_lines::small(line, 1);
    let block = desk_lines::small(line, 2);
    let Told {
        units,
        not_finite,
        out_of_limits,
        sum,
    } = told_of(kind, u64::from(block));
    print!(stdout;
        "field {kind} {block} -> ok {units} refused 15 {not_finite} refused 16 {out_of_limits} sum {sum}\n"
    );
}

// ---- lines

// A line of any kind, told by its third byte: `day`, `date`, `cell`, `unit`, `double`, `back` or `field`. Of another line nothing is written.
fn run_line<R: Print + Tell>(stdout: &Output<'_, R>, line: &[u8]) {
    match line.get(2) {
        Some(b'y') => run_day(stdout, line),
        Some(b't') => run_date(stdout, line),
        Some(b'l') => run_cell(stdout, line),
        Some(b'i') => run_unit(stdout, line),
        Some(b'u') => run_double(stdout, line),
        Some(b'c') => run_back(stdout, line),
        Some(b'e') => run_field(stdout, line),
        _ => {}
    }
}

fn main(rt: HostRuntime) {
    let stdout = Output::new(&rt);
    let mut buffer = desk_files::zeros::<{ test_runner::INPUT_ROOM }>();
    test_runner::each_line(test_runner::input(&rt, &mut buffer), |line| {
        run_line(&stdout, line);
    });
}
