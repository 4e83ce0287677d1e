// Inner to `wheloruka`: dates and cells put into lent room; cells by their letters' numbers, residuals by their types'.
#![tactic(auto)]

ghost use Rattle.std.specs.Prelude.{◌≡◌, length};
ghost use Rattle.refusal.specs.Told.{told};
ghost use Rattle.call_rooms.specs.Result.{result_number, result_left, told_values};
ghost use Rattle.call_numbers.specs.Given.{date_numbers, letter_number, cell_numbers, index_by, residual_as};

use cells::{Cell, Letter};
use days::Date;
use refusal::Refusal;

// ---- days

// Its year, month and day.
pub fn give_date(out: &mut [u32], answer: Result<Date, Refusal>) -> u32
    ensures value { result ≡ result_number (told_values date_numbers (told answer)) (length out.old) }
    ensures left { out.new ≡ result_left (told_values date_numbers (told answer)) out.old }
{
    match answer {
        Ok(t) => call_rooms::give(out, &[t.year, t.month, t.day]),
        Err(e) => refusal::number(e),
    }
}

// ---- cells

fn letter_number(l: Letter) -> u32
    ensures { result ≡ letter_number l }
{
    match l {
        Letter::C => 67,
        Letter::S => 83,
    }
}

// Its letter's number, its degree and its order.
pub fn give_cell(out: &mut [u32], answer: Result<Cell, Refusal>) -> u32
    ensures value { result ≡ result_number (told_values cell_numbers (told answer)) (length out.old) }
    ensures left { out.new ≡ result_left (told_values cell_numbers (told answer)) out.old }
{
    match answer {
        Ok(c) => call_rooms::give(out, &[letter_number(c.letter), c.degree, c.order]),
        Err(e) => refusal::number(e),
    }
}

// The index of a cell by its letter's number.
pub fn index_by(letter: u32, degree: u32, order: u32) -> Result<u32, Refusal>
    ensures { told result ≡ index_by letter degree order }
{
    match letter {
        67 => cells::index_of(Cell {
            letter: Letter::C,
            degree,
            order,
        }),
        83 => cells::index_of(Cell {
            letter: Letter::S,
            degree,
            order,
        }),
        _ => Err(Refusal::Limits),
    }
}

// ---- residuals

// The residual of a measurement by its type's number.
pub fn residual_as(kind: u32, observed: f64, computed: f64) -> Result<i64, Refusal>
    ensures { told result ≡ residual_as kind observed computed }
{
    unit_residual::residual(unit_measure::measured(kind, observed, computed)?)
}
