// Units: doubles to whole units by their type, and back.
#![tactic(auto)]

ghost use Rattle.std.specs.Prelude.{◌≡◌};
ghost use Rattle.refusal.specs.Told.{told};
ghost use Rattle.num_whole.specs.Answer.{given, refused};
ghost use Rattle.num_whole.specs.Tests.{pick};
ghost use Rattle.unit_nearest.specs.Doubles.{fits_in, unit_within, quotient};
ghost use Rattle.unit_types.specs.Narrow.{Narrow};
ghost use Rattle.unit_turn.specs.Turning.{top_of};
ghost use Rattle.unit_convert.specs.Units.{turned, unit_of, double_of};

use refusal::Refusal;
use unit_nearest::NoUnit;
use unit_types::TypeRow;

// The unit of a double by its row: 15, 16, or q.
fn unit_by(row: TypeRow, x: f64) -> Result<i64, Refusal>
    requires { Narrow row }
    ensures { told result ≡ turned row (unit_within row.k row.low row.high x) }
{
    let q = unit_turn::unit_in(row, x)?;
    Ok(unit_turn::on_circle(row, q))
}

// The unit of a double of a type: 11, 15, 16, or q.
pub fn unit_of(kind: u32, x: f64) -> Result<i64, Refusal>
    ensures { told result ≡ unit_of kind x }
{
    let row = unit_types::row_of(kind)?;
    unit_by(row, x)
}

// Whether a unit may become a double of a row.
fn allowed(row: TypeRow, q: i64) -> bool
    ensures { result ≡ fits_in row.low (top_of row) q }
{
    row.low <= q && q <= unit_turn::top_of(row)
}

// The double of a unit by its row: 16, or the double.
fn double_by(row: TypeRow, q: i64) -> Result<f64, Refusal>
    requires { Narrow row }
    ensures { told result ≡ pick (fits_in row.low (top_of row) q) (given (quotient row.k q)) (refused 16) }
{
    if allowed(row, q) {
        Ok(unit_nearest::double_of(q, row.k))
    } else {
        Err(Refusal::UnitLimits)
    }
}

// The double of a unit of a type: 11, 16, or the double, with nothing lost.
pub fn double_of_unit(kind: u32, q: i64) -> Result<f64, Refusal>
    ensures { told result ≡ double_of kind q }
{
    let row = unit_types::row_of(kind)?;
    double_by(row, q)
}
