// The residual of a measurement: observed minus computed, in units.
#![tactic(auto)]

ghost use Rattle.std.specs.Prelude.{◌≡◌};
ghost use Rattle.refusal.specs.Told.{told};
ghost use Rattle.unit_types.specs.Narrow.{Narrow};
ghost use Rattle.unit_measure.specs.Measures.{reading_of};
ghost use Rattle.unit_residual.specs.Residuals.{residual_by, residual_of};

use refusal::Refusal;
use unit_measure::Measurement;
use unit_nearest::NoUnit;
use unit_types::TypeRow;

// Observed minus computed by the row: 15, 16, or r.
fn residual_by(row: TypeRow, observed: f64, computed: f64) -> Result<i64, Refusal>
    requires { Narrow row }
    ensures { told result ≡ residual_by row observed computed }
{
    let o = unit_turn::unit_in(row, observed);
    let c = unit_turn::unit_in(row, computed);
    match o {
        Err(NoUnit::NotFinite) => Err(Refusal::NotFinite),
        Err(NoUnit::OutOfLimits) => match c {
            Err(NoUnit::NotFinite) => Err(Refusal::NotFinite),
            Err(NoUnit::OutOfLimits) => Err(Refusal::UnitLimits),
            Ok(_) => Err(Refusal::UnitLimits),
        },
        Ok(p) => {
            let q = c?;
            Ok(unit_turn::apart(row, p, q))
        }
    }
}

// Observed minus computed in units: 15, 16, or r.
pub fn residual(m: Measurement) -> Result<i64, Refusal>
    ensures { told result ≡ residual_of (reading_of m) }
{
    let r = unit_measure::parts_of(m);
    residual_by(unit_types::table_row(r.kind), r.observed, r.computed)
}
