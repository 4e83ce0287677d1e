// Inner to `take`: one record fitted to its heading, by numbers alone: 1, 3, 10 to 16, or what is kept of it.
#![tactic(auto)]

ghost use Rattle.std.specs.Prelude.{◌≡◌, true, ◌*◌, ◌≤◌, ◌<◌, length};
ghost use Rattle.refusal.specs.Told.{told};
ghost use Rattle.num_limits.specs.Capacities.{parameters_most};
ghost use Rattle.num_whole.specs.Answer.{refused};
ghost use Rattle.num_whole.specs.Tests.{pick};
ghost use Rattle.arc_limits.specs.Limits.{settings_ok};
ghost use Rattle.arc_heading.specs.Judge.{find_from};
ghost use Rattle.unit_types.specs.Types.{is_type};
ghost use Rattle.unit_measure.specs.Measures.{reading};
ghost use Rattle.unit_residual.specs.Residuals.{residual_of};
ghost use Rattle.take_laws.specs.Taking.{frame};
ghost use Rattle.take_fit.specs.Fit.{Listed, Decoded, fitted, timed};

use arc_limits::Settings;
use arc_record::Record;
use num_limits::{PARTIAL_SIZE, RECORD_FIXED};
use refusal::Refusal;
use unit_types::TypeRow;

// A record that fits its heading: its row and column in the state, its time, its sigma and residual, its type's step and F.
#[derive(Clone, Copy)]
pub struct Fit {
    pub place: usize,
    pub column: usize,
    pub time: u64,
    pub sigma: u16,
    pub residual: i64,
    pub step: u64,
    pub factor: u64,
}

// Where a number stands in a list of stations' numbers, or 10.
fn find(numbers: &[u16], number: u16) -> Result<usize, Refusal>
    ensures { told result ≡ find_from number 0 numbers.now }
{
    for i in 0..numbers.len() {
        if numbers[i] == number {
            return Ok(i);
        }
    }
    Err(Refusal::NoStation)
}

// The residual of a record: 11, 15, 16, or r.
fn residual_of(r: Record) -> Result<i64, Refusal>
    ensures { told result ≡ pick (is_type r.kind) (residual_of (reading r.kind r.observed r.computed)) (refused 11) }
{
    unit_residual::residual(unit_measure::measured(r.kind, r.observed, r.computed)?)
}

// The corrected time of a clock's reading: 13, 14, or t, which is not below 0 in the window.
fn time_of(settings: Settings, day: u32, ms: u32, correction: i32) -> Result<u64, Refusal>
    requires { settings_ok settings ≡ true }
    ensures { told result ≡ timed settings day ms correction }
{
    if !take_rules::clock_ok(day, ms) {
        return Err(Refusal::Clock);
    }
    let t = take_rules::time(day, ms, correction);
    if !take_rules::in_window(settings.first, settings.days, t) {
        return Err(Refusal::Window);
    }
    Ok(t as u64)
}

// 12 to 16 for a record of a listed station and of a type.
fn fit_listed(
    settings: Settings,
    place: usize,
    correction: i32,
    row: TypeRow,
    r: Record,
) -> Result<Fit, Refusal>
    requires { (settings_ok settings ≡ true) × (is_type r.kind ≡ true) }
    ensures { Listed settings place correction row r result }
{
    if !take_rules::sigma_ok(r.sigma) {
        return Err(Refusal::Sigma);
    }
    let time = time_of(settings, r.day, r.ms, correction)?;
    let residual = residual_of(r)?;
    Ok(Fit {
        place,
        column: (r.kind - 1) as usize,
        time,
        sigma: r.sigma,
        residual,
        step: row.step,
        factor: row.factor,
    })
}

// 10 to 16 for a record.
fn fit_record(
    settings: Settings,
    numbers: &[u16],
    corrections: &[i32],
    r: Record,
) -> Result<Fit, Refusal>
    requires settings_value { settings_ok settings ≡ true }
    requires numbers_in_bounds { length numbers.now ≤ length corrections.now }
    ensures { Decoded settings numbers.now corrections.now r result }
{
    let place = find(numbers, r.station)?;
    let row = unit_types::row_of(r.kind)?;
    fit_listed(settings, place, corrections[place], row, r)
}

// 1, 3, 10 to 16, or what is kept of a record that fits its heading.
pub fn fits(
    settings: Settings,
    parameters: usize,
    numbers: &[u16],
    corrections: &[i32],
    bytes: &[u8],
) -> Result<Fit, Refusal>
    requires settings_value { (settings_ok settings ≡ true) × (parameters ≤ parameters_most) }
    requires numbers_in_bounds { length numbers.now ≤ length corrections.now }
    ensures { told result ≡ fitted (frame settings parameters numbers.now corrections.now) bytes.now }
{
    let size = RECORD_FIXED + PARTIAL_SIZE * parameters;
    if bytes.len() < size {
        return Err(Refusal::Short);
    }
    if size < bytes.len() {
        return Err(Refusal::Surplus);
    }
    fit_record(settings, numbers, corrections, arc_record::decode(bytes))
}
