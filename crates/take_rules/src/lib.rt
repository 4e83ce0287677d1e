// Inner to `take`: the rules by which one record is judged, each behind one definition.
#![tactic(auto)]

ghost use Rattle.std.specs.Prelude.{◌≡◌, true, ◌+◌, ◌≤◌, ◌^◌, nat_abs};
ghost use Rattle.num_limits.specs.Capacities.{sigma_most, weight_top, last_day, day_after_last};
ghost use Rattle.days_leap.specs.Leap.{last_ms};
ghost use Rattle.take_rules.specs.Rules.{sigma_ok, weight_of, clock_ok, time_of, in_window, passes_edit};

use num_limits::{LAST_DAY, SIGMA_MOST, WEIGHT_TOP};

// The milliseconds of a day without a leap second; no start gains more than this by those before it.
const COMMON_LENGTH: u64 = 86400000;

const GAIN_MOST: u64 = 27000;

#[tactic(auto, unfolding(crate::specs::Rules::sigma_ok))]
pub fn sigma_ok(s: u16) -> bool
    ensures { result ≡ sigma_ok s }
{
    num_whole::within(1, s as u64, SIGMA_MOST)
}

pub fn weight(s: u16) -> u64
    requires { (1 ≤ s) × (s ≤ sigma_most) }
    ensures { (result ≡ weight_of s) × (result ≤ weight_top) }
{
    let n = s as u64;
    let square = n * n;
    let down = WEIGHT_TOP / square;
    if square < 2 * (WEIGHT_TOP % square) {
        down + 1
    } else {
        down
    }
}

#[tactic(auto, using(num_whole::proofs::Cases::between_true), unfolding(crate::specs::Rules::clock_ok, num_whole::specs::Tests::both))]
pub fn clock_ok(day: u32, ms: u32) -> bool
    ensures { result ≡ clock_ok day ms }
{
    num_whole::within(1, u64::from(day), LAST_DAY) && days_leap::in_day(day, ms)
}

pub fn time(day: u32, ms: u32, correction: i32) -> i64
    requires { (day ≤ last_day) × (ms ≤ last_ms day) }
    ensures { result ≡ time_of day ms correction }
{
    let clock = days_leap::start(day) + ms as u64;
    clock as i64 + correction as i64
}

// Whether a time lies in the window whatever leap seconds there are before it: for most records no end of the window is looked up.
fn well_inside(first: u32, days: u16, t: i64) -> bool
    requires { (first ≤ day_after_last) × (first + days ≤ day_after_last) }
    ensures { result ≡ true → in_window first days t ≡ true }
{
    let from = first as u64 * COMMON_LENGTH + GAIN_MOST;
    let until = (first as u64 + days as u64) * COMMON_LENGTH;
    from as i64 <= t && t < until as i64
}

// Whether a time lies in the window, by its two ends.
fn between_ends(first: u32, days: u16, t: i64) -> bool
    requires { (first ≤ day_after_last) × (first + days ≤ day_after_last) }
    ensures { result ≡ in_window first days t }
{
    let from = days_leap::start(first);
    let end = days_leap::start(first + days as u32);
    from as i64 <= t && t < end as i64
}

pub fn in_window(first: u32, days: u16, t: i64) -> bool
    requires { (first ≤ day_after_last) × (first + days ≤ day_after_last) }
    ensures { result ≡ in_window first days t }
{
    well_inside(first, days, t) || between_ends(first, days, t)
}

pub fn passes_edit(level: u16, s: u16, step: u64, r: i64) -> bool
    requires { (step ≤ 256) × (nat_abs r ≤ 2 ^ 41) }
    ensures { result ≡ passes_edit level s step r }
{
    10 * num_signs::magnitude(r) <= level as u64 * s as u64 * step
}
