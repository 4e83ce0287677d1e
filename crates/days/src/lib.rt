// Calendar days: from a date to its day number and back, for every input.
#![tactic(auto)]

ghost use Rattle.std.specs.Prelude.{◌≡◌, true, ◌+◌, ◌-◌, ◌≤◌};
ghost use Rattle.refusal.specs.Told.{told};
ghost use Rattle.num_limits.specs.Capacities.{last_day};
ghost use Rattle.days.specs.Calendar.{
  leap,
  month_length,
  days_of_months,
  days_of_years,
  is_date,
  day_number,
  day_of_date,
  date_of_day,
};
ghost use Rattle.days.specs.Parts.{InYear};

use num_limits::LAST_DAY;
use refusal::Refusal;

// A day of the calendar; a value may also be no day at all.
#[derive(Clone, Copy, PartialEq, Eq, Debug)]
pub struct Date {
    pub year: u32,
    pub month: u32,
    pub day: u32,
}

// Whether a year is a leap year.
#[tactic(auto, unfolding(crate::specs::Calendar::leap, num_whole::specs::Tests::both, num_whole::specs::Tests::either, num_whole::specs::Tests::same))]
fn is_leap(year: u32) -> bool
    ensures { result ≡ leap year }
{
    year % 4 == 0 && (year % 100 != 0 || year % 400 == 0)
}

// The days of a month.
fn month_length(year: u32, month: u32) -> u32
    ensures { result ≡ month_length year month }
{
    match month {
        2 => if is_leap(year) { 29 } else { 28 },
        4 | 6 | 9 | 11 => 30,
        _ => 31,
    }
}

// The days of the first n months of a year.
fn months_days(year: u32, n: u32) -> u32
    requires { n ≤ 12 }
    ensures { result ≡ days_of_months year n }
{
    let mut days = 0;
    for i in 0..n {
        days += month_length(year, i + 1);
    }
    days
}

// The days of the n years from 1950 on: every fourth of them is a leap year, the first 1952.
fn years_days(n: u32) -> u32
    requires { n ≤ 150 }
    ensures { result ≡ days_of_years n }
{
    365 * n + (n + 1) / 4
}

// Whether a date is a day of the years 1950 to 2099.
#[tactic(auto, unfolding(crate::specs::Calendar::is_date, num_whole::specs::Tests::both))]
fn is_date(date: Date) -> bool
    ensures { result ≡ is_date date }
{
    let longest = month_length(date.year, date.month);
    num_whole::within(1950, u64::from(date.year), 2099)
        && num_whole::within(1, u64::from(date.month), 12)
        && num_whole::within(1, u64::from(date.day), u64::from(longest))
}

// The year in which a day number lies: four years have 1,461 days.
fn year_of(number: u32) -> u32
    requires { (1 ≤ number) × (number ≤ last_day) }
    ensures { InYear number result }
{
    1950 + (4 * number - 2) / 1461
}

// The date of a day of a year, the first of which is 1.
fn date_in_year(year: u32, number: u32) -> Date
    requires { (1950 ≤ year) × (year ≤ 2099) × (1 ≤ number) × (number ≤ days_of_months year 12) }
    ensures { (is_date result ≡ true) × (day_number result ≡ days_of_years (year - 1950) + number) }
{
    let mut month = 1;
    let mut day = number;
    let mut length = month_length(year, month);
    while length < day {
        day -= length;
        month += 1;
        length = month_length(year, month);
    }
    Date { year, month, day }
}

// The number of a date, or 4 where it is no day of the years 1950 to 2099.
pub fn day_of_date(date: Date) -> Result<u32, Refusal>
    ensures { told result ≡ day_of_date date }
{
    if is_date(date) {
        let years = years_days(date.year - 1950);
        let months = months_days(date.year, date.month - 1);
        Ok(years + months + date.day)
    } else {
        Err(Refusal::Limits)
    }
}

// The date of a day number, or 4 where it is not 1 to 54,787.
pub fn date_of_day(number: u32) -> Result<Date, Refusal>
    ensures { told result ≡ date_of_day number }
{
    if num_whole::within(1, number as u64, LAST_DAY) {
        let year = year_of(number);
        let before = years_days(year - 1950);
        Ok(date_in_year(year, number - before))
    } else {
        Err(Refusal::Limits)
    }
}
