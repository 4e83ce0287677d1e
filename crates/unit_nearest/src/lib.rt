// Inner to `unit_convert`: a double in units of 2 ^ -k, and a unit as a double. The way to a unit reads the double's bits and goes on in whole
// numbers and shifts, a function a step; docs/ROUNDING.md walks four doubles through it.
#![tactic(auto)]

ghost use Rattle.std.specs.Prelude.{◌≡◌, ◌+◌, ◌*◌, ◌^◌, ◌≤◌, ◌<◌, nat_abs};
ghost use Rattle.std.specs.Float.Ieee.Nearest.{closest};
ghost use Rattle.std.specs.Float.Ieee.Scale.{finite};
ghost use Rattle.unit_nearest.specs.Doubles.{unit_within, within, signed, hidden, quotient, told_nearest};
ghost use Rattle.unit_nearest.specs.Steps.{fields_of, ratio_unit, fields_unit};
ghost use Rattle.unit_nearest.specs.NoUnits.{refusal_of};

use refusal::Refusal;

// 2 ^ 52, the bit before the fraction's 52.
const HIDDEN: u64 = 0x10_0000_0000_0000;

// Why a double has no unit.
#[derive(Clone, Copy)]
pub enum NoUnit {
    NotFinite,
    OutOfLimits,
}

impl From<NoUnit> for Refusal {
    ghost from_gives = { λ why r. r ≡ refusal_of why };

    fn from(why: NoUnit) -> Refusal {
        match why {
            NoUnit::NotFinite => Refusal::NotFinite,
            NoUnit::OutOfLimits => Refusal::UnitLimits,
        }
    }
}

// The fields of a double (IEEE 754, 3.4): its sign, its exponent's field and its fraction.
#[derive(Clone, Copy)]
struct Fields {
    negative: bool,
    exponent: u64,
    fraction: u64,
}

// 2 ^ k
fn power(k: u64) -> u64
    requires { k < 64 }
    ensures { result ≡ 2 ^ k }
{
    1u64 << k
}

// Whether x is a number: no infinity, and no not-a-number, whose bits the language does not read. Nothing is worked out here: two comparisons.
fn is_finite(x: f64) -> bool
    ensures { result ≡ finite x }
{
    let top = f64::from_bits(0x7ff0_0000_0000_0000);
    let bottom = f64::from_bits(0xfff0_0000_0000_0000);
    if x < top { bottom < x } else { false }
}

// The fields of a pattern of 64 bits: 1 bit, 11 bits and 52 bits.
fn fields_of(pattern: u64) -> Fields
    ensures { result ≡ fields_of pattern }
{
    Fields {
        negative: 0x8000_0000_0000_0000 <= pattern,
        exponent: pattern % 0x8000_0000_0000_0000 / 0x10_0000_0000_0000,
        fraction: pattern % 0x10_0000_0000_0000,
    }
}

// The hidden bit: none on zero and on subnormal numbers, whose exponent's field is 0; on normal ones it stands before the fraction.
fn hidden_bit(exponent: u64) -> u64
    ensures { result ≡ hidden exponent }
{
    if exponent == 0 { 0 } else { HIDDEN }
}

// The digits of a number: its fraction, with the hidden bit before it.
fn digits_of(f: Fields) -> u64
    requires { f.fraction < 2 ^ 52 }
    ensures is { result ≡ hidden f.exponent + f.fraction }
    ensures few { result < 2 ^ 53 }
{
    hidden_bit(f.exponent) + f.fraction
}

// digits / 2 ^ shift to the nearest whole number, a tie to the even one, for every shift. To add half a unit and cut off rounds a tie up; where
// the whole part is even already, a grain less is added, and the tie stays down. All is doubled, for a unit of 1 has no half.
fn shifted(digits: u64, shift: u64) -> u64
    requires { digits < 2 ^ 53 }
    ensures is { result ≡ closest digits (2 ^ shift) }
    ensures small { result ≤ 2 ^ 53 }
{
    if 63 < shift {
        return 0;
    }
    let unit = power(shift);
    let whole = digits >> shift;
    (2 * digits + unit - 1 + whole % 2) / unit / 2
}

// n, or -n; there is one 0.
fn signed_of(negative: bool, n: u64) -> i64
    requires { n ≤ 2 ^ 53 }
    ensures { result ≡ signed negative n }
{
    let q = n as i64;
    if negative {
        return -q;
    }
    q
}

// A whole number, where it is from low to high.
fn limited(q: i64, low: i64, high: i64) -> Result<i64, NoUnit>
    ensures { told_nearest result ≡ within low high q }
{
    if low <= q {
        if q <= high {
            return Ok(q);
        }
    }
    Err(NoUnit::OutOfLimits)
}

// The unit of digits / 2 ^ shift with a sign.
fn shifted_unit(negative: bool, digits: u64, shift: u64, low: i64, high: i64) -> Result<i64, NoUnit>
    requires { digits < 2 ^ 53 }
    ensures { told_nearest result ≡ ratio_unit low high negative digits (2 ^ shift) }
{
    limited(signed_of(negative, shifted(digits, shift)), low, high)
}

// The unit of digits * 2 ^ place / 2 ^ 1075 with a sign, the digits with their hidden bit: past 1075 they are shifted to the left, to 2 ^ 53 units
// or more, out of all limits.
fn placed_unit(negative: bool, digits: u64, place: u64, low: i64, high: i64) -> Result<i64, NoUnit>
    requires { (2 ^ 52 ≤ digits) × (digits < 2 ^ 53) × (nat_abs low ≤ 2 ^ 40) × (nat_abs high ≤ 2 ^ 40) }
    ensures { told_nearest result ≡ ratio_unit low high negative (digits * 2 ^ place) (2 ^ 1075) }
{
    if 1075 < place {
        return Err(NoUnit::OutOfLimits);
    }
    shifted_unit(negative, digits, 1075 - place, low, high)
}

// The unit of a number by its fields. Zero and subnormal numbers, whose field is 0, have the power of two of the field 1.
fn fields_unit(f: Fields, k: u64, low: i64, high: i64) -> Result<i64, NoUnit>
    requires { (f.exponent < 2048) × (f.fraction < 2 ^ 52) × (k ≤ 52) × (nat_abs low ≤ 2 ^ 40) × (nat_abs high ≤ 2 ^ 40) }
    ensures { told_nearest result ≡ fields_unit k low high f }
{
    if f.exponent == 0 {
        return shifted_unit(f.negative, digits_of(f), 1074 - k, low, high);
    }
    placed_unit(f.negative, digits_of(f), f.exponent + k, low, high)
}

// The whole number nearest to x * 2 ^ k, ties to even, where it is from low to high.
pub fn unit_within(x: f64, k: u64, low: i64, high: i64) -> Result<i64, NoUnit>
    requires { (k ≤ 52) × (nat_abs low ≤ 2 ^ 40) × (nat_abs high ≤ 2 ^ 40) }
    ensures { told_nearest result ≡ unit_within k low high x }
{
    if is_finite(x) {
        let f = fields_of(f64::to_bits(x));
        return fields_unit(f, k, low, high);
    }
    Err(NoUnit::NotFinite)
}

// q / 2 ^ k, with nothing lost: a lossless cast and an exact division by a power of two.
pub fn double_of(q: i64, k: u64) -> f64
    requires { (nat_abs q < 2 ^ 53) × (k ≤ 52) }
    ensures { result ≡ quotient k q }
{
    (q as f64) / (power(k) as f64)
}
