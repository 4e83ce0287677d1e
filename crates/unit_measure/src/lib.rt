// Measurements: a case a type, each with its two doubles, made of a type's number and taken apart again.
#![tactic(auto)]

ghost use Rattle.std.specs.Prelude.{◌≡◌};
ghost use Rattle.unit_measure.specs.Measures.{reading, reading_of, measured_as, told_measurement};

use refusal::Refusal;

// A measurement: one case a type, each with the observed and the computed double.
#[derive(Clone, Copy)]
pub enum Measurement {
    Range(f64, f64),
    RangeRate(f64, f64),
    CosineL(f64, f64),
    CosineM(f64, f64),
    AngleX(f64, f64),
    AngleY(f64, f64),
    Azimuth(f64, f64),
    Elevation(f64, f64),
    RightAscension(f64, f64),
    Declination(f64, f64),
}

// A measurement's type and its two doubles.
#[derive(Clone, Copy)]
pub struct Reading {
    pub kind: u32,
    pub observed: f64,
    pub computed: f64,
}

// A measurement of a type, or 11: a type that is refused never becomes a case.
pub fn measured(kind: u32, observed: f64, computed: f64) -> Result<Measurement, Refusal>
    ensures { told_measurement result ≡ measured_as kind observed computed }
{
    match kind {
        1 => Ok(Measurement::Range(observed, computed)),
        2 => Ok(Measurement::RangeRate(observed, computed)),
        3 => Ok(Measurement::CosineL(observed, computed)),
        4 => Ok(Measurement::CosineM(observed, computed)),
        5 => Ok(Measurement::AngleX(observed, computed)),
        6 => Ok(Measurement::AngleY(observed, computed)),
        7 => Ok(Measurement::Azimuth(observed, computed)),
        8 => Ok(Measurement::Elevation(observed, computed)),
        9 => Ok(Measurement::RightAscension(observed, computed)),
        10 => Ok(Measurement::Declination(observed, computed)),
        _ => Err(Refusal::NoType),
    }
}

// The type and the two doubles together.
fn reading_of(kind: u32, observed: f64, computed: f64) -> Reading
    ensures { result ≡ reading kind observed computed }
{
    Reading {
        kind,
        observed,
        computed,
    }
}

// A measurement's type and its two doubles.
pub fn parts_of(m: Measurement) -> Reading
    ensures { result ≡ reading_of m }
{
    match m {
        Measurement::Range(o, c) => reading_of(1, o, c),
        Measurement::RangeRate(o, c) => reading_of(2, o, c),
        Measurement::CosineL(o, c) => reading_of(3, o, c),
        Measurement::CosineM(o, c) => reading_of(4, o, c),
        Measurement::AngleX(o, c) => reading_of(5, o, c),
        Measurement::AngleY(o, c) => reading_of(6, o, c),
        Measurement::Azimuth(o, c) => reading_of(7, o, c),
        Measurement::Elevation(o, c) => reading_of(8, o, c),
        Measurement::RightAscension(o, c) => reading_of(9, o, c),
        Measurement::Declination(o, c) => reading_of(10, o, c),
    }
}
