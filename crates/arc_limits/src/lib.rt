// Settings, labels and stations of an arc, by value: the limits of their fields, and the order of labels.
#![tactic(auto)]

ghost use Rattle.std.specs.Prelude.{◌≡◌, ◌<◌};
ghost use Rattle.cells.specs.Cells.{is_parameter};
ghost use Rattle.arc_limits.specs.Limits.{
  window_ok,
  settings_ok,
  index_ok,
  label_ok,
  label_key,
  correction_ok,
  station_ok,
  station_key,
  numbers_ok,
};

use num_limits::{ARC_MOST, DAY_AFTER_LAST, PARAMETERS_U64, STATIONS_MOST};

#[derive(Clone, Copy)]
pub struct Settings {
    pub arc: u32,
    pub first: u32,
    pub days: u16,
    pub level: u16,
}

#[derive(Clone, Copy)]
pub struct Label {
    pub kind: u16,
    pub index: u16,
    pub weight: u32,
    pub estimate: i64,
}

#[derive(Clone, Copy)]
pub struct Station {
    pub number: u16,
    pub correction: i32,
}

#[tactic(auto, unfolding(crate::specs::Limits::window_ok, num_whole::specs::Tests::both, num_whole::specs::Tests::up_to, num_whole::specs::Tests::between))]
fn window_ok(first: u32, days: u16) -> bool
    ensures { result ≡ window_ok first days }
{
    num_whole::within(1, u64::from(days), 30)
        && 1 <= first
        && u64::from(first) + u64::from(days) <= DAY_AFTER_LAST
}

#[tactic(auto, unfolding(crate::specs::Limits::settings_ok, num_whole::specs::Tests::both))]
pub fn settings_ok(s: Settings) -> bool
    ensures { result ≡ settings_ok s }
{
    num_whole::within(1, u64::from(s.arc), ARC_MOST)
        && num_whole::within(10, u64::from(s.level), 100)
        && window_ok(s.first, s.days)
}

// Whether a parameter of kind 1 may have this index: a cell's, but none of column 33.
#[tactic(auto, unfolding(cells::specs::Cells::is_parameter, num_whole::specs::Tests::both, num_whole::specs::Tests::less, num_whole::specs::Tests::same))]
pub fn is_parameter(index: u32) -> bool
    ensures { result ≡ is_parameter index }
{
    index < 990 && index % 33 + 1 != 33
}

#[tactic(auto, unfolding(crate::specs::Limits::index_ok, num_whole::specs::Tests::pick, num_whole::specs::Tests::same, num_whole::specs::Tests::less))]
pub fn index_ok(kind: u16, index: u16) -> bool
    ensures { result ≡ index_ok kind index }
{
    match kind {
        1 => is_parameter(u32::from(index)),
        2 => index < 3000,
        3 => index < 6,
        4 => index < 2,
        _ => false,
    }
}

// The greatest prior weight: 2^30.
pub const WEIGHT_MOST: u32 = 1073741824;

#[tactic(auto, unfolding(crate::specs::Limits::label_ok, num_whole::specs::Tests::both, num_whole::specs::Tests::up_to))]
pub fn label_ok(l: Label) -> bool
    ensures { result ≡ label_ok l }
{
    l.weight <= WEIGHT_MOST && index_ok(l.kind, l.index)
}

#[tactic(auto, unfolding(crate::specs::Limits::correction_ok, num_whole::specs::Tests::both))]
fn correction_ok(c: i32) -> bool
    ensures { result ≡ correction_ok c }
{
    -60000 <= c && c <= 60000
}

#[tactic(auto, unfolding(crate::specs::Limits::station_ok, num_whole::specs::Tests::both, num_whole::specs::Tests::up_to))]
pub fn station_ok(t: Station) -> bool
    ensures { result ≡ station_ok t }
{
    t.number <= 999 && correction_ok(t.correction)
}

// The kind and the index of a label as one number.
#[tactic(auto, unfolding(crate::specs::Limits::label_key))]
pub fn label_key(l: Label) -> u64
    ensures { (result ≡ label_key l) × (result < 4294967296) }
{
    u64::from(l.kind) * 65536 + u64::from(l.index)
}

// A station's number, by which stations ascend.
#[tactic(auto, unfolding(crate::specs::Limits::station_key))]
pub fn station_key(t: Station) -> u64
    ensures { (result ≡ station_key t) × (result < 65536) }
{
    u64::from(t.number)
}

// Whether a heading may have so many parameters and stations.
#[tactic(auto, unfolding(num_whole::specs::Tests::both, num_whole::specs::Tests::up_to, num_whole::specs::Tests::between))]
pub fn numbers_ok(parameters: usize, stations: usize) -> bool
    ensures { result ≡ numbers_ok parameters stations }
{
    num_whole::within(1, parameters as u64, PARAMETERS_U64) && stations <= STATIONS_MOST
}
