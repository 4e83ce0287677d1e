// The heading of an arc, by value: its settings, labels and stations, and the judging of one that is handed in.
#![tactic(auto)]

ghost use Rattle.std.specs.Prelude.{◌≡◌, ◌≤◌, ◌<◌};
ghost use Rattle.refusal.specs.Told.{told};
ghost use Rattle.num_limits.specs.Capacities.{parameters_most, stations_most};
ghost use Rattle.num_whole.specs.Lists.{all, ascend};
ghost use Rattle.arc_limits.specs.Limits.{label_ok, label_key, station_ok, station_key};
ghost use Rattle.arc_heading.specs.Judge.{labels_of, stations_of, fields_ok, orders_ok, judged};

use arc_limits::{Label, Settings, Station};
use num_limits::{PARAMETERS_MOST, STATIONS_MOST};
use refusal::Refusal;

// Of the labels the first `parameters` count, of the listed stations the first `stations`.
#[derive(Clone, Copy)]
pub struct Heading {
    pub settings: Settings,
    pub parameters: usize,
    pub stations: usize,
    pub labels: [Label; PARAMETERS_MOST],
    pub listed: [Station; STATIONS_MOST],
}

fn labels_ok(h: Heading) -> bool
    requires { h.parameters ≤ parameters_most }
    ensures { result ≡ all label_ok (labels_of h) }
{
    h.labels[..h.parameters]
        .iter()
        .all(|l| arc_limits::label_ok(*l))
}

fn labels_ascend(h: Heading) -> bool
    requires { h.parameters ≤ parameters_most }
    ensures { result ≡ ascend label_key 0 (labels_of h) }
{
    h.labels[..h.parameters].is_sorted_by(|a, b| arc_limits::label_key(*a)
        < arc_limits::label_key(*b))
}

fn stations_ok(h: Heading) -> bool
    requires { h.stations ≤ stations_most }
    ensures { result ≡ all station_ok (stations_of h) }
{
    h.listed[..h.stations]
        .iter()
        .all(|t| arc_limits::station_ok(*t))
}

fn stations_ascend(h: Heading) -> bool
    requires { h.stations ≤ stations_most }
    ensures { result ≡ ascend station_key 0 (stations_of h) }
{
    h.listed[..h.stations].is_sorted_by(|a, b| arc_limits::station_key(*a)
        < arc_limits::station_key(*b))
}

#[tactic(auto, unfolding(crate::specs::Judge::fields_ok, num_whole::specs::Tests::both))]
fn fields_ok(h: Heading) -> bool
    requires { (h.parameters ≤ parameters_most) × (h.stations ≤ stations_most) }
    ensures { result ≡ fields_ok h }
{
    arc_limits::settings_ok(h.settings) && labels_ok(h) && stations_ok(h)
}

#[tactic(auto, unfolding(crate::specs::Judge::orders_ok, num_whole::specs::Tests::both))]
fn orders_ok(h: Heading) -> bool
    requires { (h.parameters ≤ parameters_most) × (h.stations ≤ stations_most) }
    ensures { result ≡ orders_ok h }
{
    labels_ascend(h) && stations_ascend(h)
}

// 2, then 4, then 5, over the whole heading, else sound.
pub fn judge(h: Heading) -> Result<(), Refusal>
    ensures { told result ≡ judged h }
{
    if !arc_limits::numbers_ok(h.parameters, h.stations) {
        return Err(Refusal::Count);
    }
    if !fields_ok(h) {
        return Err(Refusal::Limits);
    }
    if !orders_ok(h) {
        return Err(Refusal::Order);
    }
    Ok(())
}
