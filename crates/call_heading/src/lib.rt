// A heading in lent bytes, read and written: what callers that have numbers and slices only hand in and get back.
#![tactic(auto)]

ghost use Rattle.std.specs.Prelude.{◌≡◌, ◌≤◌, min};
ghost use Rattle.num_limits.specs.Capacities.{parameters_most, stations_most};
ghost use Rattle.byte_words.specs.Words.{word, lay};
ghost use Rattle.arc_limits.specs.Limits.{no_label, no_station};
ghost use Rattle.arc_kinds.specs.Kinds.{label_at, station_at};
ghost use Rattle.num_whole.specs.Lists.{padded};
ghost use Rattle.byte_words.specs.Stands.{stands};
ghost use Rattle.call_heading.specs.Lent.{heading_in, heading_bytes, has_heading, has_both, head_number};

use arc_fields::Put;
use arc_heading::Heading;
use arc_limits::{Label, Station};
use num_limits::{PARAMETERS_MOST, STATIONS_MOST};

// ---- reading

// A number of labels or stations; past its capacity it stands as the capacity.
fn held(b: &[u8], at: usize, most: usize) -> usize
    ensures { result ≡ min (word 2 b.now at) most }
{
    usize::from(byte_read::read_u16(b, at)).min(most)
}

// Whether the bytes are as many as their own numbers want.
pub fn has_heading(b: &[u8]) -> bool
    ensures { result ≡ has_heading b.now }
{
    16 + 16 * held(b, 12, PARAMETERS_MOST) + 8 * held(b, 14, STATIONS_MOST) <= b.len()
}

// The first n labels; slots past them are 0.
fn labels_in(b: &[u8], n: usize) -> [Label; PARAMETERS_MOST]
    requires { n ≤ parameters_most }
    ensures { result ≡ padded parameters_most no_label (stands (label_at b.now) 16 n 16) }
{
    let mut labels = [Label {
        kind: 0,
        index: 0,
        weight: 0,
        estimate: 0,
    }; PARAMETERS_MOST];
    let mut at: usize = 16;
    for i in 0..n {
        labels[i] = arc_kinds::load_label(b, at);
        at += 16;
    }
    labels
}

// The first n stations, from a place on; slots past them are 0.
fn stations_in(b: &[u8], start: usize, n: usize) -> [Station; STATIONS_MOST]
    requires { (start ≤ 816) × (n ≤ stations_most) }
    ensures { result ≡ padded stations_most no_station (stands (station_at b.now) 8 n start) }
{
    let mut listed = [Station {
        number: 0,
        correction: 0,
    }; STATIONS_MOST];
    let mut at = start;
    for i in 0..n {
        listed[i] = arc_kinds::load_station(b, at);
        at += 8;
    }
    listed
}

// The heading that bytes hold, whatever they are.
pub fn heading_in(b: &[u8]) -> Heading
    ensures { result ≡ heading_in b.now }
{
    let n = held(b, 12, PARAMETERS_MOST);
    let m = held(b, 14, STATIONS_MOST);
    Heading {
        settings: arc_kinds::load_settings(b, 0),
        parameters: byte_read::read_u16(b, 12) as usize,
        stations: byte_read::read_u16(b, 14) as usize,
        labels: labels_in(b, n),
        listed: stations_in(b, 16 + 16 * n, m),
    }
}

// ---- writing

// A heading's bytes at the front of a room; a byte for which there is no room is dropped.
pub fn put_heading(h: Heading, out: &mut [u8])
    requires { (h.parameters ≤ parameters_most) × (h.stations ≤ stations_most) }
    ensures { out.new ≡ lay out.old 0 (heading_bytes h) }
{
    h.settings.put(out, 0);
    byte_write::write_u16(out, 12, h.parameters as u16);
    byte_write::write_u16(out, 14, h.stations as u16);
    arc_put::put_all(&h.labels[..h.parameters], out, 16);
    arc_put::put_all(&h.listed[..h.stations], out, 16 + 16 * h.parameters);
}

// Whether a heading and a tally are there whole.
#[tactic(auto, unfolding(num_whole::specs::Tests::both))]
pub fn has_both(heading: &[u8], tally: &[u8]) -> bool
    ensures { result ≡ has_both heading.now tally.now }
{
    has_heading(heading) && call_tally::has_tally(tally)
}

// What is wrong with a heading before its fields are judged, in writing: 20 for its numbers, 2, 20 for the whole; 0 where nothing is.
pub fn judge_head(heading: &[u8]) -> u32
    ensures { result ≡ head_number heading.now }
{
    if heading.len() < 16 {
        return 20;
    }
    let h = heading_in(heading);
    if arc_limits::numbers_ok(h.parameters, h.stations) {
        if has_heading(heading) { 0 } else { 20 }
    } else {
        2
    }
}
