// Inner to `arc_read`: the sections of an arc file after its settings, each read whole or refused at a place.
#![tactic(auto)]

ghost use Rattle.std.specs.Prelude.{◌≡◌, ◌≤◌, length, replicate};
ghost use Rattle.refusal.specs.Told.{told_placed};
ghost use Rattle.num_limits.specs.Capacities.{parameters_most, stations_most};
ghost use Rattle.arc_limits.specs.Limits.{no_label, no_station};
ghost use Rattle.byte_section.specs.Section.{records};
ghost use Rattle.arc_sections.specs.Sections.{run_left, labels_part, stations_part, records_part};

use arc_kinds::Record;
use arc_limits::{Label, Station};
use byte_section::Span;
use num_limits::{
    PARAMETERS_MOST, PARAMETERS_U32, PARTIAL_SIZE, RECORD_FIXED, RECORDS_U32, STATIONS_MOST,
    STATIONS_U32,
};
use refusal::{Fault, Refusal};

// The labels that were read, and the place after them; slots past the count are 0.
#[derive(Clone, Copy)]
pub struct Labels {
    pub count: usize,
    pub labels: [Label; PARAMETERS_MOST],
    pub next: usize,
}

// The stations that were read, likewise.
#[derive(Clone, Copy)]
pub struct Stations {
    pub count: usize,
    pub listed: [Station; STATIONS_MOST],
    pub next: usize,
}

// ---- labels and stations

pub fn no_labels() -> [Label; PARAMETERS_MOST]
    ensures { result ≡ replicate parameters_most no_label }
{
    [Label {
        kind: 0,
        index: 0,
        weight: 0,
        estimate: 0,
    }; PARAMETERS_MOST]
}

pub fn no_stations() -> [Station; STATIONS_MOST]
    ensures { result ≡ replicate stations_most no_station }
{
    [Station {
        number: 0,
        correction: 0,
    }; STATIONS_MOST]
}

// The records from `start` on, one for each slot: the place after them.
fn fill<R: Record>(s: &[u8], start: usize, slots: &mut [R]) -> Result<usize, Fault>
    requires { start ≤ length s.now }
    ensures { run_left (told_placed result) slots.new ≡ records R.kind s.now (length slots.old) start 0 }
{
    let mut at = start;
    let mut floor: u64 = 0;
    for i in 0..slots.len() {
        let item: R = arc_kinds::read_record(s, at, floor)?;
        slots[i] = item;
        floor = item.floor_after();
        at += R::SIZE;
    }
    Ok(at)
}

// The parameters section: its count, from 1 to 50, then its records.
pub fn read_labels(s: &[u8], at: usize) -> Result<Labels, Fault>
    ensures { told_placed result ≡ labels_part s.now at }
{
    let count = byte_section::read_count(s, at, 1, PARAMETERS_U32)?;
    let mut labels = no_labels();
    let next = fill(s, at + 4, &mut labels[..count])?;
    Ok(Labels {
        count,
        labels,
        next,
    })
}

// The stations section: its count, from 0 to 16, then its records.
pub fn read_stations(s: &[u8], at: usize) -> Result<Stations, Fault>
    ensures { told_placed result ≡ stations_part s.now at }
{
    let count = byte_section::read_count(s, at, 0, STATIONS_U32)?;
    let mut listed = no_stations();
    let next = fill(s, at + 4, &mut listed[..count])?;
    Ok(Stations {
        count,
        listed,
        next,
    })
}

// ---- records

// The records section: its count, from 0 to 65,535, then its records, which are judged by their length alone.
pub fn read_records(s: &[u8], at: usize, parameters: usize) -> Result<Span, Fault>
    requires { parameters ≤ parameters_most }
    ensures { told_placed result ≡ records_part s.now at parameters }
{
    let count = byte_section::read_count(s, at, 0, RECORDS_U32)?;
    let start = at + 4;
    let needed = count * (RECORD_FIXED + PARTIAL_SIZE * parameters);
    if s.len() - start < needed {
        Err(Fault {
            why: Refusal::Short,
            place: s.len(),
        })
    } else {
        Ok(Span {
            count,
            next: start + needed,
        })
    }
}
