// Inner to the writers of an arc file: lengths, and one record of each section put into lent room.
#![tactic(auto)]

ghost use Rattle.std.specs.Prelude.{◌≡◌, ◌+◌, ◌/◌, ◌^◌, ◌≤◌, ◌<◌, ℕ, List, length};
ghost use Rattle.num_limits.specs.Capacities.{parameters_most, records_most, stations_most};
ghost use Rattle.byte_words.specs.Words.{lay};
ghost use Rattle.arc_kinds.specs.Kinds.{settings_bytes, label_bytes, station_bytes, record_size};
ghost use Rattle.arc_kinds.proofs.Records.{length_settings, length_label, length_station};
ghost use Rattle.arc_fields.specs.Sizes.{needed_for};

use arc_limits::{Label, Settings, Station};
use num_limits::{PARTIAL_SIZE, RECORD_FIXED};

// ---- sizes

pub fn record_size(parameters: usize) -> usize
    requires { parameters ≤ parameters_most }
    ensures { result ≡ record_size parameters }
{
    RECORD_FIXED + PARTIAL_SIZE * parameters
}

// How many whole records a run of so many bytes has.
pub fn records_in(parameters: usize, bytes: usize) -> usize
    requires { parameters ≤ parameters_most }
    ensures { result ≡ bytes / record_size parameters }
{
    bytes / record_size(parameters)
}

// The length of the whole file, whose run has so many bytes.
pub fn needed(parameters: usize, stations: usize, bytes: usize) -> usize
    requires { (parameters ≤ parameters_most) × (stations ≤ stations_most) × (bytes / record_size parameters ≤ records_most) }
    ensures { result ≡ needed_for parameters stations bytes }
{
    28 + 16 * parameters + 8 * stations + bytes
}

// ---- the bytes of one record, and of the run

// What a kind of record is written as.
pub trait Put: Copy {
    ghost bytes: { Self → List ℕ };

    ghost SIZE: { ℕ };

    const SIZE: usize;

    // A byte for which there is no room is dropped.
    fn put(self, out: &mut [u8], at: usize)
        requires { at + SIZE < 2 ^ 64 }
        ensures { out.new ≡ lay out.old at (bytes self) };

    ghost sized: { (x : Self) → length (bytes x) ≡ SIZE };
}

impl Put for Settings {
    ghost bytes = { settings_bytes };

    ghost SIZE = { 12 };

    const SIZE: usize = 12;

    fn put(self, out: &mut [u8], at: usize) {
        byte_write::write_u32(out, at, self.arc);
        byte_write::write_u32(out, at + 4, self.first);
        byte_write::write_u16(out, at + 8, self.days);
        byte_write::write_u16(out, at + 10, self.level);
    }

    ghost sized = { length_settings };
}

impl Put for Label {
    ghost bytes = { label_bytes };

    ghost SIZE = { 16 };

    const SIZE: usize = 16;

    fn put(self, out: &mut [u8], at: usize) {
        byte_write::write_u16(out, at, self.kind);
        byte_write::write_u16(out, at + 2, self.index);
        byte_write::write_u32(out, at + 4, self.weight);
        byte_signed::write_i64(out, at + 8, self.estimate);
    }

    ghost sized = { length_label };
}

impl Put for Station {
    ghost bytes = { station_bytes };

    ghost SIZE = { 8 };

    const SIZE: usize = 8;

    fn put(self, out: &mut [u8], at: usize) {
        byte_write::write_u16(out, at, self.number);
        byte_write::write_u16(out, at + 2, 0);
        byte_signed::write_i32(out, at + 4, self.correction);
    }

    ghost sized = { length_station };
}

// The records.
pub fn put_run(run: &[u8], out: &mut [u8], start: usize)
    requires { start + length run.now ≤ length out.old }
    ensures { out.new ≡ lay out.old start run.now }
{
    for i in 0..run.len() {
        out[start + i] = run[i];
    }
}
