// One record of the settings, the parameters and the stations of an arc file, read and judged.
#![tactic(auto)]

ghost use Rattle.std.specs.Prelude.{◌≡◌, ◌+◌, ◌<◌, ◌^◌, ℕ, refl};
ghost use Rattle.std.specs.Bool.{then_some};
ghost use Rattle.num_whole.specs.Answer.{bad};
ghost use Rattle.refusal.specs.Number.{number_of};
ghost use Rattle.refusal.specs.Told.{told_placed};
ghost use Rattle.byte_section.specs.Section.{Kind, judged_at};
ghost use Rattle.arc_kinds.specs.Kinds.{settings_at, settings_kind, label_at, label_kind, station_at, station_kind};
ghost use Rattle.arc_kinds.specs.Told.{settings_part};

use arc_limits::{Label, Settings, Station};
use refusal::{Fault, Refusal};

// ---- what a kind of record gives

pub trait Record: Copy {
    ghost kind: { Kind Self };

    ghost SIZE: { ℕ };

    // Its bytes.
    const SIZE: usize;

    // What stands at a place, where its fields are within their limits.
    fn load(s: &[u8], at: usize) -> Option<Self>
        requires { at + kind.size < 2 ^ 64 }
        ensures { result ≡ then_some (kind.fields_ok s.now at) (kind.decode s.now at) };

    fn key(self) -> u64
        ensures { result ≡ kind.key self };

    // The least key that may follow it.
    fn floor_after(self) -> u64
        ensures { result ≡ kind.after self };

    ghost sized: { kind.size ≡ SIZE };
}

// A record refused at its first byte.
fn refused<R: Record>(why: Refusal, at: usize) -> Result<R, Fault>
    ensures { told_placed result ≡ bad (number_of why) at }
{
    Err(Fault { why, place: at })
}

// One record, judged 1, 4, 5; `floor` is the least key that it may have.
pub fn read_record<R: Record>(s: &[u8], at: usize, floor: u64) -> Result<R, Fault>
    ensures { told_placed result ≡ judged_at R.kind s.now at floor }
{
    if byte_words::left(s.len(), at) < R::SIZE {
        return Err(Fault {
            why: Refusal::Short,
            place: s.len(),
        });
    }
    match R::load(s, at) {
        None => refused(Refusal::Limits, at),
        Some(r) if r.key() < floor => refused(Refusal::Order, at),
        Some(r) => Ok(r),
    }
}

// ---- settings

// Bytes past the end count as 0, as in every record that is loaded.
pub fn load_settings(s: &[u8], at: usize) -> Settings
    requires { at + 12 < 2 ^ 64 }
    ensures { result ≡ settings_at s.now at }
{
    Settings {
        arc: byte_read::read_u32(s, at),
        first: byte_read::read_u32(s, at + 4),
        days: byte_read::read_u16(s, at + 8),
        level: byte_read::read_u16(s, at + 10),
    }
}

impl Record for Settings {
    ghost kind = { settings_kind };

    ghost SIZE = { 12 };

    const SIZE: usize = 12;

    fn load(s: &[u8], at: usize) -> Option<Settings> {
        let a = load_settings(s, at);
        arc_limits::settings_ok(a).then_some(a)
    }

    fn key(self) -> u64 {
        0
    }

    fn floor_after(self) -> u64 {
        0
    }

    ghost sized = { refl };
}

// The settings section, the first of the file: its count is 1.
pub fn read_settings(s: &[u8]) -> Result<Settings, Fault>
    ensures { told_placed result ≡ settings_part s.now }
{
    byte_section::read_count(s, 0, 1, 1)?;
    read_record(s, 4, 0)
}

// ---- labels

pub fn load_label(s: &[u8], at: usize) -> Label
    requires { at + 16 < 2 ^ 64 }
    ensures { result ≡ label_at s.now at }
{
    Label {
        kind: byte_read::read_u16(s, at),
        index: byte_read::read_u16(s, at + 2),
        weight: byte_read::read_u32(s, at + 4),
        estimate: byte_signed::read_i64(s, at + 8),
    }
}

impl Record for Label {
    ghost kind = { label_kind };

    ghost SIZE = { 16 };

    const SIZE: usize = 16;

    fn load(s: &[u8], at: usize) -> Option<Label> {
        let l = load_label(s, at);
        arc_limits::label_ok(l).then_some(l)
    }

    fn key(self) -> u64 {
        arc_limits::label_key(self)
    }

    fn floor_after(self) -> u64 {
        arc_limits::label_key(self) + 1
    }

    ghost sized = { refl };
}

// ---- stations

pub fn load_station(s: &[u8], at: usize) -> Station
    requires { at + 8 < 2 ^ 64 }
    ensures { result ≡ station_at s.now at }
{
    Station {
        number: byte_read::read_u16(s, at),
        correction: byte_signed::read_i32(s, at + 4),
    }
}

impl Record for Station {
    ghost kind = { station_kind };

    ghost SIZE = { 8 };

    const SIZE: usize = 8;

    // The two bytes between the number and the correction are 0.
    fn load(s: &[u8], at: usize) -> Option<Station> {
        let zero = byte_read::read_u16(s, at + 2);
        let t = load_station(s, at);
        (zero == 0 && arc_limits::station_ok(t)).then_some(t)
    }

    fn key(self) -> u64 {
        arc_limits::station_key(self)
    }

    fn floor_after(self) -> u64 {
        arc_limits::station_key(self) + 1
    }

    ghost sized = { refl };
}
