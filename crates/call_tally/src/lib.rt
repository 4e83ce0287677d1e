// Inner to `call_heading` and `wheloruka`: a tally in lent bytes, read and written.
#![tactic(auto)]

ghost use Rattle.std.specs.Prelude.{◌≡◌, ◌≤◌, length};
ghost use Rattle.num_limits.specs.Capacities.{stations_most, parameters_most};
ghost use Rattle.byte_words.specs.Words.{word, bytes_of, lay};
ghost use Rattle.byte_words.specs.Stands.{stands};
ghost use Rattle.byte_section.specs.Section.{encoded};
ghost use Rattle.call_tally.specs.Tally.{times_row_at, tally_in, row_bytes, tally_bytes, has_tally};

use num_limits::{PARAMETERS_MOST, STATIONS_MOST, TYPES};
use std::array;
use take_tally::{Row, Tally};

// ---- reading

#[tactic(auto, unfolding(crate::specs::Tally::has_tally, num_whole::specs::Tests::up_to))]
pub fn has_tally(b: &[u8]) -> bool
    ensures { result ≡ has_tally b.now }
{
    1452 <= b.len()
}

fn counts_in(b: &[u8]) -> [u32; STATIONS_MOST]
    ensures { result ≡ stands (word 4 b.now) 4 stations_most 8 }
{
    array::from_fn(|i| byte_read::read_u32(b, 8 + 4 * i))
}

// The ten times of a row.
fn row_in(b: &[u8], start: usize) -> Row
    requires { start ≤ 2000 }
    ensures { result ≡ times_row_at b.now start }
{
    Row {
        times: array::from_fn(|i| byte_read::read_u64(b, start + 8 * i)),
    }
}

fn rows_in(b: &[u8]) -> [Row; STATIONS_MOST]
    ensures { result ≡ stands (times_row_at b.now) 80 stations_most 72 }
{
    array::from_fn(|i| row_in(b, 72 + 80 * i))
}

fn marks_in(b: &[u8]) -> [u16; PARAMETERS_MOST]
    ensures { result ≡ stands (word 2 b.now) 2 parameters_most 1352 }
{
    array::from_fn(|i| byte_read::read_u16(b, 1352 + 2 * i))
}

// The tally that bytes hold, whatever they are.
pub fn tally_in(b: &[u8]) -> Tally
    ensures { result ≡ tally_in b.now }
{
    Tally {
        square: byte_read::read_u64(b, 0),
        counts: counts_in(b),
        rows: rows_in(b),
        marks: marks_in(b),
    }
}

// ---- writing

fn put_counts(counts: [u32; STATIONS_MOST], out: &mut [u8])
    ensures { out.new ≡ lay out.old 8 (encoded (bytes_of 4) counts) }
{
    let mut at: usize = 8;
    for i in 0..STATIONS_MOST {
        byte_write::write_u32(out, at, counts[i]);
        at += 4;
    }
}

fn put_row(row: Row, out: &mut [u8], start: usize)
    requires { start ≤ 2000 }
    ensures { (out.new ≡ lay out.old start (row_bytes row)) × (length row.times ≡ 10) }
{
    let mut at = start;
    for i in 0..TYPES {
        byte_write::write_u64(out, at, row.times[i]);
        at += 8;
    }
}

fn put_rows(t: Tally, out: &mut [u8])
    ensures { (out.new ≡ lay out.old 72 (encoded row_bytes t.rows)) × (length (encoded row_bytes t.rows) ≡ 1280) }
{
    let mut at: usize = 72;
    for i in 0..STATIONS_MOST {
        put_row(t.rows[i], out, at);
        at += 80;
    }
}

fn put_marks(marks: [u16; PARAMETERS_MOST], out: &mut [u8])
    ensures { out.new ≡ lay out.old 1352 (encoded (bytes_of 2) marks) }
{
    let mut at: usize = 1352;
    for i in 0..PARAMETERS_MOST {
        byte_write::write_u16(out, at, marks[i]);
        at += 2;
    }
}

// A tally's bytes at the front of a room; a byte for which there is no room is dropped.
pub fn put_tally(t: Tally, out: &mut [u8])
    ensures { out.new ≡ lay out.old 0 (tally_bytes t) }
{
    byte_write::write_u64(out, 0, t.square);
    put_counts(t.counts, out);
    put_rows(t, out);
    put_marks(t.marks, out);
}
