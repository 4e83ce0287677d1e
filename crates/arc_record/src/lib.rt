// A tracking record: its bytes in a file, its fields by value, and its partials.
#![tactic(auto)]

ghost use Rattle.std.specs.Prelude.{◌≡◌, ◌+◌, ◌*◌, ◌≤◌, length};
ghost use Rattle.std.specs.Int.{w16};
ghost use Rattle.byte_words.specs.Words.{signed_word};
ghost use Rattle.arc_record.specs.Record.{record_part, record_in, partials_in};

use num_limits::{PARAMETERS_MOST, PARTIAL_SIZE, RECORD_FIXED};

#[derive(Clone, Copy)]
pub struct Record {
    pub station: u16,
    pub sigma: u16,
    pub kind: u32,
    pub day: u32,
    pub ms: u32,
    pub observed: f64,
    pub computed: f64,
}

// The bytes of record i of those that begin at `start`; none where the file has no such whole record.
pub fn record_at(file: &[u8], start: usize, parameters: usize, i: usize) -> &[u8]
    ensures { result.now ≡ record_part file.now start parameters i }
{
    let none: usize = 0;
    if PARAMETERS_MOST < parameters {
        return &file[none..none];
    }
    let size = RECORD_FIXED + PARTIAL_SIZE * parameters;
    if i < byte_words::left(file.len(), start) / size {
        let a = start + i * size;
        let e = a + size;
        &file[a..e]
    } else {
        &file[none..none]
    }
}

// The record of some bytes; bytes past the end count as 0.
pub fn decode(bytes: &[u8]) -> Record
    ensures { result ≡ record_in bytes.now }
{
    Record {
        station: byte_read::read_u16(bytes, 0),
        sigma: byte_read::read_u16(bytes, 2),
        kind: byte_read::read_u32(bytes, 4),
        day: byte_read::read_u32(bytes, 8),
        ms: byte_read::read_u32(bytes, 12),
        observed: unit_bits::double_of_bits(byte_read::read_u64(bytes, 16)),
        computed: unit_bits::double_of_bits(byte_read::read_u64(bytes, 24)),
    }
}

// The partial at a place where it is whole, read from a part of just its bytes, so that nothing is tested.
fn partial_at(bytes: &[u8], at: usize) -> i16
    requires { at + 2 ≤ length bytes.now }
    ensures { result ≡ signed_word w16 bytes.now at }
{
    let e = at + 2;
    byte_signed::read_i16(&bytes[at..e], 0)
}

// Fills the room with partials that are all there: a loop that becomes one copy.
fn copy_partials(bytes: &[u8], out: &mut [i16])
    requires { 32 + 2 * length out.old ≤ length bytes.now }
    ensures { out.new ≡ partials_in (length out.old) bytes.now }
{
    let n = out.len();
    let mut at: usize = 32;
    for i in 0..n {
        out[i] = partial_at(bytes, at);
        at += 2;
    }
}

// Fills the room with partials that may end early.
fn read_partials(bytes: &[u8], out: &mut [i16])
    ensures { out.new ≡ partials_in (length out.old) bytes.now }
{
    let n = out.len();
    let mut at: usize = 32;
    for i in 0..n {
        out[i] = byte_signed::read_i16(bytes, at);
        at += 2;
    }
}

// Fills the room with a record's partials; bytes past the end count as 0.
pub fn partials(bytes: &[u8], out: &mut [i16])
    ensures { out.new ≡ partials_in (length out.old) bytes.now }
{
    if RECORD_FIXED + PARTIAL_SIZE * out.len() <= bytes.len() {
        copy_partials(bytes, out);
    } else {
        read_partials(bytes, out);
    }
}
