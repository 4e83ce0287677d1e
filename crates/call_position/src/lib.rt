// Inner to `call_part`: a position in lent bytes, read and written.
#![tactic(auto)]

ghost use Rattle.std.specs.Prelude.{◌≡◌, ◌≤◌, length, take};
ghost use Rattle.num_whole.specs.Tests.{up_to, pick};
ghost use Rattle.num_whole.specs.Lists.{padded};
ghost use Rattle.byte_words.specs.Words.{word, lay};
ghost use Rattle.part_laws.specs.Entries.{position_most};
ghost use Rattle.call_position.specs.Position.{position_long, position_in, position_bytes, has_position, marked};

use part_laws::{POSITION_MOST, Position};

// Where the numbers stand behind the room for the bytes kept, each in eight bytes: how many count, the records taken, whether the file is over.
const LENGTH_AT: usize = POSITION_MOST;

const TAKEN_AT: usize = LENGTH_AT + 8;

const OVER_AT: usize = TAKEN_AT + 8;

// The length of all: 1,112.
const POSITION_LONG: usize = OVER_AT + 8;

// ---- reading

pub fn has_position(b: &[u8]) -> bool
    ensures { result ≡ has_position b.now }
{
    POSITION_LONG <= b.len()
}

fn kept_in(b: &[u8]) -> [u8; POSITION_MOST]
    ensures { result ≡ padded position_most 0 (take position_most b.now) }
{
    let n = num_whole::least(POSITION_MOST, b.len());
    let mut a = [0; POSITION_MOST];
    arc_fields::put_run(&b[..n], &mut a, 0);
    a
}

// The position that bytes hold, whatever they are.
pub fn position_in(b: &[u8]) -> Position
    ensures { result ≡ position_in b.now }
{
    let kept = kept_in(b);
    let length = byte_read::read_u64(b, LENGTH_AT) as usize;
    let taken = byte_read::read_u64(b, TAKEN_AT) as usize;
    let word = byte_read::read_u64(b, OVER_AT);
    Position {
        kept,
        length,
        taken,
        over: 0 < word,
    }
}

// Whether the word for the file being over is one that is written, 0 or 1.
pub fn is_marked(b: &[u8]) -> bool
    ensures { result ≡ marked b.now }
{
    byte_read::read_u64(b, OVER_AT) <= 1
}

// ---- writing

fn flag(b: bool) -> u64
    ensures { result ≡ pick b 1 0 }
{
    if b { 1 } else { 0 }
}

fn put_kept(p: Position, out: &mut [u8])
    requires { position_long ≤ length out.old }
    ensures { (out.new ≡ lay out.old 0 p.kept) × (length p.kept ≡ position_most) }
{
    let kept = p.kept;
    arc_fields::put_run(&kept[..POSITION_MOST], out, 0);
}

// A position's bytes at the front of a room.
pub fn put_position(p: Position, out: &mut [u8])
    requires { position_long ≤ length out.old }
    ensures { out.new ≡ lay out.old 0 (position_bytes p) }
{
    let length = p.length;
    let taken = p.taken;
    let over = p.over;
    put_kept(p, out);
    byte_write::write_u64(out, LENGTH_AT, length as u64);
    byte_write::write_u64(out, TAKEN_AT, taken as u64);
    byte_write::write_u64(out, OVER_AT, flag(over));
}
