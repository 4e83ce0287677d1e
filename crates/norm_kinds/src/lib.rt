// Inner to the readers and writers of normal files: one record of the arcs and of the labels, read and judged, a label and the totals written, with the definitions of a normal file's records.
#![tactic(auto)]

ghost use Rattle.std.specs.Prelude.{◌≡◌, ◌+◌, ◌*◌, ◌≤◌, ◌++◌, length};
ghost use Rattle.refusal.specs.Told.{told_placed};
ghost use Rattle.byte_words.specs.Words.{bytes_of, lay};
ghost use Rattle.byte_words.specs.Stands.{stands};
ghost use Rattle.norm_kinds.specs.Kinds.{arc_kind, normal_label_at, field_ok, fielded_at, fielded_bytes, fielded_kind, is_small_form, stored_of};
ghost use Rattle.norm_kinds.specs.Told.{floor_at};

use norm_system::NormalLabel;
use refusal::{Fault, Refusal};

// ---- arcs

// One record of the arcs section, judged 1, 4, 5; `floor` is the least arc that it may have.
pub fn read_arc(s: &[u8], at: usize, floor: u64) -> Result<u64, Fault>
    ensures { told_placed result ≡ floor_at arc_kind s.now at floor }
{
    if byte_words::left(s.len(), at) < 4 {
        return Err(Fault {
            why: Refusal::Short,
            place: s.len(),
        });
    }
    let a = byte_read::read_u32(s, at);
    if !norm_system::arc_ok(a) {
        return Err(Fault {
            why: Refusal::Limits,
            place: at,
        });
    }
    if u64::from(a) < floor {
        return Err(Fault {
            why: Refusal::Order,
            place: at,
        });
    }
    Ok(u64::from(a) + 1)
}

// ---- labels

pub fn load_label(s: &[u8], at: usize) -> NormalLabel
    requires { at + 24 ≤ length s.now }
    ensures { result ≡ normal_label_at s.now at }
{
    NormalLabel {
        kind: byte_read::read_u16(s, at),
        index: byte_read::read_u16(s, at + 2),
        arc: byte_read::read_u32(s, at + 4),
        weight: byte_read::read_u32(s, at + 8),
        estimate: byte_signed::read_i64(s, at + 16),
    }
}

// A label and its field, 24 bytes.
pub fn put_label(out: &mut [u8], at: usize, l: NormalLabel, field: u32)
    requires { at + 24 ≤ length out.old }
    ensures { out.new ≡ lay out.old at (fielded_bytes (record { label = l; field = field })) }
{
    byte_write::write_u16(out, at, l.kind);
    byte_write::write_u16(out, at + 2, l.index);
    byte_write::write_u32(out, at + 4, l.arc);
    byte_write::write_u32(out, at + 8, l.weight);
    byte_write::write_u32(out, at + 12, field);
    byte_signed::write_i64(out, at + 16, l.estimate);
}

// Whether a label's field is one of the form.
fn field_ok(is_small: bool, field: u32) -> bool
    ensures { result ≡ field_ok is_small field }
{
    if is_small {
        num_whole::within(1, u64::from(field), 2)
    } else {
        field == 0
    }
}

// One record of the parameters section of a file of a form that lists these arcs, judged 1, 4, 5; `floor` is the least key that it may have.
pub fn read_label(
    s: &[u8],
    at: usize,
    floor: u64,
    arcs: &[u32],
    is_small: bool,
) -> Result<u64, Fault>
    ensures { told_placed result ≡ floor_at (fielded_kind is_small arcs.now) s.now at floor }
{
    if byte_words::left(s.len(), at) < 24 {
        return Err(Fault {
            why: Refusal::Short,
            place: s.len(),
        });
    }
    let l = load_label(s, at);
    if !field_ok(is_small, byte_read::read_u32(s, at + 12)) || !norm_system::label_ok(l, arcs) {
        return Err(Fault {
            why: Refusal::Limits,
            place: at,
        });
    }
    let key = norm_system::label_key(l);
    if key < floor {
        return Err(Fault {
            why: Refusal::Order,
            place: at,
        });
    }
    Ok(key + 1)
}

// Whether a file is in the small form, by the field of its first label; its labels' section begins at a place, with its count.
pub fn is_small_form(s: &[u8], at: usize) -> bool
    requires { at + 4 ≤ length s.now }
    ensures { result ≡ is_small_form s.now at }
{
    byte_read::read_u32(s, at + 16) != 0
}

// How many of the p labels that stand at a place have their sums stored: all in a file of the old form.
pub fn count_stored(s: &[u8], labels: usize, p: usize) -> usize
    requires { labels + 24 * p ≤ length s.now }
    ensures { (result ≡ length (stored_of (stands (fielded_at s.now) 24 p labels))) × (result ≤ p) }
{
    let mut n: usize = 0;
    for i in 0..p {
        let field = byte_read::read_u32(s, labels + 24 * i + 12);
        if field != 2 {
            n += 1;
        }
    }
    n
}

// ---- totals

// The totals section, the last of a file: its count, 1, and the two totals.
pub fn put_totals(out: &mut [u8], at: usize, accepted: u64, square: u64)
    requires { at + 20 ≤ length out.old }
    ensures { out.new ≡ lay out.old at (bytes_of 4 1 ++ (bytes_of 8 accepted ++ bytes_of 8 square)) }
{
    byte_write::write_u32(out, at, 1);
    byte_write::write_u64(out, at + 4, accepted);
    byte_write::write_u64(out, at + 12, square);
}
