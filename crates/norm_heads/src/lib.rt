// The arcs and the labels of a normal file of either form, read and judged where they stand: how many of each, the form, how many labels have
// their sums stored, and the place after them; or the first refusal and its place.
#![tactic(auto)]

ghost use Rattle.std.specs.Prelude.{◌≡◌, ◌+◌, ◌*◌, ◌≤◌, length, take};
ghost use Rattle.refusal.specs.Told.{told_placed};
ghost use Rattle.num_limits.specs.Capacities.{arcs_most, labels_most};
ghost use Rattle.num_whole.specs.Tests.{pick};
ghost use Rattle.byte_words.specs.Words.{lay};
ghost use Rattle.byte_words.specs.Stands.{stands};
ghost use Rattle.byte_section.specs.Section.{records, section_at};
ghost use Rattle.norm_kinds.specs.Kinds.{arc_kind, fielded_at, fielded_kind, is_small_form, stored_of};
ghost use Rattle.byte_section.specs.Told.{span_of};
ghost use Rattle.norm_heads.specs.Heads.{counts_part, arcs_at};

use byte_section::Span;
use num_limits::{ARCS_MOST, ARCS_U32, LABELS_U32};
use refusal::{Fault, Refusal};

// What is read of the arcs and the labels: how many of each, how many labels have their sums stored, whether the form is the small one, and the
// place after them.
#[derive(Clone, Copy)]
pub struct HeadsRead {
    pub arcs: usize,
    pub parameters: usize,
    pub stored: usize,
    pub is_small: bool,
    pub next: usize,
}

// The `count` records of the arcs section, from `start` on.
fn walk_arcs(s: &[u8], start: usize, count: usize) -> Result<Span, Fault>
    requires { (start ≤ length s.now) × (count ≤ arcs_most) }
    ensures { told_placed result ≡ span_of (records arc_kind s.now count start 0) }
{
    let mut floor: u64 = 0;
    for i in 0..count {
        floor = norm_kinds::read_arc(s, start + 4 * i, floor)?;
    }
    Ok(Span {
        count,
        next: start + 4 * count,
    })
}

// The arcs section, the first of the file: its count, from 1 to 16, then its records.
fn read_arcs(s: &[u8]) -> Result<Span, Fault>
    ensures { told_placed result ≡ span_of (section_at arc_kind s.now 1 arcs_most 0) }
{
    let n = byte_section::read_count(s, 0, 1, ARCS_U32)?;
    walk_arcs(s, 4, n)
}

// The n arcs of a file; slots past them are 0.
fn arcs_of(s: &[u8], n: usize) -> [u32; ARCS_MOST]
    requires { n ≤ arcs_most }
    ensures { (take n result ≡ arcs_at s.now n) × (arcs_most ≡ length result) }
{
    let mut arcs: [u32; ARCS_MOST] = [0; ARCS_MOST];
    for i in 0..n {
        arcs[i] = byte_read::read_u32(s, 4 + 4 * i);
    }
    arcs
}

// The n arcs of a file, into lent room.
pub fn load_arcs(s: &[u8], n: usize, arcs: &mut [u64])
    requires { (4 + 4 * n ≤ length s.now) × (n ≤ length arcs.old) }
    ensures { arcs.new ≡ lay arcs.old 0 (arcs_at s.now n) }
{
    for i in 0..n {
        arcs[i] = u64::from(byte_read::read_u32(s, 4 + 4 * i));
    }
}

// The `count` records of the parameters section of a file of a form, from `start` on.
fn walk_labels(
    s: &[u8],
    start: usize,
    count: usize,
    arcs: &[u32],
    is_small: bool,
) -> Result<Span, Fault>
    requires { (start ≤ length s.now) × (count ≤ labels_most) }
    ensures { told_placed result ≡ span_of (records (fielded_kind is_small arcs.now) s.now count start 0) }
{
    let mut floor: u64 = 0;
    for i in 0..count {
        floor = norm_kinds::read_label(s, start + 24 * i, floor, arcs, is_small)?;
    }
    Ok(Span {
        count,
        next: start + 24 * count,
    })
}

// The parameters section: its count, from 1 to 500, then its records, all of the first one's form.
fn read_labels(s: &[u8], at: usize, arcs: &[u32]) -> Result<Span, Fault>
    ensures { told_placed result ≡ span_of (section_at (fielded_kind (is_small_form s.now at) arcs.now) s.now 1 labels_most at) }
{
    let n = byte_section::read_count(s, at, 1, LABELS_U32)?;
    walk_labels(s, at + 4, n, arcs, norm_kinds::is_small_form(s, at))
}

// The parameters section of a file of n arcs.
fn read_parameters(s: &[u8], at: usize, n: usize) -> Result<Span, Fault>
    requires { n ≤ arcs_most }
    ensures { told_placed result ≡ span_of (section_at (fielded_kind (is_small_form s.now at) (arcs_at s.now n)) s.now 1 labels_most at) }
{
    let arcs = arcs_of(s, n);
    read_labels(s, at, &arcs[..n])
}

// How many of the p labels that stand at a place have their sums stored: only those of the small form are counted.
fn stored_in(s: &[u8], labels: usize, p: usize, is_small: bool) -> usize
    requires { labels + 24 * p ≤ length s.now }
    ensures { result ≡ pick is_small (length (stored_of (stands (fielded_at s.now) 24 p labels))) p }
{
    if is_small {
        norm_kinds::count_stored(s, labels, p)
    } else {
        p
    }
}

// The arcs and the labels, one after the other.
pub fn read_heads(s: &[u8]) -> Result<HeadsRead, Fault>
    ensures { told_placed result ≡ counts_part s.now }
{
    let Span {
        count: arcs,
        next: at,
    } = read_arcs(s)?;
    let Span {
        count: parameters,
        next,
    } = read_parameters(s, at, arcs)?;
    let is_small = norm_kinds::is_small_form(s, at);
    let stored = stored_in(s, at + 4, parameters, is_small);
    Ok(HeadsRead {
        arcs,
        parameters,
        stored,
        is_small,
        next,
    })
}
