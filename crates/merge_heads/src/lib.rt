// Inner to `merge_put`: the arcs and labels of two normal files, written at the places of their union.
#![tactic(auto)]

ghost use Rattle.std.specs.Prelude.{◌≡◌, ◌+◌, ◌*◌, ◌^◌, ◌≤◌, ◌<◌, length};
ghost use Rattle.byte_words.specs.Words.{lay};
ghost use Rattle.byte_section.specs.Section.{encoded};
ghost use Rattle.norm_kinds.specs.Kinds.{arc_number_bytes, normal_label_bytes};
ghost use Rattle.norm_labels.specs.Table.{rows_of};
ghost use Rattle.merge_heads.specs.Heads.{number_of_two, number_at, label_of_two, label_of_union, Somewhere, Short};

use norm_system::NormalLabel;

fn number_in(xs: &[u64], ys: &[u64], p: usize, q: usize) -> u64
    requires { length xs.now ≤ p → q < length ys.now }
    ensures { result ≡ number_of_two xs.now ys.now p q }
{
    if p < xs.len() { xs[p] } else { ys[q] }
}

// An arc as the four bytes of a file.
fn put_arc(out: &mut [u8], at: usize, a: u64)
    requires { a < 256 ^ 4 }
    ensures { out.new ≡ lay out.old at (arc_number_bytes a) }
{
    byte_write::write_u32(out, at, a as u32);
}

// The first `count` arcs of two lists united.
pub fn put_arcs(
    out: &mut [u8],
    at: usize,
    count: usize,
    xs: &[u64],
    left: &[usize],
    ys: &[u64],
    right: &[usize],
)
    requires short { Short xs.now × Short ys.now }
    requires count_in_bounds { (count ≤ length left.now) × (count ≤ length right.now) × (at + 4 * count ≤ length out.old) }
    requires somewhere { Somewhere (length xs.now) left.now (length ys.now) right.now count }
    ensures { out.new ≡ lay out.old at (encoded arc_number_bytes (rows_of (number_at xs.now left.now ys.now right.now) 0 count)) }
{
    for i in 0..count {
        let a = number_in(xs, ys, left[i], right[i]);
        put_arc(out, at + 4 * i, a);
    }
}

fn label_in(
    a: &[u8],
    start: usize,
    n: usize,
    b: &[u8],
    begin: usize,
    m: usize,
    p: usize,
    q: usize,
) -> NormalLabel
    requires { (start + 24 * n ≤ length a.now) × (begin + 24 * m ≤ length b.now) × (n ≤ p → q < m) }
    ensures { result ≡ label_of_two a.now start n b.now begin p q }
{
    if p < n {
        merge_read::label_at(a, start + 24 * p)
    } else {
        merge_read::label_at(b, begin + 24 * q)
    }
}

// A label of the old form, into a part of just its bytes, so that nothing is tested.
fn put_label(out: &mut [u8], at: usize, l: NormalLabel)
    requires { at + 24 ≤ length out.old }
    ensures { out.new ≡ lay out.old at (normal_label_bytes l) }
{
    norm_kinds::put_label(&mut out[at..at + 24], 0, l, 0);
}

// The first `count` labels of two files united.
pub fn put_labels(
    out: &mut [u8],
    at: usize,
    count: usize,
    a: &[u8],
    start: usize,
    n: usize,
    left: &[usize],
    b: &[u8],
    begin: usize,
    m: usize,
    right: &[usize],
)
    requires n_in_bounds { (start + 24 * n ≤ length a.now) × (begin + 24 * m ≤ length b.now) }
    requires count_in_bounds { (count ≤ length left.now) × (count ≤ length right.now) × (at + 24 * count ≤ length out.old) }
    requires somewhere { Somewhere n left.now m right.now count }
    ensures { out.new ≡ lay out.old at (encoded normal_label_bytes (rows_of (label_of_union a.now start n left.now b.now begin right.now) 0 count)) }
{
    for i in 0..count {
        let l = label_in(a, start, n, b, begin, m, left[i], right[i]);
        put_label(out, at + 24 * i, l);
    }
}
