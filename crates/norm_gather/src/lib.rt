// Inner to `norm_move`: a normal file that was read, written in a form into lent bytes.
#![tactic(auto)]

ghost use Rattle.std.specs.Prelude.{◌≡◌, ◌+◌, ◌*◌, ◌≤◌, ◌++◌, length};
ghost use Rattle.num_limits.specs.Capacities.{arcs_most, labels_most};
ghost use Rattle.byte_words.specs.Words.{lay};
ghost use Rattle.byte_words.specs.Stands.{stands};
ghost use Rattle.byte_section.specs.Section.{encoded};
ghost use Rattle.num_packed.specs.Triangle.{tri};
ghost use Rattle.norm_kinds.specs.Kinds.{arc_number_bytes, fielded_at, fielded_bytes, sum_bytes};
ghost use Rattle.norm_heads.specs.Heads.{arcs_at};
ghost use Rattle.norm_labels.specs.Table.{rows_of, columns_of};
ghost use Rattle.norm_add.specs.Add.{held_at, column_at};
ghost use Rattle.norm_gather.specs.Gather.{seats_from, kept_seats, field_by_seat, fielded_by_seat, gathered_at, side_gathered, heads_gathered, sums_gathered, totals_copied};

use norm_add::Column;
use norm_read::NormalRead;

// ---- sums where they stand

// The sum of a row, 0 where the column has none.
fn held_at(s: &[u8], c: Column, i: usize) -> i64
    requires { c.base + 8 * c.rows ≤ length s.now }
    ensures { result ≡ held_at s.now c i }
{
    if i < c.rows {
        norm_sum::sum_from(s, c.base + 8 * i)
    } else {
        0
    }
}

// Column j of a triangle of n columns that stands at a place; one without rows where it has no such column.
fn column_at(s: &[u8], start: usize, n: usize, j: usize) -> Column
    requires { (n ≤ labels_most) × (start + 8 * tri n ≤ length s.now) }
    ensures { (result ≡ column_at start n j) × (result.base + 8 * result.rows ≤ length s.now) }
{
    if j < n {
        let base = start + 8 * num_packed::triangle(j);
        Column { base, rows: j + 1 }
    } else {
        Column {
            base: start,
            rows: 0,
        }
    }
}

// The field of a label in a form, by its place among the columns of the triangle.
fn field_in(s: &[u8], start: usize, n: usize, k: usize, is_small: bool) -> u32
    requires { (n ≤ labels_most) × (start + 8 * tri n ≤ length s.now) }
    ensures { result ≡ field_by_seat is_small s.now start n k }
{
    if is_small {
        let c = column_at(s, start, n, k);
        let diagonal = held_at(s, c, k);
        if diagonal == 0 { 2 } else { 1 }
    } else {
        0
    }
}

// ---- places, found once

// The place of each of p labels among the n that are stored, n where its sums are not.
pub fn seat_labels(s: &[u8], labels: usize, p: usize, n: usize, w: &mut [usize])
    requires { (labels + 24 * p ≤ length s.now) × (p ≤ length w.old) }
    ensures { w.new ≡ lay w.old 0 (seats_from n 0 (stands (fielded_at s.now) 24 p labels)) }
{
    let mut q: usize = 0;
    for i in 0..p {
        let field = byte_read::read_u32(s, labels + 24 * i + 12);
        if field == 2 {
            w[i] = n;
        } else {
            w[i] = q;
            q += 1;
        }
    }
}

// Those of the labels that the form stores, and how many.
pub fn keep_seats(
    s: &[u8],
    start: usize,
    n: usize,
    w: &[usize],
    is_small: bool,
    u: &mut [usize],
) -> usize
    requires { (n ≤ labels_most) × (start + 8 * tri n ≤ length s.now) × (length w.now ≤ length u.old) }
    ensures { (result ≡ length (kept_seats (field_by_seat is_small s.now start n) w.now)) × (u.new ≡ lay u.old 0 (kept_seats (field_by_seat is_small s.now start n) w.now)) }
{
    let mut m: usize = 0;
    for i in 0..w.len() {
        let k = w[i];
        let field = field_in(s, start, n, k, is_small);
        if field != 2 {
            u[m] = k;
            m += 1;
        }
    }
    m
}

// ---- labels

// The labels that stand at a place, with their fields in the form.
fn put_labels(
    out: &mut [u8],
    at: usize,
    s: &[u8],
    labels: usize,
    start: usize,
    n: usize,
    w: &[usize],
    is_small: bool,
)
    requires n_le_labels_most { (n ≤ labels_most) × (start + 8 * tri n ≤ length s.now) }
    requires w_in_bounds { (labels + 24 * length w.now ≤ length s.now) × (at + 24 * length w.now ≤ length out.old) }
    ensures { out.new ≡ lay out.old at (encoded fielded_bytes (rows_of (fielded_by_seat is_small s.now labels start n w.now) 0 (length w.now))) }
{
    for i in 0..w.len() {
        let field = field_in(s, start, n, w[i], is_small);
        let l = norm_kinds::load_label(s, labels + 24 * i);
        norm_kinds::put_label(out, at + 24 * i, l, field);
    }
}

// ---- arcs

// The n arcs of a file, as they stand, after their count.
fn put_arcs(out: &mut [u8], s: &[u8], n: usize)
    requires { (4 + 4 * n ≤ length s.now) × (4 + 4 * n ≤ length out.old) }
    ensures { out.new ≡ lay out.old 4 (encoded arc_number_bytes (arcs_at s.now n)) }
{
    for i in 0..n {
        let at = 4 + 4 * i;
        let a = byte_read::read_u32(s, at);
        byte_write::write_u32(out, at, a);
    }
}

// ---- sums

// The sums of a column at the first `count` places of u.
fn put_gathered(out: &mut [u8], at: usize, s: &[u8], c: Column, u: &[usize], count: usize)
    requires { (c.base + 8 * c.rows ≤ length s.now) × (count ≤ length u.now) × (at + 8 * count ≤ length out.old) }
    ensures { out.new ≡ lay out.old at (encoded sum_bytes (rows_of (side_gathered s.now c u.now) 0 count)) }
{
    for i in 0..count {
        let x = held_at(s, c, u[i]);
        norm_sum::put_sum(out, at + 8 * i, x);
    }
}

// The triangle of the labels at the places of u, from a triangle of n columns, column by column.
fn put_columns(out: &mut [u8], at: usize, s: &[u8], start: usize, n: usize, u: &[usize])
    requires n_le_labels_most { (n ≤ labels_most) × (start + 8 * tri n ≤ length s.now) }
    requires u_len_bound { (length u.now ≤ labels_most) × (at + 8 * tri (length u.now) ≤ length out.old) }
    ensures { out.new ≡ lay out.old at (encoded sum_bytes (columns_of (gathered_at s.now start n u.now) 0 (length u.now))) }
{
    let mut k = at;
    for j in 0..u.len() {
        let e = j + 1;
        let c = column_at(s, start, n, u[j]);
        put_gathered(out, k, s, c, u, e);
        k += 8 * e;
    }
}

// ---- the file

// Arcs and labels, each after its count.
fn put_heads(out: &mut [u8], s: &[u8], r: NormalRead, w: &[usize], is_small: bool)
    requires arcs_le_arcs_most { (r.arcs ≤ arcs_most) × (r.stored ≤ labels_most) × (length w.now ≤ labels_most) }
    requires stored_in_bounds { (r.matrix + 8 * tri r.stored ≤ length s.now) × (8 + 4 * r.arcs + 24 * length w.now ≤ length s.now) }
    requires w_in_bounds { 8 + 4 * r.arcs + 24 * length w.now ≤ length out.old }
    ensures { out.new ≡ lay out.old 0 (heads_gathered is_small s.now r w.now) }
{
    let at = 4 + 4 * r.arcs;
    let labels = at + 4;
    byte_write::write_u32(out, 0, r.arcs as u32);
    put_arcs(out, s, r.arcs);
    byte_write::write_u32(out, at, w.len() as u32);
    put_labels(out, labels, s, labels, r.matrix, r.stored, w, is_small);
}

// Matrix sums and right sides of the labels at the places of u, each after their count.
fn put_sums(out: &mut [u8], at: usize, s: &[u8], r: NormalRead, u: &[usize])
    requires stored_le_labels_most { (r.stored ≤ labels_most) × (length u.now ≤ labels_most) }
    requires stored_in_bounds { (r.matrix + 8 * tri r.stored ≤ length s.now) × (r.rights + 8 * r.stored ≤ length s.now) }
    requires u_in_bounds { at + 8 + 8 * tri (length u.now) + 8 * length u.now ≤ length out.old }
    ensures { out.new ≡ lay out.old at (sums_gathered s.now r u.now) }
{
    let n = r.stored;
    let m = u.len();
    let sums = num_packed::triangle(m);
    byte_write::write_u32(out, at, sums as u32);
    put_columns(out, at + 4, s, r.matrix, n, u);
    let next = at + 4 + 8 * sums;
    byte_write::write_u32(out, next, m as u32);
    let c = Column {
        base: r.rights,
        rows: n,
    };
    put_gathered(out, next + 4, s, c, u, m);
}

// The totals as they stand, after their count.
fn put_totals(out: &mut [u8], at: usize, s: &[u8], r: NormalRead)
    requires { (r.totals + 16 ≤ length s.now) × (at + 20 ≤ length out.old) }
    ensures { out.new ≡ lay out.old at (totals_copied s.now r) }
{
    let accepted = byte_read::read_u64(s, r.totals);
    let square = byte_read::read_u64(s, r.totals + 8);
    norm_kinds::put_totals(out, at, accepted, square);
}

// The whole file, of the labels whose places are w, where the form stores those at the places of u.
pub fn put_file(out: &mut [u8], s: &[u8], r: NormalRead, w: &[usize], u: &[usize], is_small: bool)
    requires arcs_le_arcs_most { (r.arcs ≤ arcs_most) × (r.stored ≤ labels_most) × (length w.now ≤ labels_most) × (length u.now ≤ labels_most) }
    requires stored_in_bounds { (r.matrix + 8 * tri r.stored ≤ length s.now) × (8 + 4 * r.arcs + 24 * length w.now ≤ length s.now) }
    requires stored_in_bounds_2 { (r.rights + 8 * r.stored ≤ length s.now) × (r.totals + 16 ≤ length s.now) }
    requires u_in_bounds { 36 + 4 * r.arcs + 24 * length w.now + 8 * tri (length u.now) + 8 * length u.now ≤ length out.old }
    ensures { out.new ≡ lay out.old 0 (heads_gathered is_small s.now r w.now ++ (sums_gathered s.now r u.now ++ totals_copied s.now r)) }
{
    put_heads(out, s, r, w, is_small);
    let middle = 8 + 4 * r.arcs + 24 * w.len();
    put_sums(out, middle, s, r, u);
    let m = u.len();
    let last = middle + 8 + 8 * num_packed::triangle(m) + 8 * m;
    put_totals(out, last, s, r);
}
