// Inner to `merge_put`: the sums of two normal files, added column by column in lent room and written into lent bytes.
#![tactic(auto)]

ghost use Rattle.std.specs.Prelude.{◌≡◌, true, ℕ, ◌+◌, ◌*◌, ◌≤◌, ◌<◌, length, get_or};
ghost use Rattle.std.specs.Int.{w64};
ghost use Rattle.num_limits.specs.Capacities.{labels_most};
ghost use Rattle.byte_words.specs.Words.{lay, signed_bytes};
ghost use Rattle.byte_section.specs.Section.{encoded};
ghost use Rattle.num_packed.specs.Triangle.{tri};
ghost use Rattle.norm_labels.specs.Seats.{ascending};
ghost use Rattle.norm_labels.specs.Table.{rows_of, columns_of};
ghost use Rattle.norm_add.specs.Add.{Passed};
ghost use Rattle.merge_sums.specs.Both.{both_places, both_sides, AddableBoth};

use norm_add::Column;

// ---- both files together

// How many columns of each file are done.
#[derive(Clone, Copy)]
pub struct ColumnsDone {
    pub left: usize,
    pub right: usize,
}

// Column j of both files together, in room of just its length.
fn join_column(
    col: &mut [i64],
    j: usize,
    a: &[u8],
    start: usize,
    ta: &[usize],
    b: &[u8],
    begin: usize,
    tb: &[usize],
    d: ColumnsDone,
) -> ColumnsDone
    requires j_value { (j + 1 ≡ length col.old) × Passed ta.now j d.left × Passed tb.now j d.right }
    requires ta_value { (ascending ta.now ≡ true) × (length ta.now ≤ labels_most) × (start + 8 * tri (length ta.now) ≤ length a.now) }
    requires tb_value { (ascending tb.now ≡ true) × (length tb.now ≤ labels_most) × (begin + 8 * tri (length tb.now) ≤ length b.now) }
    requires addable_both { AddableBoth a.now start (tri (length ta.now)) b.now begin (tri (length tb.now)) }
    ensures { (col.new ≡ rows_of (λ i. both_places a.now start ta.now b.now begin tb.now i j) 0 (j + 1)) × Passed ta.now (j + 1) result.left × Passed tb.now (j + 1) result.right }
{
    col.fill(0);
    let p = norm_add::add_next(col, a, start, ta, d.left, j);
    let q = norm_add::add_next(col, b, begin, tb, d.right, j);
    ColumnsDone { left: p, right: q }
}

// The right sides of both files together, in room of just their number.
fn join_sides(col: &mut [i64], a: &[u8], c: Column, ta: &[usize], b: &[u8], d: Column, tb: &[usize])
    requires rows_in_bounds { (c.base + 8 * c.rows ≤ length a.now) × (c.rows ≤ length ta.now) × (ascending ta.now ≡ true) × ((i : ℕ) → i < c.rows → get_or ta.now i 0 < length col.old) }
    requires rows_in_bounds_2 { (d.base + 8 * d.rows ≤ length b.now) × (d.rows ≤ length tb.now) × (ascending tb.now ≡ true) × ((i : ℕ) → i < d.rows → get_or tb.now i 0 < length col.old) }
    requires addable_both { AddableBoth a.now c.base c.rows b.now d.base d.rows }
    ensures { col.new ≡ rows_of (both_sides a.now c ta.now b.now d tb.now) 0 (length col.old) }
{
    col.fill(0);
    norm_add::add_column(col, a, c, ta);
    norm_add::add_column(col, b, d, tb);
}

// ---- written

// Sums one after the other.
fn put_column(out: &mut [u8], at: usize, col: &[i64])
    requires { at + 8 * length col.now ≤ length out.old }
    ensures { out.new ≡ lay out.old at (encoded (signed_bytes w64) col.now) }
{
    for i in 0..col.len() {
        norm_sum::put_sum(out, at + 8 * i, col[i]);
    }
}

// The triangle of both files together, column by column; the room is left with the last column.
pub fn put_columns(
    out: &mut [u8],
    at: usize,
    count: usize,
    a: &[u8],
    start: usize,
    ta: &[usize],
    b: &[u8],
    begin: usize,
    tb: &[usize],
    room: &mut [i64],
)
    requires count_le_labels_most { (count ≤ labels_most) × (count ≤ length room.old) × (at + 8 * tri count ≤ length out.old) }
    requires ta_value { (ascending ta.now ≡ true) × (length ta.now ≤ labels_most) × (start + 8 * tri (length ta.now) ≤ length a.now) }
    requires tb_value { (ascending tb.now ≡ true) × (length tb.now ≤ labels_most) × (begin + 8 * tri (length tb.now) ≤ length b.now) }
    requires addable_both { AddableBoth a.now start (tri (length ta.now)) b.now begin (tri (length tb.now)) }
    ensures { out.new ≡ lay out.old at (encoded (signed_bytes w64) (columns_of (both_places a.now start ta.now b.now begin tb.now) 0 count)) }
{
    let mut d = ColumnsDone { left: 0, right: 0 };
    let mut k = at;
    for j in 0..count {
        let e = j + 1;
        d = join_column(&mut room[..e], j, a, start, ta, b, begin, tb, d);
        put_column(out, k, &room[..e]);
        k += 8 * e;
    }
}

// The right sides of both files together, which the room is left with.
pub fn put_sides(
    out: &mut [u8],
    at: usize,
    a: &[u8],
    c: Column,
    ta: &[usize],
    b: &[u8],
    d: Column,
    tb: &[usize],
    room: &mut [i64],
)
    requires room_in_bounds { at + 8 * length room.old ≤ length out.old }
    requires rows_in_bounds { (c.base + 8 * c.rows ≤ length a.now) × (c.rows ≤ length ta.now) × (ascending ta.now ≡ true) × ((i : ℕ) → i < c.rows → get_or ta.now i 0 < length room.old) }
    requires rows_in_bounds_2 { (d.base + 8 * d.rows ≤ length b.now) × (d.rows ≤ length tb.now) × (ascending tb.now ≡ true) × ((i : ℕ) → i < d.rows → get_or tb.now i 0 < length room.old) }
    requires addable_both { AddableBoth a.now c.base c.rows b.now d.base d.rows }
    ensures { out.new ≡ lay out.old at (encoded (signed_bytes w64) (rows_of (both_sides a.now c ta.now b.now d tb.now) 0 (length room.old))) }
{
    join_sides(room, a, c, ta, b, d, tb);
    put_column(out, at, room);
}
