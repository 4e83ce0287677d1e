// Inner to unpacking: the stored sums of a normal file of either form, put into lent room for all its labels, 0 for those that have none stored.
#![tactic(auto)]

ghost use Rattle.std.specs.Prelude.{◌≡◌, ◌+◌, ◌*◌, ◌≤◌, pos, length};
ghost use Rattle.std.proofs.lemmas.List.Edits.{sets};
ghost use Rattle.std.specs.Int.{w64};
ghost use Rattle.num_limits.specs.Capacities.{labels_most, sums_most};
ghost use Rattle.num_whole.specs.Tests.{same, pick};
ghost use Rattle.byte_words.specs.Words.{signed_word};
ghost use Rattle.num_packed.specs.Triangle.{tri};
ghost use Rattle.norm_labels.specs.Table.{rows_of, columns_of};
ghost use Rattle.norm_spread.specs.Spread.{spread_row_at, unless_two, spread_column_at};

// The sum at a place, 0 for a label whose field is 2.
fn sum_for(s: &[u8], at: usize, field: u32) -> i64
    ensures { result ≡ unless_two field (signed_word w64 s.now at) }
{
    if field == 2 {
        0
    } else {
        byte_signed::read_i64(s, at)
    }
}

// How many labels with sums a label with this field is.
fn counted(field: u32) -> usize
    ensures { (result ≡ pick (same field 2) 0 1) × (result ≤ 1) }
{
    if field == 2 { 0 } else { 1 }
}

// The stored sums that begin at a place, for the first n labels, into the room from k on.
pub fn spread_row(s: &[u8], labels: usize, n: usize, start: usize, out: &mut [i64], k: usize)
    requires n_in_bounds { (labels + 24 * n ≤ length s.now) × (n ≤ labels_most) }
    requires start_in_bounds { (start ≤ length s.now + 8 * sums_most) × (k + n ≤ length out.old) }
    ensures { out.new ≡ sets out.old k (rows_of (spread_row_at s.now labels start) 0 n) }
{
    let mut at = start;
    for i in 0..n {
        let field = byte_read::read_u32(s, labels + 24 * i + 12);
        out[k + i] = sum_for(s, at, field);
        at += 8 * counted(field);
    }
}

// Zeros for n labels.
fn clear(out: &mut [i64], k: usize, n: usize)
    requires { k + n ≤ length out.old }
    ensures { out.new ≡ sets out.old k (rows_of (λ i. pos 0) 0 n) }
{
    for i in 0..n {
        out[k + i] = 0;
    }
}

// One column: the stored one that begins at a place, or zeros for a label whose field is 2.
fn spread_column(
    s: &[u8],
    labels: usize,
    n: usize,
    start: usize,
    field: u32,
    out: &mut [i64],
    k: usize,
)
    requires n_in_bounds { (labels + 24 * n ≤ length s.now) × (n ≤ labels_most) }
    requires start_in_bounds { (start ≤ length s.now + 8 * sums_most) × (k + n ≤ length out.old) }
    ensures { out.new ≡ sets out.old k (rows_of (λ i. unless_two field (spread_row_at s.now labels start i)) 0 n) }
{
    if field == 2 {
        clear(out, k, n);
    } else {
        spread_row(s, labels, n, start, out, k);
    }
}

// The stored columns that begin at a place, for all p labels.
pub fn spread_matrix(s: &[u8], labels: usize, p: usize, start: usize, out: &mut [i64])
    requires p_in_bounds { (labels + 24 * p ≤ length s.now) × (p ≤ labels_most) }
    requires start_in_bounds { (start ≤ length s.now) × (tri p ≤ length out.old) }
    ensures { out.new ≡ sets out.old 0 (columns_of (spread_column_at s.now labels start) 0 p) }
{
    let mut r: usize = 0;
    let mut k: usize = 0;
    for j in 0..p {
        let field = byte_read::read_u32(s, labels + 24 * j + 12);
        spread_column(
            s,
            labels,
            j + 1,
            start + 8 * num_packed::triangle(r),
            field,
            out,
            k,
        );
        r += counted(field);
        k += j + 1;
    }
}
