// A normal file of either form unpacked into three lent rooms, one element a value: the heads (arcs, labels, totals), the matrix sums, the right
// sides. 20 comes last, and a refusal changes nothing lent.
#![tactic(auto)]

ghost use Rattle.std.specs.Prelude.{◌≡◌, false, ◌+◌, ◌*◌, ◌≤◌, length};
ghost use Rattle.std.proofs.lemmas.List.Edits.{sets};
ghost use Rattle.refusal.specs.Told.{told_placed};
ghost use Rattle.num_limits.specs.Capacities.{labels_most};
ghost use Rattle.num_whole.specs.Tests.{pick};
ghost use Rattle.num_packed.specs.Triangle.{tri};
ghost use Rattle.norm_labels.specs.Table.{rows_of, columns_of};
ghost use Rattle.norm_spread.specs.Spread.{spread_row_at, spread_column_at};
ghost use Rattle.byte_words.specs.Words.{lay};
ghost use Rattle.norm_sum.specs.Sums.{sums_at};
ghost use Rattle.norm_kinds.specs.Kinds.{normal_label_at};
ghost use Rattle.norm_read.specs.Normal.{numbers_of};
ghost use Rattle.norm_room.specs.Room.{heads_long, label_numbers, heads_of};
ghost use Rattle.norm_unpack.specs.Parts.{label_numbers_from, heads_at};
ghost use Rattle.norm_unpack.specs.Unpack.{unpack_normal, filled, matrix_of, rights_of};

use norm_read::NormalRead;
use refusal::{Fault, Refusal};

// ---- the heads

// The five values of the label at a place of the file, into the room from k on.
fn fill_label(s: &[u8], at: usize, heads: &mut [u64], k: usize)
    requires { (at + 24 ≤ length s.now) × (k + 5 ≤ length heads.old) }
    ensures { heads.new ≡ lay heads.old k (label_numbers (normal_label_at s.now at)) }
{
    heads[k] = u64::from(byte_read::read_u16(s, at));
    heads[k + 1] = u64::from(byte_read::read_u16(s, at + 2));
    heads[k + 2] = u64::from(byte_read::read_u32(s, at + 4));
    heads[k + 3] = u64::from(byte_read::read_u32(s, at + 8));
    heads[k + 4] = byte_read::read_u64(s, at + 16);
}

// The n labels that stand at a place of the file.
fn fill_labels(s: &[u8], start: usize, n: usize, heads: &mut [u64], first: usize)
    requires { (start + 24 * n ≤ length s.now) × (first + 5 * n ≤ length heads.old) }
    ensures { heads.new ≡ lay heads.old first (label_numbers_from s.now n start) }
{
    for i in 0..n {
        fill_label(s, start + 24 * i, heads, first + 5 * i);
    }
}

// The arcs, the labels and the totals of a file of so many arcs and parameters.
fn fill_heads(s: &[u8], arcs: usize, parameters: usize, totals: usize, heads: &mut [u64])
    requires parameters_in_bounds { (8 + 4 * arcs + 24 * parameters ≤ length s.now) × (totals + 16 ≤ length s.now) }
    requires parameters_in_bounds_2 { heads_long arcs parameters ≤ length heads.old }
    ensures { heads.new ≡ lay heads.old 0 (heads_at s.now arcs parameters totals) }
{
    norm_heads::load_arcs(s, arcs, heads);
    fill_labels(s, 8 + 4 * arcs, parameters, heads, arcs);
    let k = arcs + 5 * parameters;
    heads[k] = byte_read::read_u64(s, totals);
    heads[k + 1] = byte_read::read_u64(s, totals + 8);
}

// ---- the sums

// The n sums that stand at a place of the file.
fn fill_sums(s: &[u8], start: usize, n: usize, out: &mut [i64])
    requires { (start + 8 * n ≤ length s.now) × (n ≤ length out.old) }
    ensures { out.new ≡ sets out.old 0 (sums_at s.now start n) }
{
    for i in 0..n {
        out[i] = norm_sum::sum_from(s, start + 8 * i);
    }
}

// The matrix sums of all p labels, which stand at a place: copied in the old form, spread in the small one.
fn fill_matrix(s: &[u8], labels: usize, p: usize, start: usize, is_small: bool, out: &mut [i64])
    requires p_in_bounds { (labels + 24 * p ≤ length s.now) × (p ≤ labels_most) }
    requires start_in_bounds { (start ≤ length s.now) × (tri p ≤ length out.old) }
    requires p_in_bounds_2 { is_small ≡ false → start + 8 * tri p ≤ length s.now }
    ensures { out.new ≡ sets out.old 0 (pick is_small (columns_of (spread_column_at s.now labels start) 0 p) (sums_at s.now start (tri p))) }
{
    if is_small {
        norm_spread::spread_matrix(s, labels, p, start, out);
    } else {
        fill_sums(s, start, num_packed::triangle(p), out);
    }
}

// The right sides likewise.
fn fill_rights(s: &[u8], labels: usize, p: usize, start: usize, is_small: bool, out: &mut [i64])
    requires p_in_bounds { (labels + 24 * p ≤ length s.now) × (p ≤ labels_most) }
    requires start_in_bounds { (start ≤ length s.now) × (p ≤ length out.old) }
    requires p_in_bounds_2 { is_small ≡ false → start + 8 * p ≤ length s.now }
    ensures { out.new ≡ sets out.old 0 (pick is_small (rows_of (spread_row_at s.now labels start) 0 p) (sums_at s.now start p)) }
{
    if is_small {
        norm_spread::spread_row(s, labels, p, start, out, 0);
    } else {
        fill_sums(s, start, p, out);
    }
}

// ---- the file

// A normal file read, and what it holds put into the rooms: for every file and all rooms.
pub fn unpack(
    file: &[u8],
    heads: &mut [u64],
    matrix: &mut [i64],
    rights: &mut [i64],
) -> Result<NormalRead, Fault>
    ensures result_value { told_placed result ≡ numbers_of (unpack_normal file.now (length heads.old) (length matrix.old) (length rights.old)) }
    ensures heads_after { heads.new ≡ filled heads_of (unpack_normal file.now (length heads.old) (length matrix.old) (length rights.old)) heads.old }
    ensures matrix_after { matrix.new ≡ filled matrix_of (unpack_normal file.now (length heads.old) (length matrix.old) (length rights.old)) matrix.old }
    ensures rights_after { rights.new ≡ filled rights_of (unpack_normal file.now (length heads.old) (length matrix.old) (length rights.old)) rights.old }
{
    let r = norm_read::read(file)?;
    if !norm_room::is_roomy(
        r.arcs,
        r.parameters,
        heads.len(),
        matrix.len(),
        rights.len(),
    ) {
        return Err(Fault {
            why: Refusal::Room,
            place: file.len(),
        });
    }
    fill_heads(file, r.arcs, r.parameters, r.totals, heads);
    let labels = 8 + 4 * r.arcs;
    fill_matrix(file, labels, r.parameters, r.matrix, r.is_small, matrix);
    fill_rights(file, labels, r.parameters, r.rights, r.is_small, rights);
    Ok(r)
}
