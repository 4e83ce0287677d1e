// Inner to the writers of normal files: the bytes of a system that stands in three lent rooms, and the sections that a state's file shares.
#![tactic(auto)]

ghost use Rattle.std.specs.Prelude.{◌≡◌, ◌+◌, ◌*◌, ◌%◌, ◌≤◌, [], length, take};
ghost use Rattle.num_limits.specs.Capacities.{arcs_most, labels_most, sums_most};
ghost use Rattle.byte_words.specs.Words.{lay};
ghost use Rattle.byte_words.specs.Stands.{stands};
ghost use Rattle.num_packed.specs.Triangle.{tri};
ghost use Rattle.norm_kinds.specs.Kinds.{arc_number_bytes, normal_label_bytes, sum_bytes};
ghost use Rattle.norm_kinds.specs.Bytes.{sectioned, normal_bytes};
ghost use Rattle.norm_room.specs.Room.{heads_long, label_in_heads, system_in_rooms, file_long};
ghost use Rattle.norm_put.specs.Bytes.{name_bytes, tail_bytes};

// ---- labels

// A word's last bits: a number that is within its limits has no others.
fn low16(x: u64) -> u16
    ensures { result ≡ x % 65536 }
{
    (x % 65536) as u16
}

fn low32(x: u64) -> u32
    ensures { result ≡ x % 4294967296 }
{
    (x % 4294967296) as u32
}

// A label but for its estimate: 16 bytes.
pub fn put_name(out: &mut [u8], at: usize, kind: u64, index: u64, arc: u64, weight: u64)
    requires { at + 16 ≤ length out.old }
    ensures { out.new ≡ lay out.old at (name_bytes kind index arc weight) }
{
    byte_write::write_u16(out, at, low16(kind));
    byte_write::write_u16(out, at + 2, low16(index));
    byte_write::write_u32(out, at + 4, low32(arc));
    byte_write::write_u32(out, at + 8, low32(weight));
    byte_write::write_u32(out, at + 12, 0);
}

// The label whose first number stands at k of the heads.
fn put_label(heads: &[u64], k: usize, out: &mut [u8], at: usize)
    requires { (k + 5 ≤ length heads.now) × (at + 24 ≤ length out.old) }
    ensures { out.new ≡ lay out.old at (normal_label_bytes (label_in_heads heads.now k)) }
{
    put_name(out, at, heads[k], heads[k + 1], heads[k + 2], heads[k + 3]);
    byte_write::write_u64(out, at + 16, heads[k + 4]);
}

// The parameters section: its count and n labels, of which the first stands at `from` of the heads.
fn put_labels(heads: &[u64], from: usize, n: usize, out: &mut [u8], start: usize)
    requires { (n ≤ labels_most) × (from + 5 * n ≤ length heads.now) × (start + 4 + 24 * n ≤ length out.old) }
    ensures { out.new ≡ lay out.old start (sectioned normal_label_bytes (stands (label_in_heads heads.now) 5 n from) []) }
{
    byte_write::write_u32(out, start, n as u32);
    for i in 0..n {
        put_label(heads, from + 5 * i, out, start + 4 + 24 * i);
    }
}

// ---- arcs

// The arcs section, the first of the file: its count and the first n of the heads.
fn put_arcs(heads: &[u64], n: usize, out: &mut [u8])
    requires { (n ≤ arcs_most) × (n ≤ length heads.now) × (4 + 4 * n ≤ length out.old) }
    ensures { out.new ≡ lay out.old 0 (sectioned arc_number_bytes (take n heads.now) []) }
{
    byte_write::write_u32(out, 0, n as u32);
    for i in 0..n {
        byte_write::write_u32(out, 4 + 4 * i, low32(heads[i]));
    }
}

// ---- sums

// A section of n sums: its count and the first n of a room.
fn put_sums(sums: &[i64], n: usize, out: &mut [u8], start: usize)
    requires { (n ≤ sums_most) × (n ≤ length sums.now) × (start + 4 + 8 * n ≤ length out.old) }
    ensures { out.new ≡ lay out.old start (sectioned sum_bytes (take n sums.now) []) }
{
    byte_write::write_u32(out, start, n as u32);
    for i in 0..n {
        byte_signed::write_i64(out, start + 4 + 8 * i, sums[i]);
    }
}

// What follows the labels of p parameters: the matrix sums, the right sides and the totals.
pub fn put_tail(
    p: usize,
    matrix: &[i64],
    rights: &[i64],
    accepted: u64,
    square: u64,
    out: &mut [u8],
    at: usize,
)
    requires p_le_labels_most { (p ≤ labels_most) × (tri p ≤ length matrix.now) × (p ≤ length rights.now) }
    requires p_in_bounds { at + 28 + 8 * tri p + 8 * p ≤ length out.old }
    ensures { out.new ≡ lay out.old at (tail_bytes (take (tri p) matrix.now) (take p rights.now) accepted square) }
{
    let sums = num_packed::triangle(p);
    let rights_at = at + 4 + 8 * sums;
    put_sums(matrix, sums, out, at);
    put_sums(rights, p, out, rights_at);
    norm_kinds::put_totals(out, rights_at + 4 + 8 * p, accepted, square);
}

// ---- the file

// The whole file of the system that stands in three rooms.
pub fn put(
    arcs: usize,
    parameters: usize,
    heads: &[u64],
    matrix: &[i64],
    rights: &[i64],
    out: &mut [u8],
)
    requires arcs_le_arcs_most { (arcs ≤ arcs_most) × (parameters ≤ labels_most) }
    requires parameters_in_bounds { (heads_long arcs parameters ≤ length heads.now) × (tri parameters ≤ length matrix.now) × (parameters ≤ length rights.now) }
    requires parameters_in_bounds_2 { file_long arcs parameters ≤ length out.old }
    ensures { out.new ≡ lay out.old 0 (normal_bytes (system_in_rooms arcs parameters heads.now matrix.now rights.now)) }
{
    let totals = arcs + 5 * parameters;
    let labels_at = 4 + 4 * arcs;
    let tail_at = labels_at + 4 + 24 * parameters;
    put_arcs(heads, arcs, out);
    put_labels(heads, arcs, parameters, out, labels_at);
    put_tail(
        parameters,
        matrix,
        rights,
        heads[totals],
        heads[totals + 1],
        out,
        tail_at,
    );
}
