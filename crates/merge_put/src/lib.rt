// Inner to `merge`: the arcs and labels of two normal files that were read, joined, and the merged file written into lent bytes.
#![tactic(auto)]

ghost use Rattle.std.specs.Prelude.{◌≡◌, ◌+◌, ◌*◌, ◌≤◌, length};
ghost use Rattle.num_limits.specs.Capacities.{labels_most};
ghost use Rattle.byte_words.specs.Words.{lay};
ghost use Rattle.byte_section.specs.Section.{encoded};
ghost use Rattle.num_packed.specs.Triangle.{tri};
ghost use Rattle.norm_kinds.specs.Kinds.{arc_number_bytes};
ghost use Rattle.norm_kinds.specs.Bytes.{normal_bytes};
ghost use Rattle.merge_join.specs.Join.{union};
ghost use Rattle.merge_laws.specs.Merge.{merged_of, merge_number};
ghost use Rattle.merge_put.specs.Parts.{system_in_file, AsRead, Joined, Located, ArcsFit, head_bytes, middle_bytes, last_bytes};

use norm_add::Column;
use norm_read::NormalRead;
use num_limits::{ARCS_MOST, LABELS_MOST};

// ---- arcs and labels joined

// How many arcs the two list, each counted once.
pub fn count_arcs(a: &[u8], x: NormalRead, b: &[u8], y: NormalRead) -> usize
    requires { AsRead a.now x × AsRead b.now y }
    ensures { result ≡ length (union (system_in_file a.now).arcs (system_in_file b.now).arcs) }
{
    let mut us: [u64; ARCS_MOST] = [0; ARCS_MOST];
    let mut vs: [u64; ARCS_MOST] = [0; ARCS_MOST];
    let mut left: [usize; 32] = [0; 32];
    let mut right: [usize; 32] = [0; 32];
    let m = x.arcs;
    let n = y.arcs;
    norm_heads::load_arcs(a, m, &mut us);
    norm_heads::load_arcs(b, n, &mut vs);
    merge_join::join(&us[..m], &vs[..n], &mut left, &mut right)
}

// The arcs that the two list, united, from a place of the room on.
fn put_arcs(out: &mut [u8], at: usize, a: &[u8], x: NormalRead, b: &[u8], y: NormalRead)
    requires as_read { AsRead a.now x × AsRead b.now y }
    requires b_in_bounds { at + 4 * length (union (system_in_file a.now).arcs (system_in_file b.now).arcs) ≤ length out.old }
    ensures { out.new ≡ lay out.old at (encoded arc_number_bytes (union (system_in_file a.now).arcs (system_in_file b.now).arcs)) }
{
    let mut us: [u64; ARCS_MOST] = [0; ARCS_MOST];
    let mut vs: [u64; ARCS_MOST] = [0; ARCS_MOST];
    let mut left: [usize; 32] = [0; 32];
    let mut right: [usize; 32] = [0; 32];
    let m = x.arcs;
    let n = y.arcs;
    norm_heads::load_arcs(a, m, &mut us);
    norm_heads::load_arcs(b, n, &mut vs);
    let count = merge_join::join(&us[..m], &vs[..n], &mut left, &mut right);
    merge_heads::put_arcs(out, at, count, &us[..m], &left, &vs[..n], &right);
}

// How many labels the two have, each counted once; their places go into the lent rooms.
pub fn join_labels(
    a: &[u8],
    x: NormalRead,
    b: &[u8],
    y: NormalRead,
    left: &mut [usize],
    right: &mut [usize],
) -> usize
    requires as_read { AsRead a.now x × AsRead b.now y }
    requires in_bounds { (1000 ≤ length left.old) × (1000 ≤ length right.old) }
    ensures { Joined a.now b.now result left.new right.new }
{
    let mut ka: [u64; LABELS_MOST] = [0; LABELS_MOST];
    let mut kb: [u64; LABELS_MOST] = [0; LABELS_MOST];
    let p = x.parameters;
    let q = y.parameters;
    merge_read::load_keys(a, 8 + 4 * x.arcs, p, &mut ka);
    merge_read::load_keys(b, 8 + 4 * y.arcs, q, &mut kb);
    merge_join::join(&ka[..p], &kb[..q], left, right)
}

// ---- the merged file

// Arcs and labels, each after its count.
fn put_heads(
    out: &mut [u8],
    a: &[u8],
    x: NormalRead,
    b: &[u8],
    y: NormalRead,
    m: usize,
    left: &[usize],
    right: &[usize],
    n: usize,
)
    requires as_read { AsRead a.now x × AsRead b.now y }
    requires arcs_fit { ArcsFit a.now b.now m × Joined a.now b.now n left.now right.now }
    requires n_le_labels_most { (n ≤ labels_most) × (8 + 4 * m + 24 * n ≤ length out.old) }
    ensures { out.new ≡ lay out.old 0 (head_bytes (merged_of (system_in_file a.now) (system_in_file b.now))) }
{
    byte_write::write_u32(out, 0, m as u32);
    put_arcs(out, 4, a, x, b, y);
    let at = 4 + 4 * m;
    byte_write::write_u32(out, at, n as u32);
    merge_heads::put_labels(
        out,
        at + 4,
        n,
        a,
        8 + 4 * x.arcs,
        x.parameters,
        left,
        b,
        8 + 4 * y.arcs,
        y.parameters,
        right,
    );
}

// Matrix sums and right sides, each after their count, from a place of the room on; those that a file stores are added at the places of their
// labels.
fn put_added(
    out: &mut [u8],
    at: usize,
    a: &[u8],
    x: NormalRead,
    ta: &[usize],
    b: &[u8],
    y: NormalRead,
    tb: &[usize],
    n: usize,
)
    requires as_read { AsRead a.now x × AsRead b.now y }
    requires b_value { (merge_number (system_in_file a.now) (system_in_file b.now) ≡ 0) × Located a.now b.now n ta.now tb.now }
    requires n_in_bounds { at + 8 + 8 * tri n + 8 * n ≤ length out.old }
    ensures { out.new ≡ lay out.old at (middle_bytes (merged_of (system_in_file a.now) (system_in_file b.now))) }
{
    let mut room: [i64; LABELS_MOST] = [0; LABELS_MOST];
    let sums = num_packed::triangle(n);
    byte_write::write_u32(out, at, sums as u32);
    merge_sums::put_columns(out, at + 4, n, a, x.matrix, ta, b, y.matrix, tb, &mut room);
    let next = at + 4 + 8 * sums;
    byte_write::write_u32(out, next, n as u32);
    let c = Column {
        base: x.rights,
        rows: x.stored,
    };
    let d = Column {
        base: y.rights,
        rows: y.stored,
    };
    merge_sums::put_sides(out, next + 4, a, c, ta, b, d, tb, &mut room[..n]);
}

// The places of the labels whose sums a file stores, among those joined, found once; then the sums.
fn put_middle(
    out: &mut [u8],
    at: usize,
    a: &[u8],
    x: NormalRead,
    b: &[u8],
    y: NormalRead,
    left: &[usize],
    right: &[usize],
    n: usize,
)
    requires as_read { AsRead a.now x × AsRead b.now y }
    requires b_value { (merge_number (system_in_file a.now) (system_in_file b.now) ≡ 0) × Joined a.now b.now n left.now right.now }
    requires n_in_bounds { at + 8 + 8 * tri n + 8 * n ≤ length out.old }
    ensures { out.new ≡ lay out.old at (middle_bytes (merged_of (system_in_file a.now) (system_in_file b.now))) }
{
    let mut ta: [usize; LABELS_MOST] = [0; LABELS_MOST];
    let mut tb: [usize; LABELS_MOST] = [0; LABELS_MOST];
    let p = merge_locate::locate(a, 8 + 4 * x.arcs, x.parameters, left, n, &mut ta);
    let q = merge_locate::locate(b, 8 + 4 * y.arcs, y.parameters, right, n, &mut tb);
    put_added(out, at, a, x, &ta[..p], b, y, &tb[..q], n);
}

// The totals after their count, from a place of the room on.
fn put_last(out: &mut [u8], at: usize, a: &[u8], x: NormalRead, b: &[u8], y: NormalRead)
    requires as_read { AsRead a.now x × AsRead b.now y }
    requires at_in_bounds { at + 20 ≤ length out.old }
    ensures { out.new ≡ lay out.old at (last_bytes (merged_of (system_in_file a.now) (system_in_file b.now))) }
{
    let accepted = byte_read::read_u64(a, x.totals) + byte_read::read_u64(b, y.totals);
    let square = byte_read::read_u64(a, x.totals + 8) + byte_read::read_u64(b, y.totals + 8);
    byte_write::write_u32(out, at, 1);
    byte_write::write_u64(out, at + 4, accepted);
    byte_write::write_u64(out, at + 12, square);
}

// The whole file.
pub fn put_file(
    out: &mut [u8],
    a: &[u8],
    x: NormalRead,
    b: &[u8],
    y: NormalRead,
    m: usize,
    left: &[usize],
    right: &[usize],
    n: usize,
)
    requires as_read { AsRead a.now x × AsRead b.now y }
    requires arcs_fit { ArcsFit a.now b.now m × Joined a.now b.now n left.now right.now }
    requires b_value { (merge_number (system_in_file a.now) (system_in_file b.now) ≡ 0) × (n ≤ labels_most) × (36 + 4 * m + 32 * n + 8 * tri n ≤ length out.old) }
    ensures { out.new ≡ lay out.old 0 (normal_bytes (merged_of (system_in_file a.now) (system_in_file b.now))) }
{
    put_heads(out, a, x, b, y, m, left, right, n);
    let middle = 8 + 4 * m + 24 * n;
    put_middle(out, middle, a, x, b, y, left, right, n);
    let last = middle + 8 + 8 * num_packed::triangle(n) + 8 * n;
    put_last(out, last, a, x, b, y);
}
