// Normal files as large as they may be, made here, read and merged: one of 500 parameters and sixteen arcs; two of the same 500 parameters
// and eight arcs each; two of 436 that have 372 in common. Each line ends in a checksum of the file's bytes. A file is made by these rules,
// from which the lines to be written were worked out apart from this program, with the merging done label by label:
// - label l of the common ones: a cell (kind 1, index l / 32 * 33 + l % 32) below 186, else a coordinate (kind 2, index 5 l); after them come
//   six states and two constants of each arc. Prior weight 1000 l, estimate S(7919 l).
// - the sums take the numbers of a chain one by one in file order, n' = (1103515245 n + 12345) mod 2^31: S(n) is n / 2 where n is even, else
//   -1 - n / 2 (rounded down); a diagonal sum is n / 2 + 1; each sum of a label l with l mod 9 = 4 is 0 instead.
// - accepted is 4000 an arc, the square sum 1000003 an arc.
ghost use Rattle.std.specs.Prelude.{◌≡◌, ◌≤◌, ◌<◌};
ghost use Rattle.num_limits.specs.Capacities.{arcs_most, labels_most, sums_most};

use desk_lines::{Output, Tell};
use merge::MergeRefusal;
use norm_system::NormalLabel;
use refusal::Fault;

// What a file is made of: its first arc and how many follow each other, how many common labels, whether arcs have labels of their own, and
// where the chain of numbers begins.
#[derive(Clone, Copy)]
struct Plan {
    first: u32,
    arcs: usize,
    common: usize,
    own: bool,
    seed: u64,
}

// The longest normal file.
const FILE_MOST: usize = 1_018_100;

// ---- numbers

fn next(n: u64) -> u64 {
    (n % 2_147_483_648 * 1_103_515_245 + 12_345) % 2_147_483_648
}

fn spread(n: u64) -> i64 {
    let m = n % 2_147_483_648;
    let half = (m / 2) as i64;
    if m % 2 == 0 { half } else { !half }
}

fn is_silent(l: usize) -> bool {
    l % 9 == 4
}

// The matrix sum of row i and column j that number n of the chain gives.
fn entry(i: usize, j: usize, n: u64) -> i64 {
    if is_silent(i) || is_silent(j) {
        return 0;
    }
    if i == j {
        return (n % 2_147_483_648 / 2 + 1) as i64;
    }
    spread(n)
}

// The right side of parameter i.
fn side(i: usize, n: u64) -> i64 {
    if is_silent(i) { 0 } else { spread(n) }
}

// ---- a file

fn parameters(p: Plan) -> usize
    ensures { result ≤ labels_most }
{
    if p.own {
        return (p.common % 501 + 8 * (p.arcs % 17)).min(500);
    }
    p.common % 501
}

// Label l of the file, with its priors.
fn labelled(kind: u16, index: usize, arc: u32, l: usize) -> NormalLabel
    requires { (index < 65536) × (l < labels_most) }
{
    NormalLabel {
        kind,
        index: index as u16,
        arc,
        weight: 1000 * l as u32,
        estimate: spread(7919 * l as u64),
    }
}

fn common_label(l: usize) -> NormalLabel
    requires { l < labels_most }
{
    if l < 186 {
        return labelled(1, l / 32 * 33 + l % 32, 0, l);
    }
    labelled(2, 5 * l, 0, l)
}

// Label k of those that the arcs have of their own: the states come first.
fn own_label(p: Plan, k: usize, l: usize) -> NormalLabel
    requires { (k < labels_most) × (l < labels_most) }
{
    let first = p.first % 1000;
    let states = 6 * (p.arcs % 17);
    if k < states {
        return labelled(3, k % 6, first + (k / 6) as u32, l);
    }
    let m = k - states;
    labelled(4, m % 2, first + (m / 2) as u32, l)
}

fn label(p: Plan, l: usize) -> NormalLabel
    requires { l < labels_most }
{
    if l < p.common {
        common_label(l)
    } else {
        own_label(p, l - p.common, l)
    }
}

fn put_label(out: &mut [u8], at: usize, l: NormalLabel)
    requires { at < 2000000 }
{
    byte_write::write_u16(out, at, l.kind);
    byte_write::write_u16(out, at + 2, l.index);
    byte_write::write_u32(out, at + 4, l.arc);
    byte_write::write_u32(out, at + 8, l.weight);
    byte_write::write_u32(out, at + 12, 0);
    byte_signed::write_i64(out, at + 16, l.estimate);
}

fn put_labels(out: &mut [u8], at: usize, p: Plan, n: usize)
    requires { (at < 1000) × (n ≤ labels_most) }
{
    for i in 0..n {
        put_label(out, at + 24 * i, label(p, i));
    }
}

fn put_arcs(out: &mut [u8], first: u32, n: usize)
    requires { n ≤ 16 }
{
    for i in 0..n {
        byte_write::write_u32(out, 4 + 4 * i, first % 1000 + i as u32);
    }
}

// The matrix sums of column j: the number of the chain after them.
fn put_column(out: &mut [u8], at: usize, j: usize, seed: u64) -> u64
    requires { (at < 3000000) × (j < labels_most) }
{
    let mut n = seed;
    for i in 0..j + 1 {
        n = next(n);
        byte_signed::write_i64(out, at + 8 * i, entry(i, j, n));
    }
    n
}

fn put_matrix(out: &mut [u8], at: usize, p: usize, seed: u64) -> u64
    requires { (at < 1000000) × (p ≤ labels_most) }
{
    let mut n = seed;
    let mut k = at;
    for j in 0..p {
        n = put_column(out, k, j, n);
        k += 8 * (j + 1);
    }
    n
}

fn put_rights(out: &mut [u8], at: usize, p: usize, seed: u64)
    requires { (at < 3000000) × (p ≤ labels_most) }
{
    let mut n = seed;
    for i in 0..p {
        n = next(n);
        byte_signed::write_i64(out, at + 8 * i, side(i, n));
    }
}

// The last section, of so many arcs.
fn put_totals(out: &mut [u8], at: usize, arcs: usize)
    requires { (at < 3000000) × (arcs ≤ arcs_most) }
{
    byte_write::write_u32(out, at, 1);
    byte_write::write_u64(out, at + 4, 4000 * arcs as u64);
    byte_write::write_u64(out, at + 12, 1_000_003 * arcs as u64);
}

// Arcs and labels, each after its count: the place after them.
fn put_heads(out: &mut [u8], p: Plan, arcs: usize, n: usize) -> usize
    requires { (arcs ≤ arcs_most) × (n ≤ labels_most) }
    ensures { result ≤ 12072 }
{
    let labels = 4 + 4 * arcs;
    byte_write::write_u32(out, 0, arcs as u32);
    put_arcs(out, p.first, arcs);
    byte_write::write_u32(out, labels, n as u32);
    put_labels(out, labels + 4, p, n);
    labels + 4 + 24 * n
}

// How many matrix sums n parameters have.
fn triangle(n: usize) -> usize
    requires { n ≤ labels_most }
    ensures { result ≤ sums_most }
{
    n * (n + 1) / 2
}

// Matrix sums and right sides, each after their count: the place after them.
fn put_sums(out: &mut [u8], matrix: usize, n: usize, seed: u64) -> usize
    requires { (matrix ≤ 12072) × (n ≤ labels_most) }
    ensures { result ≤ 1100000 }
{
    let sums = triangle(n);
    let rights = matrix + 4 + 8 * sums;
    byte_write::write_u32(out, matrix, sums as u32);
    let last = put_matrix(out, matrix + 4, n, seed);
    byte_write::write_u32(out, rights, n as u32);
    put_rights(out, rights + 4, n, last);
    rights + 4 + 8 * n
}

// A file made in the room: its length.
fn make(out: &mut [u8], p: Plan) -> usize {
    let arcs = p.arcs % 17;
    let n = parameters(p);
    let matrix = put_heads(out, p, arcs, n);
    let totals = put_sums(out, matrix, n, p.seed);
    put_totals(out, totals, arcs);
    totals + 20
}

// ---- what is told

fn step(sum: u64, byte: u8) -> u64 {
    (sum % 4_294_967_291 * 257 + u64::from(byte)) % 4_294_967_291
}

fn checksum(bytes: &[u8]) -> u64 {
    bytes.iter().fold(0, |sum, byte| step(sum, *byte))
}

fn tell_refusal<R: Print + Tell>(stdout: &Output<'_, R>, fault: Fault) {
    let Fault { why, place } = fault;
    print!(stdout; "refused {} at {place}", refusal::number(why));
}

// What reading a file answers, its length and its checksum.
fn tell<R: Print + Tell>(stdout: &Output<'_, R>, name: &[u8], file: &[u8]) {
    desk_lines::put(stdout, name);
    match norm_read::read(file) {
        Ok(r) => print!(stdout; "{} arcs, {} parameters", r.arcs, r.parameters),
        Err(fault) => tell_refusal(stdout, fault),
    }
    print!(stdout; ", {} bytes, checksum {}\n", file.len(), checksum(file));
}

// Two files merged into the room: the length of the merged one, 0 with a refusal told.
fn merge<R: Print + Tell>(
    stdout: &Output<'_, R>,
    first: &[u8],
    second: &[u8],
    out: &mut [u8],
) -> usize {
    match merge::merge(first, second, out) {
        Ok(n) => n,
        Err(why) => {
            let fault = match why {
                MergeRefusal::First(fault) | MergeRefusal::Second(fault) => fault,
                MergeRefusal::Together(why) => Fault { why, place: 0 },
            };
            tell_refusal(stdout, fault);
            0
        }
    }
}

// Two files merged in both orders; before the second merge the room gets other bytes.
fn merge_both<R: Print + Tell>(
    stdout: &Output<'_, R>,
    first: &[u8],
    second: &[u8],
    out: &mut [u8],
    other: Plan,
) {
    tell(stdout, b"first: ", first);
    tell(stdout, b"second: ", second);
    let n = merge(stdout, first, second, out);
    tell(stdout, b"merged: ", desk_lines::part(out, 0, n));
    make(out, other);
    let m = merge(stdout, second, first, out);
    tell(
        stdout,
        b"merged in the other order: ",
        desk_lines::part(out, 0, m),
    );
}

// A file of eight arcs, the common labels and, where told, the arcs' own.
fn of_eight(first: u32, common: usize, own: bool, seed: u64) -> Plan {
    Plan {
        first,
        arcs: 8,
        common,
        own,
        seed,
    }
}

// Two such files with no arc in common.
fn pair<R: Print + Tell>(
    stdout: &Output<'_, R>,
    a: &mut [u8],
    b: &mut [u8],
    out: &mut [u8],
    common: usize,
    own: bool,
) {
    let one = of_eight(1, common, own, 101);
    let two = of_eight(9, common, own, 202);
    let n = make(a, one);
    let m = make(b, two);
    merge_both(
        stdout,
        desk_lines::part(a, 0, n),
        desk_lines::part(b, 0, m),
        out,
        one,
    );
}

// All of them.
pub fn run<R: Print + Tell>(stdout: &Output<'_, R>) {
    let mut a = desk_files::zeros::<FILE_MOST>();
    let mut b = desk_files::zeros::<FILE_MOST>();
    let mut out = desk_files::zeros::<FILE_MOST>();
    let whole = Plan {
        first: 1,
        arcs: 16,
        common: 372,
        own: true,
        seed: 303,
    };
    let n = make(&mut a, whole);
    tell(stdout, b"sixteen arcs: ", desk_lines::part(&a, 0, n));
    print!(stdout; "the same 500 parameters\n");
    pair(stdout, &mut a, &mut b, &mut out, 500, false);
    print!(stdout; "372 of 436 parameters in common\n");
    pair(stdout, &mut a, &mut b, &mut out, 372, true);
}
