// Inner to the readers and writers of normal files: the first unsound sum, found by a walk over the file's bytes; nothing is unpacked.
#![tactic(auto)]

ghost use Rattle.std.specs.Prelude.{◌≡◌, ◌+◌, ◌*◌, ◌≤◌, ◌<◌, ◌^◌, pos, length};
ghost use Rattle.num_limits.specs.Capacities.{arcs_most, labels_most};
ghost use Rattle.num_packed.specs.Triangle.{tri};
ghost use Rattle.num_packed.specs.Sound.{breaks_side};
ghost use Rattle.num_packed.specs.Found.{first_from, columns_from, told_walked};
ghost use Rattle.norm_system.specs.System.{sides_where, breaks_in};
ghost use Rattle.norm_sum.specs.Sums.{sums_at};
ghost use Rattle.norm_walk.specs.Walk.{unsound_at};
ghost use Rattle.norm_totals.specs.Told.{told_where};

use norm_totals::Unsound;

// The first unsound entry of the p columns that begin at a place, in a file of a form.
fn first_entry(s: &[u8], start: usize, p: usize, bound: u64, is_small: bool) -> Option<usize>
    requires p_le_labels_most { p ≤ labels_most }
    requires p_in_bounds { start + 8 * tri p ≤ length s.now }
    requires bound_bound { bound ≤ 2 ^ 62 }
    ensures { told_walked result ≡ columns_from (breaks_in is_small (pos bound) (sums_at s.now start (tri p))) 0 p }
{
    let least = norm_sum::least_of(is_small);
    let mut found = None;
    'all: for j in 0..p {
        let is_silent = norm_sum::is_silent_at(s, start, j);
        for i in 0..j + 1 {
            if norm_sum::is_broken(s, start, i, j, bound, least, is_silent) {
                found = Some(num_packed::place(i, j));
                break 'all;
            }
        }
    }
    found
}

// The first unsound one of p right sides.
fn first_side(s: &[u8], matrix: usize, rights: usize, p: usize, bound: u64) -> Option<usize>
    requires p_le_labels_most { p ≤ labels_most }
    requires p_in_bounds { (matrix + 8 * tri p ≤ length s.now) × (rights + 8 * p ≤ length s.now) }
    requires bound_bound { bound ≤ 2 ^ 62 }
    ensures { told_walked result ≡ first_from (breaks_side (pos bound) (sums_at s.now matrix (tri p)) (sums_at s.now rights p)) 0 p }
{
    for i in 0..p {
        if norm_sum::is_broken_side(s, matrix, rights, i, bound) {
            return Some(i);
        }
    }
    None
}

// What follows the matrix sums: the right sides, then the totals.
fn first_beyond(
    s: &[u8],
    arcs: usize,
    p: usize,
    matrix: usize,
    rights: usize,
    accepted: u64,
    square: u64,
) -> Option<Unsound>
    requires arcs_le_arcs_most { (arcs ≤ arcs_most) × (p ≤ labels_most) }
    requires p_in_bounds { (matrix + 8 * tri p ≤ length s.now) × (rights + 8 * p ≤ length s.now) }
    ensures { told_where result ≡ sides_where arcs p (sums_at s.now matrix (tri p)) (sums_at s.now rights p) accepted square }
{
    let bound = norm_totals::bound_of(arcs, accepted, norm_totals::FILE_RIGHT_UNIT);
    match first_side(s, matrix, rights, p, bound) {
        Some(k) => Some(Unsound::Right(k)),
        None => norm_totals::judge_totals(arcs, accepted, square),
    }
}

// The first unsound sum of a file for so many arcs, which stores those of p parameters; its sections' records begin at these places.
pub fn first_unsound(
    s: &[u8],
    arcs: usize,
    p: usize,
    matrix: usize,
    rights: usize,
    totals: usize,
    is_small: bool,
) -> Option<Unsound>
    requires arcs_le_arcs_most { (arcs ≤ arcs_most) × (p ≤ labels_most) }
    requires p_in_bounds { (matrix + 8 * tri p ≤ length s.now) × (rights + 8 * p ≤ length s.now) × (totals + 16 ≤ length s.now) }
    ensures { told_where result ≡ unsound_at is_small s.now arcs p matrix rights totals }
{
    let accepted = byte_read::read_u64(s, totals);
    let square = byte_read::read_u64(s, totals + 8);
    let bound = norm_totals::bound_of(arcs, accepted, norm_totals::FILE_MATRIX_UNIT);
    match first_entry(s, matrix, p, bound, is_small) {
        Some(k) => Some(Unsound::Matrix(k)),
        None => first_beyond(s, arcs, p, matrix, rights, accepted, square),
    }
}
