// Inner to states and normal files: places in the packed triangle, and the first sum that is not sound.
#![tactic(auto)]

ghost use Rattle.std.specs.Prelude.{◌≡◌, ◌+◌, ◌*◌, ◌≤◌, ◌<◌, pos, length, true, false, cond, neg_ℤ, ◌≤ℤ◌};
ghost use Rattle.std.specs.Int.Signed.{lt_z};
ghost use Rattle.num_whole.specs.Tests.{below};
ghost use Rattle.num_limits.specs.Capacities.{labels_most, sums_most};
ghost use Rattle.num_packed.specs.Sound.{breaks, breaks_side};
ghost use Rattle.num_packed.specs.Found.{first_from, columns_from, told_walked};
ghost use Rattle.num_packed.specs.Plain.{seen_at, within_at};
ghost use Rattle.num_packed.specs.Triangle.{triangle_terms, tri};

// How many matrix sums p parameters have.
pub fn triangle(p: usize) -> usize
    requires { p ≤ labels_most }
    ensures { (result ≡ tri p) × (result ≤ sums_most) }
{
    p * (p + 1) / 2
}

// The place of row i and column j in the packed triangle.
pub fn place(i: usize, j: usize) -> usize
    requires { (i ≤ j) × (j ≤ labels_most) }
    ensures { result ≡ tri j + i }
{
    triangle(j) + i
}

// Whether a sum is larger in size than a bound.
fn is_past(x: i64, bound: i64) -> bool
    requires { pos 0 ≤ℤ bound }
    ensures { result ≡ cond (lt_z bound x) true (lt_z x (neg_ℤ bound)) }
{
    bound < x || x < -bound
}

// Whether the entry of row i and column j is one that sums cannot have.
fn is_broken(s: &[i64], i: usize, j: usize, bound: i64) -> bool
    requires i_le_j { (i ≤ j) × (j < labels_most) }
    requires j_in_bounds { tri (j + 1) ≤ length s.now }
    requires pos_bound { pos 0 ≤ℤ bound }
    ensures { result ≡ breaks bound s.now i j }
{
    let x = s[place(i, j)];
    if is_past(x, bound) {
        return true;
    }
    if i == j {
        return x < 0;
    }
    x != 0 && (s[place(i, i)] == 0 || s[place(j, j)] == 0)
}

// The first entry that sums of p columns cannot have, where there is one: each is judged by itself, by its bound, its row and its column.
fn walk(s: &[i64], p: usize, bound: i64) -> Option<usize>
    requires p_le_labels_most { (p ≤ labels_most) × (tri p ≤ length s.now) }
    requires pos_bound { pos 0 ≤ℤ bound }
    ensures { told_walked result ≡ columns_from (breaks bound s.now) 0 p }
{
    let mut found = None;
    'all: for j in 0..p {
        for i in 0..j + 1 {
            if is_broken(s, i, j, bound) {
                found = Some(place(i, j));
                break 'all;
            }
        }
    }
    found
}

// Whether the diagonal of parameter i is above 0.
fn is_seen(s: &[i64], i: usize) -> bool
    requires { (i < labels_most) × (tri (i + 1) ≤ length s.now) }
    ensures { result ≡ seen_at s.now i }
{
    0 < s[place(i, i)]
}

// Whether each diagonal of p parameters is.
fn all_seen(s: &[i64], p: usize) -> bool
    requires { (p ≤ labels_most) × (tri p ≤ length s.now) }
    ensures { result ≡ below (seen_at s.now) p }
{
    for i in 0..p {
        if !is_seen(s, i) {
            return false;
        }
    }
    true
}

// Whether sum k is within a bound.
fn is_within(s: &[i64], k: usize, bound: i64) -> bool
    requires k_in_bounds { k < length s.now }
    requires pos_bound { pos 0 ≤ℤ bound }
    ensures { result ≡ within_at bound s.now k }
{
    !is_past(s[k], bound)
}

// Whether each of the first n sums is.
fn all_within(s: &[i64], n: usize, bound: i64) -> bool
    requires n_in_bounds { n ≤ length s.now }
    requires pos_bound { pos 0 ≤ℤ bound }
    ensures { result ≡ below (within_at bound s.now) n }
{
    for k in 0..n {
        if !is_within(s, k, bound) {
            return false;
        }
    }
    true
}

// The first entry that sums of p columns cannot have, where there is one. Where each diagonal is above 0 no entry has to be 0, and the bounds
// alone tell that all are sound, at a third of the work.
pub fn first_unsound(s: &[i64], p: usize, bound: i64) -> Option<usize>
    requires p_le_labels_most { (p ≤ labels_most) × (tri p ≤ length s.now) }
    requires pos_bound { pos 0 ≤ℤ bound }
    ensures { told_walked result ≡ columns_from (breaks bound s.now) 0 p }
{
    if all_seen(s, p) {
        let n = triangle(p);
        if all_within(s, n, bound) {
            return None;
        }
    }
    walk(s, p, bound)
}

// Whether the right side of parameter i is one that sums cannot have.
fn is_broken_side(s: &[i64], r: &[i64], i: usize, bound: i64) -> bool
    requires i_lt_labels_most { i < labels_most }
    requires i_in_bounds { (tri (i + 1) ≤ length s.now) × (i < length r.now) }
    requires pos_bound { pos 0 ≤ℤ bound }
    ensures { result ≡ breaks_side bound s.now r.now i }
{
    let y = r[i];
    is_past(y, bound) || y != 0 && s[place(i, i)] == 0
}

// The first right side that sums of p parameters cannot have, where there is one.
pub fn first_broken_side(s: &[i64], r: &[i64], p: usize, bound: i64) -> Option<usize>
    requires p_le_labels_most { (p ≤ labels_most) × (tri p ≤ length s.now) × (p ≤ length r.now) }
    requires pos_bound { pos 0 ≤ℤ bound }
    ensures { told_walked result ≡ first_from (breaks_side bound s.now r.now) 0 p }
{
    for i in 0..p {
        if is_broken_side(s, r, i, bound) {
            return Some(i);
        }
    }
    None
}
