// Inner to the readers and writers of normal files: one sum, read or put where it stands in the file's bytes, and held against its bound and its
// diagonals.
#![tactic(auto)]

ghost use Rattle.std.specs.Prelude.{◌≡◌, Bool, ℕ, ◌+◌, ◌*◌, ◌≤◌, ◌<◌, ◌^◌, pos, length, get_or};
ghost use Rattle.std.specs.Int.Signed.{lt_z};
ghost use Rattle.std.specs.Int.{w64};
ghost use Rattle.num_limits.specs.Capacities.{labels_most};
ghost use Rattle.byte_words.specs.Words.{lay, signed_word, signed_bytes};
ghost use Rattle.num_packed.specs.Triangle.{tri};
ghost use Rattle.num_packed.specs.Sound.{entry, is_zero, breaks_side};
ghost use Rattle.norm_system.specs.System.{breaks_in};
ghost use Rattle.norm_sum.specs.Sums.{sums_at, past, least_of};

// ---- one sum

// The sum at a place where it is whole, read from a part of just its bytes, so that nothing is tested.
pub fn sum_from(s: &[u8], at: usize) -> i64
    requires { at + 8 ≤ length s.now }
    ensures { result ≡ signed_word w64 s.now at }
{
    byte_signed::read_i64(&s[at..at + 8], 0)
}

// A sum put where its bytes have room, into a part of just them, so that nothing is tested.
pub fn put_sum(out: &mut [u8], at: usize, x: i64)
    requires { at + 8 ≤ length out.old }
    ensures { out.new ≡ lay out.old at (signed_bytes w64 x) }
{
    byte_signed::write_i64(&mut out[at..at + 8], 0, x);
}

// Sum k of those that begin at a place.
fn sum_at(s: &[u8], start: usize, k: usize) -> i64
    requires { start + 8 * k + 8 ≤ length s.now }
    ensures { (n : ℕ) → k < n → result ≡ get_or (sums_at s.now start n) k (pos 0) }
{
    sum_from(s, start + 8 * k)
}

fn is_past(x: i64, bound: u64) -> bool
    requires { bound ≤ 2 ^ 62 }
    ensures { result ≡ past bound x }
{
    let b = bound as i64;
    b < x || x < -b
}

fn is_zero(x: i64) -> bool
    ensures { result ≡ is_zero x }
{
    x == 0
}

// The least value that a diagonal may have in a form.
pub fn least_of(is_small: bool) -> i64
    ensures { result ≡ least_of is_small }
{
    if is_small { 1 } else { 0 }
}

fn is_low(x: i64, least: i64) -> bool
    ensures { result ≡ lt_z x least }
{
    x < least
}

// ---- matrix sums

// Whether the diagonal of column j is 0.
pub fn is_silent_at(s: &[u8], start: usize, j: usize) -> bool
    requires j_lt_labels_most { j < labels_most }
    requires j_in_bounds { start + 8 * tri (j + 1) ≤ length s.now }
    ensures { (n : ℕ) → tri (j + 1) ≤ n → result ≡ is_zero (entry (sums_at s.now start n) j j) }
{
    is_zero(sum_at(s, start, num_packed::place(j, j)))
}

// Whether the entry of row i and column j is one that the sums of a form cannot have, which tells the least value of a diagonal; `is_silent` is
// looked up once a column. The diagonal of the row is looked up only for an entry that is not 0.
pub fn is_broken(
    s: &[u8],
    start: usize,
    i: usize,
    j: usize,
    bound: u64,
    least: i64,
    is_silent: bool,
) -> bool
    requires i_le_j { (i ≤ j) × (j < labels_most) }
    requires j_in_bounds { start + 8 * tri (j + 1) ≤ length s.now }
    requires bound_bound { bound ≤ 2 ^ 62 }
    requires by_index { (n : ℕ) → tri (j + 1) ≤ n → is_silent ≡ is_zero (entry (sums_at s.now start n) j j) }
    ensures { (small : Bool) (n : ℕ) → least ≡ least_of small → tri (j + 1) ≤ n → result ≡ breaks_in small (pos bound) (sums_at s.now start n) i j }
{
    let x = sum_at(s, start, num_packed::place(i, j));
    if is_past(x, bound) {
        return true;
    }
    if i == j {
        return is_low(x, least);
    }
    if is_zero(x) {
        return false;
    }
    if is_zero(sum_at(s, start, num_packed::place(i, i))) {
        return true;
    }
    is_silent
}

// ---- right sides

// Whether the right side of parameter i is one that sums cannot have.
pub fn is_broken_side(s: &[u8], matrix: usize, rights: usize, i: usize, bound: u64) -> bool
    requires i_lt_labels_most { i < labels_most }
    requires i_in_bounds { (matrix + 8 * tri (i + 1) ≤ length s.now) × (rights + 8 * i + 8 ≤ length s.now) }
    requires bound_bound { bound ≤ 2 ^ 62 }
    ensures { (n k : ℕ) → tri (i + 1) ≤ n → i < k → result ≡ breaks_side (pos bound) (sums_at s.now matrix n) (sums_at s.now rights k) i }
{
    let y = sum_at(s, rights, i);
    if is_past(y, bound) {
        return true;
    }
    if is_zero(y) {
        return false;
    }
    is_zero(sum_at(s, matrix, num_packed::place(i, i)))
}
