// Inner to merging: the sums of one normal file, added into a target at the places that the target has for their labels.
#![tactic(auto)]

ghost use Rattle.std.specs.Prelude.{◌≡◌, true, ℕ, ◌+◌, ◌*◌, ◌^◌, ◌≤◌, ◌<◌, pos, ◌+ℤ◌, nat_abs, length, get_or, set};
ghost use Rattle.num_limits.specs.Capacities.{labels_most};
ghost use Rattle.num_whole.specs.Sums.{plus};
ghost use Rattle.num_packed.specs.Triangle.{tri};
ghost use Rattle.norm_labels.specs.Seats.{ascending};
ghost use Rattle.norm_labels.specs.Table.{rows_of};
ghost use Rattle.norm_add.specs.Add.{on_place, on_places, Passed, Addable};

// Sums that stand one after the other in a file's bytes: where the first begins, and how many there are.
#[derive(Clone, Copy)]
pub struct Column {
    pub base: usize,
    pub rows: usize,
}

fn sum_of(x: i64, y: i64) -> i64
    requires { nat_abs x + nat_abs y < 2 ^ 63 }
    ensures { result ≡ x +ℤ y }
{
    x + y
}

// Adds a sum to the one at a place.
fn add_at(part: &mut [i64], k: usize, x: i64)
    requires k_in_bounds { k < length part.old }
    requires x_bound { nat_abs (get_or part.old k (pos 0)) + nat_abs x < 2 ^ 63 }
    ensures { part.new ≡ set part.old k (get_or part.old k (pos 0) +ℤ x) }
{
    part[k] = sum_of(part[k], x);
}

// Adds the sums of a column, the ith at the ith place of t.
pub fn add_column(part: &mut [i64], s: &[u8], c: Column, t: &[usize])
    requires rows_in_bounds { (c.base + 8 * c.rows ≤ length s.now) × (c.rows ≤ length t.now) }
    requires t_value { (ascending t.now ≡ true) × ((i : ℕ) → i < c.rows → get_or t.now i 0 < length part.old) }
    requires addable { Addable s.now c.base c.rows part.old }
    ensures { part.new ≡ plus part.old (rows_of (on_place s.now c t.now) 0 (length part.old)) }
{
    for i in 0..c.rows {
        let k = t[i];
        let x = norm_sum::sum_from(s, c.base + 8 * i);
        add_at(part, k, x);
    }
}

// Adds to column j of a target what the file has of it: its next column, the qth, where that one's place is j, else nothing. How many of the
// file's columns are then done.
pub fn add_next(part: &mut [i64], s: &[u8], start: usize, t: &[usize], q: usize, j: usize) -> usize
    requires t_value { (ascending t.now ≡ true) × Passed t.now j q × (j + 1 ≡ length part.old) }
    requires t_len_bound { (length t.now ≤ labels_most) × (start + 8 * tri (length t.now) ≤ length s.now) }
    requires addable { Addable s.now start (tri (length t.now)) part.old }
    ensures { (part.new ≡ plus part.old (rows_of (λ i. on_places s.now start t.now i j) 0 (j + 1))) × Passed t.now (j + 1) result }
{
    if q < t.len() {
        if t[q] == j {
            let base = start + 8 * num_packed::triangle(q);
            let c = Column { base, rows: q + 1 };
            add_column(part, s, c, t);
            return q + 1;
        }
    }
    q
}
