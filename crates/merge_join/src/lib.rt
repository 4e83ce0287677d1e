// Inner to `merge_laws`: two ascending lists of numbers united, with the places of each number of the union in both.
#![tactic(auto)]

ghost use Rattle.std.specs.Prelude.{◌≡◌, true, ◌+◌, ◌≤◌, ◌<◌, length};
ghost use Rattle.norm_labels.specs.Seats.{ascending};
ghost use Rattle.merge_join.specs.Join.{Joins};
ghost use Rattle.merge_join.specs.Walk.{Stepped};

// A number's place in the left and in the right list, a list's length where it lacks the number; and how many of each are then done.
#[derive(Clone, Copy)]
pub struct Turn {
    pub left: usize,
    pub right: usize,
    pub i: usize,
    pub j: usize,
}

// The least number that is left of either list.
fn step(xs: &[u64], ys: &[u64], i: usize, j: usize) -> Turn
    requires xs_value { (ascending xs.now ≡ true) × (ascending ys.now ≡ true) }
    requires i_in_bounds { (i ≤ length xs.now) × (j ≤ length ys.now) × (i + j < length xs.now + length ys.now) }
    ensures { Stepped xs.now ys.now i j result }
{
    let m = xs.len();
    let n = ys.len();
    if i < m {
        if j < n {
            let x = xs[i];
            let y = ys[j];
            if x < y {
                return Turn {
                    left: i,
                    right: n,
                    i: i + 1,
                    j,
                };
            }
            if y < x {
                return Turn {
                    left: m,
                    right: j,
                    i,
                    j: j + 1,
                };
            }
            return Turn {
                left: i,
                right: j,
                i: i + 1,
                j: j + 1,
            };
        }
        return Turn {
            left: i,
            right: n,
            i: i + 1,
            j,
        };
    }
    Turn {
        left: m,
        right: j,
        i,
        j: j + 1,
    }
}

// How many numbers the union has; their places in both lists go into the lent rooms.
pub fn join(xs: &[u64], ys: &[u64], left: &mut [usize], right: &mut [usize]) -> usize
    requires xs_value { (ascending xs.now ≡ true) × (ascending ys.now ≡ true) }
    requires ys_in_bounds { length xs.now + length ys.now ≤ length left.old }
    requires ys_in_bounds_2 { length xs.now + length ys.now ≤ length right.old }
    ensures { Joins xs.now ys.now left.old right.old result left.new right.new }
{
    let mut i: usize = 0;
    let mut j: usize = 0;
    let mut n: usize = 0;
    while i + j < xs.len() + ys.len() {
        let t = step(xs, ys, i, j);
        left[n] = t.left;
        right[n] = t.right;
        n += 1;
        i = t.i;
        j = t.j;
    }
    n
}
