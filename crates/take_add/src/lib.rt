// Inner to `take_steps`: the terms of one record added to the packed triangle and to the right sides.
#![tactic(auto)]

ghost use Rattle.std.specs.Prelude.{◌≡◌, ◌≤◌, ◌<◌, ◌^◌, pos, ◌+ℤ◌, ◌*ℤ◌, nat_abs, length, get_or, set};
ghost use Rattle.num_limits.specs.Capacities.{parameters_most, stations_most, weight_top};
ghost use Rattle.take_marks.specs.Marks.{marks_with};
ghost use Rattle.num_whole.specs.Sums.{plus, Within};
ghost use Rattle.num_packed.specs.Triangle.{times, triangle_terms, tri};

fn mac(s: i64, f: i64, x: i16) -> i64
    requires { (nat_abs s ≤ 2 ^ 62) × (nat_abs f ≤ 2 ^ 31) }
    ensures { result ≡ s +ℤ f *ℤ x }
{
    s + f * (x as i64)
}

fn scale(w: u32, x: i16) -> i64
    requires { w ≤ weight_top }
    ensures { (result ≡ pos w *ℤ x) × (nat_abs result ≤ 2 ^ 31) }
{
    (w as i64) * (x as i64)
}

// Adds f times a's number at a place to the part's there.
fn add_at(part: &mut [i64], f: i64, a: &[i16], i: usize)
    requires i_in_bounds { (i < length part.old) × (i < length a.now) }
    requires f_bound { (nat_abs f ≤ 2 ^ 31) × (nat_abs (get_or part.old i (pos 0)) ≤ 2 ^ 62) }
    ensures { part.new ≡ set part.old i (get_or part.old i (pos 0) +ℤ f *ℤ get_or a.now i (pos 0)) }
{
    let s = part[i];
    let x = a[i];
    let y = mac(s, f, x);
    part[i] = y;
}

// Adds f times a's number at each place to the part's there. Two places a turn, so that it stays a loop over whole numbers: in vectors of
// two, which have no product of 64 bits, it would take twice the instructions.
pub fn add_times(part: &mut [i64], f: i64, a: &[i16])
    requires part_in_bounds { length part.old ≤ length a.now }
    requires f_bound { nat_abs f ≤ 2 ^ 31 }
    requires within { Within (2 ^ 62) part.old }
    ensures { part.new ≡ plus part.old (times f a.now) }
{
    let n = part.len();
    let mut i: usize = 0;
    while 1 < n - i {
        add_at(part, f, a, i);
        add_at(part, f, a, i + 1);
        i += 2;
    }
    if i < n {
        add_at(part, f, a, i);
    }
}

// Adds w times the products of a's numbers to the packed triangle, column by column, and sets a station's mark where a number is not 0: one
// pass over them for both.
pub fn add_matrix(sums: &mut [i64], a: &[i16], w: u32, marks: &mut [u16], row: u16)
    requires a_in_bounds { tri (length a.now) ≤ length sums.old }
    requires w_le_weight_top { (w ≤ weight_top) × (length a.now ≤ parameters_most) }
    requires a_in_bounds_2 { (length a.now ≤ length marks.old) × (row < stations_most) }
    requires within { Within (2 ^ 62) sums.old }
    ensures sums_after { sums.new ≡ plus sums.old (triangle_terms (pos w) a.now) }
    ensures marks { marks.new ≡ marks_with row a.now marks.old }
{
    let mut j: usize = 0;
    let mut k: usize = 0;
    while j < a.len() {
        let x = a[j];
        let f = scale(w, x);
        marks[j] = take_marks::with_partial(marks[j], row, x);
        let e = k + j + 1;
        add_times(&mut sums[k..e], f, a);
        k = e;
        j += 1;
    }
}
