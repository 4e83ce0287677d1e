// Inner to `norm_judge`: the arcs and labels of a system that stands in lent room, of any values, judged: 2, 4, 5.
#![tactic(auto)]

ghost use Rattle.std.specs.Prelude.{◌≡◌, true, ◌+◌, ◌*◌, ◌≤◌, length, take};
ghost use Rattle.num_limits.specs.Capacities.{arcs_most, labels_most};
ghost use Rattle.num_whole.specs.Lists.{all, ascend};
ghost use Rattle.norm_system.specs.System.{arc_ok, normal_label_ok, key_of};
ghost use Rattle.byte_words.specs.Stands.{stands};
ghost use Rattle.norm_room.specs.Room.{heads_long, label_in_heads, counts_fit, fields_fit, orders_fit};
ghost use Rattle.norm_fields.specs.Fields.{bare_label, is_small, SmallFields, bare_system};

use norm_system::NormalLabel;
use num_limits::{ARCS_MOST, ARCS_U64, LABELS_U64};

// ---- 2

pub fn counts_fit(arcs: usize, parameters: usize) -> bool
    ensures { result ≡ counts_fit arcs parameters }
{
    num_whole::within(1, arcs as u64, ARCS_U64)
        && num_whole::within(1, parameters as u64, LABELS_U64)
}

// ---- 4

// Whether a number is an arc's; one that four bytes do not hold is none.
fn arc_fits(a: u64) -> bool
    ensures { result ≡ arc_ok a }
{
    a < 4294967296 && norm_system::arc_ok(a as u32)
}

fn arcs_fit(heads: &[u64], n: usize) -> bool
    requires { n ≤ length heads.now }
    ensures { result ≡ all arc_ok (take n heads.now) }
{
    for i in 0..n {
        if !arc_fits(heads[i]) {
            return false;
        }
    }
    true
}

// The n arcs as words of four bytes; slots past them are 0.
fn arcs_of(heads: &[u64], n: usize) -> [u32; ARCS_MOST]
    requires { (n ≤ arcs_most) × (n ≤ length heads.now) × (all arc_ok (take n heads.now) ≡ true) }
    ensures { (take n result ≡ take n heads.now) × (arcs_most ≡ length result) }
{
    let mut arcs: [u32; ARCS_MOST] = [0; ARCS_MOST];
    for i in 0..n {
        arcs[i] = heads[i] as u32;
    }
    arcs
}

// Whether the bytes of a file hold these four numbers of a label.
fn is_small(kind: u64, index: u64, arc: u64, weight: u64) -> bool
    ensures { result ≡ is_small kind index arc weight }
{
    kind <= 65535 && index <= 65535 && arc <= 4294967295 && weight <= 4294967295
}

// The label whose first number stands at k, without its estimate, which no test looks at.
fn label_at(heads: &[u64], k: usize) -> NormalLabel
    requires { (k + 5 ≤ length heads.now) × SmallFields heads.now k }
    ensures { result ≡ bare_label heads.now k }
{
    NormalLabel {
        kind: heads[k] as u16,
        index: heads[k + 1] as u16,
        arc: heads[k + 2] as u32,
        weight: heads[k + 3] as u32,
        estimate: 0,
    }
}

fn label_fits(heads: &[u64], k: usize, arcs: &[u32]) -> bool
    requires { (k + 5 ≤ length heads.now) × (all arc_ok arcs.now ≡ true) }
    ensures { result ≡ normal_label_ok arcs.now (label_in_heads heads.now k) }
{
    is_small(heads[k], heads[k + 1], heads[k + 2], heads[k + 3])
        && norm_system::label_ok(label_at(heads, k), arcs)
}

// The n labels, of which the first stands at `from`, in a file that lists these arcs.
fn labels_fit(heads: &[u64], from: usize, n: usize, arcs: &[u32]) -> bool
    requires { (n ≤ labels_most) × (from + 5 * n ≤ length heads.now) × (all arc_ok arcs.now ≡ true) }
    ensures { result ≡ all (normal_label_ok arcs.now) (stands (label_in_heads heads.now) 5 n from) }
{
    for i in 0..n {
        if !label_fits(heads, from + 5 * i, arcs) {
            return false;
        }
    }
    true
}

pub fn fields_fit(arcs: usize, parameters: usize, heads: &[u64]) -> bool
    requires { (arcs ≤ arcs_most) × (parameters ≤ labels_most) × (heads_long arcs parameters ≤ length heads.now) }
    ensures { result ≡ fields_fit (bare_system arcs parameters heads.now) }
{
    if arcs_fit(heads, arcs) {
        let listed = arcs_of(heads, arcs);
        labels_fit(heads, arcs, parameters, &listed[..arcs])
    } else {
        false
    }
}

// ---- 5

fn arcs_ascend(heads: &[u64], n: usize) -> bool
    requires { (n ≤ length heads.now) × (all arc_ok (take n heads.now) ≡ true) }
    ensures { result ≡ ascend (λ a. a) 0 (take n heads.now) }
{
    let mut floor: u64 = 0;
    for i in 0..n {
        let a = heads[i];
        if a < floor {
            return false;
        }
        floor = a + 1;
    }
    true
}

fn labels_ascend(arcs: usize, n: usize, heads: &[u64]) -> bool
    requires { (arcs ≤ arcs_most) × (n ≤ labels_most) × (heads_long arcs n ≤ length heads.now) × (fields_fit (bare_system arcs n heads.now) ≡ true) }
    ensures { result ≡ ascend key_of 0 (stands (label_in_heads heads.now) 5 n arcs) }
{
    let mut floor: u64 = 0;
    for i in 0..n {
        let key = norm_system::label_key(label_at(heads, arcs + 5 * i));
        if key < floor {
            return false;
        }
        floor = key + 1;
    }
    true
}

pub fn orders_fit(arcs: usize, parameters: usize, heads: &[u64]) -> bool
    requires { (arcs ≤ arcs_most) × (parameters ≤ labels_most) × (heads_long arcs parameters ≤ length heads.now) × (fields_fit (bare_system arcs parameters heads.now) ≡ true) }
    ensures { result ≡ orders_fit (bare_system arcs parameters heads.now) }
{
    arcs_ascend(heads, arcs) && labels_ascend(arcs, parameters, heads)
}
