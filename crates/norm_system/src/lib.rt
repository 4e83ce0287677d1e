// A label of a normal file by value: its limits and its key; and the limits of an arc.
#![tactic(auto)]

ghost use Rattle.std.specs.Prelude.{◌≡◌, ◌+◌, ◌*◌, ◌<◌, ◌^◌};
ghost use Rattle.norm_system.specs.System.{arc_ok, arc_listed, normal_label_ok, key_of};

use num_limits::ARC_MOST;

#[derive(Clone, Copy)]
pub struct NormalLabel {
    pub kind: u16,
    pub index: u16,
    pub arc: u32,
    pub weight: u32,
    pub estimate: i64,
}

// Whether an arc's number is one that the paper allows.
pub fn arc_ok(a: u32) -> bool
    ensures { result ≡ arc_ok a }
{
    num_whole::within(1, u64::from(a), ARC_MOST)
}

// Arc 0 for kinds 1 and 2, else a listed arc.
fn arc_fits(l: NormalLabel, arcs: &[u32]) -> bool
    ensures { result ≡ arc_listed arcs.now l }
{
    if l.kind > 2 {
        arcs.contains(&l.arc)
    } else {
        l.arc == 0
    }
}

// Whether a label's fields are within their limits, in a file that lists these arcs.
pub fn label_ok(l: NormalLabel, arcs: &[u32]) -> bool
    ensures { result ≡ normal_label_ok arcs.now l }
{
    l.weight <= arc_limits::WEIGHT_MOST
        && arc_limits::index_ok(l.kind, l.index)
        && arc_fits(l, arcs)
}

// The kind, the arc and the index of a label as one number, by which labels ascend.
pub fn label_key(l: NormalLabel) -> u64
    ensures { (result ≡ key_of l) × (result < (l.kind + 1) * 2 ^ 48) }
{
    u64::from(l.kind) * 281474976710656 + u64::from(l.arc) * 65536 + u64::from(l.index)
}
