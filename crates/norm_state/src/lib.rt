// The normal file of a state: what the one arc of a heading has summed, as the bytes of a normal file, or a refusal that changes nothing.
#![tactic(auto)]

ghost use Rattle.std.specs.Prelude.{◌≡◌, [], map, ◌+◌, ◌*◌, ◌≤◌, length};
ghost use Rattle.num_limits.specs.Capacities.{parameters_most};
ghost use Rattle.byte_words.specs.Words.{lay};
ghost use Rattle.refusal.specs.First.{answered};
ghost use Rattle.refusal.specs.Told.{told};
ghost use Rattle.arc_heading.specs.Judge.{labels_of};
ghost use Rattle.num_packed.specs.Triangle.{tri};
ghost use Rattle.take_state.specs.State.{state_of};
ghost use Rattle.norm_kinds.specs.Kinds.{normal_label_bytes};
ghost use Rattle.norm_kinds.specs.Bytes.{sectioned};
ghost use Rattle.norm_room.specs.Room.{file_long};
ghost use Rattle.norm_state.specs.OfState.{arc_for, label_of_arc, state_bytes, held_number, file_of, state_left_in};

use arc_heading::Heading;
use arc_limits::Label;
use norm_system::NormalLabel;
use refusal::Refusal;
use take_tally::Tally;

// The arc that a label of a kind is of: 0 for kinds 1 and 2, which all arcs share.
fn arc_for(arc: u32, kind: u16) -> u32
    ensures { result ≡ arc_for arc kind }
{
    if kind <= 2 { 0 } else { arc }
}

fn put_label(out: &mut [u8], at: usize, arc: u32, l: Label)
    requires { at + 24 ≤ length out.old }
    ensures { out.new ≡ lay out.old at (normal_label_bytes (label_of_arc arc l)) }
{
    let label = NormalLabel {
        kind: l.kind,
        index: l.index,
        arc: arc_for(arc, l.kind),
        weight: l.weight,
        estimate: l.estimate,
    };
    norm_kinds::put_label(out, at, label, 0);
}

// The parameters section: its count and the labels that count.
fn put_labels(h: Heading, out: &mut [u8], start: usize)
    requires { (h.parameters ≤ parameters_most) × (start + 4 + 24 * h.parameters ≤ length out.old) }
    ensures { out.new ≡ lay out.old start (sectioned normal_label_bytes (map (label_of_arc h.settings.arc) (labels_of h)) []) }
{
    byte_write::write_u32(out, start, h.parameters as u32);
    for i in 0..h.parameters {
        put_label(out, start + 4 + 24 * i, h.settings.arc, h.labels[i]);
    }
}

// The five sections, each after its count.
fn put_file(h: Heading, t: Tally, matrix: &[i64], rights: &[i64], out: &mut [u8])
    requires parameters_le_parameters_most { (h.parameters ≤ parameters_most) × (tri h.parameters ≤ length matrix.now) × (h.parameters ≤ length rights.now) }
    requires parameters_in_bounds { file_long 1 h.parameters ≤ length out.old }
    ensures { out.new ≡ lay out.old 0 (state_bytes h (state_of matrix.now rights.now t)) }
{
    let p = h.parameters;
    let n = take_counts::accepted(t.counts);
    byte_write::write_u32(out, 0, 1);
    byte_write::write_u32(out, 4, h.settings.arc);
    put_labels(h, out, 8);
    norm_put::put_tail(p, matrix, rights, n, t.square, out, 12 + 24 * p);
}

// 2, 4, 5, 20 for the sums' rooms, 6, else sound. Of a heading that is sound the state's judge has 20 and 6 left.
fn judge_held(h: Heading, t: Tally, matrix: &[i64], rights: &[i64]) -> Result<(), Refusal>
    ensures { told result ≡ answered (held_number h (state_of matrix.now rights.now t)) tt }
{
    arc_heading::judge(h)?;
    take_state::judge_state(h, t, matrix, rights)
}

// The whole file at the start of a lent buffer, which keeps its rest; a refusal changes nothing.
pub fn of_state(
    h: Heading,
    t: Tally,
    matrix: &[i64],
    rights: &[i64],
    out: &mut [u8],
) -> Result<usize, Refusal>
    ensures answer { told result ≡ file_of h (state_of matrix.now rights.now t) (length out.old) }
    ensures left { out.new ≡ state_left_in h (state_of matrix.now rights.now t) out.old }
{
    judge_held(h, t, matrix, rights)?;
    let n = norm_room::needed(1, h.parameters);
    if out.len() < n {
        return Err(Refusal::Room);
    }
    put_file(h, t, matrix, rights, out);
    Ok(n)
}
