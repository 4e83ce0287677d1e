// Two normal files of either form merged: the bytes of the merged file, in the old form, into lent room, or the first refusal, which changes nothing.
#![tactic(auto)]

ghost use Rattle.std.specs.Prelude.{◌≡◌, length};
ghost use Rattle.merge_put.specs.Parts.{system_in_file, AsRead};
ghost use Rattle.merge.specs.Files.{merge_answer, merge_left, told_merge};
ghost use Rattle.merge.specs.Pairs.{Merges};

use norm_read::NormalRead;
use num_limits::{ARCS_MOST, LABELS_MOST};
use refusal::{Fault, Refusal};

// A file that is refused, and where; or 20 to 24.
#[derive(Clone, Copy)]
pub enum MergeRefusal {
    First(Fault),
    Second(Fault),
    Together(Refusal),
}

// Two files that were read: 21 to 24, then 20, else the file.
fn merge_read(
    a: &[u8],
    x: NormalRead,
    b: &[u8],
    y: NormalRead,
    out: &mut [u8],
) -> Result<usize, MergeRefusal>
    requires { AsRead a.now x × AsRead b.now y }
    ensures { Merges result (system_in_file a.now) (system_in_file b.now) out.old out.new }
{
    let m = merge_put::count_arcs(a, x, b, y);
    if m < x.arcs + y.arcs {
        return Err(MergeRefusal::Together(Refusal::SharedArc));
    }
    if ARCS_MOST < m {
        return Err(MergeRefusal::Together(Refusal::ManyArcs));
    }
    let mut left: [usize; 1000] = [0; 1000];
    let mut right: [usize; 1000] = [0; 1000];
    let n = merge_put::join_labels(a, x, b, y, &mut left, &mut right);
    if LABELS_MOST < n {
        return Err(MergeRefusal::Together(Refusal::ManyParameters));
    }
    let begin = 8 + 4 * x.arcs;
    let start = 8 + 4 * y.arcs;
    if !merge_read::agree(
        a,
        begin,
        x.parameters,
        &left,
        b,
        start,
        y.parameters,
        &right,
        n,
    ) {
        return Err(MergeRefusal::Together(Refusal::Unlike));
    }
    let length = norm_room::needed(m, n);
    if out.len() < length {
        return Err(MergeRefusal::Together(Refusal::Room));
    }
    merge_put::put_file(out, a, x, b, y, m, &left, &right, n);
    Ok(length)
}

// The first file is read, then the second; then 21 to 24, then 20; then the merged file is written.
pub fn merge(first: &[u8], second: &[u8], out: &mut [u8]) -> Result<usize, MergeRefusal>
    ensures { (told_merge result ≡ merge_answer first.now second.now (length out.old)) × (out.new ≡ merge_left first.now second.now out.old) }
{
    let x = norm_read::read(first).map_err(MergeRefusal::First)?;
    let y = norm_read::read(second).map_err(MergeRefusal::Second)?;
    merge_read(first, x, second, y, out)
}
