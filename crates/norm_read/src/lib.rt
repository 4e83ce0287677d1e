// The normal file of either form, read: for every list of bytes the numbers of arcs and parameters, the form, and where the sums stand, or the
// first refusal and its place. Nothing is unpacked: labels are judged and sums are walked over where they stand.
#![tactic(auto)]

ghost use Rattle.std.specs.Prelude.{◌≡◌, ◌+◌, ◌≤◌, length};
ghost use Rattle.num_limits.specs.Capacities.{arcs_most, labels_most};
ghost use Rattle.refusal.specs.Told.{told_placed};
ghost use Rattle.norm_sections.specs.Sums.{Room};
ghost use Rattle.norm_read.specs.Normal.{read_normal, numbers_of};
ghost use Rattle.norm_read.specs.Parts.{places_in, judged_sums};

use norm_heads::HeadsRead;
use norm_sections::Places;
use norm_totals::Unsound;
use refusal::{Fault, Refusal};

// The numbers of arcs and parameters, how many parameters have their sums stored (all in the old form, those seen in the small one), whether the
// form is the small one, and where the records of the matrix sums, the right sides and the totals begin.
#[derive(Clone, Copy)]
pub struct NormalRead {
    pub arcs: usize,
    pub parameters: usize,
    pub stored: usize,
    pub is_small: bool,
    pub matrix: usize,
    pub rights: usize,
    pub totals: usize,
}

// 6 at the first unsound sum, else what was read.
fn judge_sums(s: &[u8], r: NormalRead) -> Result<NormalRead, Fault>
    requires arcs_le_arcs_most { (r.arcs ≤ arcs_most) × (r.stored ≤ labels_most) }
    requires room { Room (length s.now) r.stored (places_in r) }
    ensures { told_placed result ≡ judged_sums s.now r }
{
    let place = match norm_walk::first_unsound(
        s, r.arcs, r.stored, r.matrix, r.rights, r.totals, r.is_small,
    ) {
        None => return Ok(r),
        Some(Unsound::Matrix(k)) => r.matrix + 8 * k,
        Some(Unsound::Right(k)) => r.rights + 8 * k,
        Some(Unsound::Accepted) => r.totals,
        Some(Unsound::Square) => r.totals + 8,
    };
    Err(Fault {
        why: Refusal::Unsound,
        place,
    })
}

// The five sections in their order, then no byte more, then sound sums.
pub fn read(file: &[u8]) -> Result<NormalRead, Fault>
    ensures { told_placed result ≡ numbers_of (read_normal file.now) }
{
    let HeadsRead {
        arcs,
        parameters,
        stored,
        is_small,
        next,
    } = norm_heads::read_heads(file)?;
    let Places {
        matrix,
        rights,
        totals,
    } = norm_sections::read_sums(file, next, stored)?;
    judge_sums(
        file,
        NormalRead {
            arcs,
            parameters,
            stored,
            is_small,
            matrix,
            rights,
            totals,
        },
    )
}
