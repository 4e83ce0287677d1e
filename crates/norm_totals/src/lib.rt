// Inner to the readers and writers of normal files: the bound of a sum for so many arcs, and the two totals judged.
#![tactic(auto)]

ghost use Rattle.std.specs.Prelude.{◌≡◌, ◌≤◌, ◌^◌};
ghost use Rattle.num_limits.specs.Capacities.{arcs_most};
ghost use Rattle.norm_system.specs.System.{bound_of, totals_where};
ghost use Rattle.norm_totals.specs.Told.{told_where};

// What the sums of one arc can come to: 2^58 a matrix sum, 2^55 a right side, 2^52 the square sum, and 4,096 records.
pub const FILE_MATRIX_UNIT: u64 = 288230376151711744;

pub const FILE_RIGHT_UNIT: u64 = 36028797018963968;

const FILE_SQUARE_UNIT: u64 = 4503599627370496;

const FILE_ACCEPTED: u64 = 4096;

// Which sum of a file is unsound, by its number in its section.
#[derive(Clone, Copy)]
pub enum Unsound {
    Matrix(usize),
    Right(usize),
    Accepted,
    Square,
}

// A bound for so many arcs, 0 where nothing was accepted.
pub fn bound_of(arcs: usize, accepted: u64, unit: u64) -> u64
    requires { (arcs ≤ arcs_most) × (unit ≤ 2 ^ 58) }
    ensures { (result ≡ bound_of arcs accepted unit) × (result ≤ 2 ^ 62) }
{
    if accepted == 0 { 0 } else { arcs as u64 * unit }
}

pub fn judge_totals(arcs: usize, accepted: u64, square: u64) -> Option<Unsound>
    requires { arcs ≤ arcs_most }
    ensures { told_where result ≡ totals_where arcs accepted square }
{
    if arcs as u64 * FILE_ACCEPTED < accepted {
        return Some(Unsound::Accepted);
    }
    if bound_of(arcs, accepted, FILE_SQUARE_UNIT) < square {
        return Some(Unsound::Square);
    }
    None
}
