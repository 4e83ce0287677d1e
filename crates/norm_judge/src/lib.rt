// Inner to `norm_write`: a system that stands in three lent rooms, of any values, judged: 2, 4, 5, 6, and 20 for the rooms.
#![tactic(auto)]

ghost use Rattle.std.specs.Prelude.{◌≡◌, true, false, ◌+◌, ◌*◌, ◌≤◌, ◌^◌, pos, length};
ghost use Rattle.num_limits.specs.Capacities.{arcs_most, labels_most};
ghost use Rattle.refusal.specs.First.{answered};
ghost use Rattle.refusal.specs.Told.{told};
ghost use Rattle.num_packed.specs.Triangle.{tri};
ghost use Rattle.norm_system.specs.System.{bound_of, totals_where, sides_where, sums_where};
ghost use Rattle.norm_room.specs.Room.{system_in_rooms, is_nowhere, sums_fit, system_number};
ghost use Rattle.norm_judge.specs.Judge.{sums_number, values_number, HeadsFit, Roomed};

use refusal::Refusal;

// ---- 6

// A bound for so many arcs, 0 where nothing was accepted.
fn bound_of(arcs: usize, accepted: u64, unit: u64) -> i64
    requires { (arcs ≤ arcs_most) × (unit ≤ 2 ^ 58) }
    ensures { result ≡ pos (bound_of arcs accepted unit) }
{
    norm_totals::bound_of(arcs, accepted, unit) as i64
}

fn totals_sound(arcs: usize, accepted: u64, square: u64) -> bool
    requires { arcs ≤ arcs_most }
    ensures { result ≡ is_nowhere (totals_where arcs accepted square) }
{
    norm_totals::judge_totals(arcs, accepted, square).is_none()
}

// The right sides and the totals.
fn sides_sound(
    arcs: usize,
    p: usize,
    matrix: &[i64],
    rights: &[i64],
    accepted: u64,
    square: u64,
) -> bool
    requires { (arcs ≤ arcs_most) × (p ≤ labels_most) × (tri p ≤ length matrix.now) × (p ≤ length rights.now) }
    ensures { result ≡ is_nowhere (sides_where arcs p matrix.now rights.now accepted square) }
{
    let bound = bound_of(arcs, accepted, norm_totals::FILE_RIGHT_UNIT);
    match num_packed::first_broken_side(matrix, rights, p, bound) {
        None => totals_sound(arcs, accepted, square),
        Some(_) => false,
    }
}

fn sums_sound(
    arcs: usize,
    p: usize,
    matrix: &[i64],
    rights: &[i64],
    accepted: u64,
    square: u64,
) -> bool
    requires { (arcs ≤ arcs_most) × (p ≤ labels_most) × (tri p ≤ length matrix.now) × (p ≤ length rights.now) }
    ensures { result ≡ is_nowhere (sums_where false arcs p matrix.now rights.now accepted square) }
{
    let bound = bound_of(arcs, accepted, norm_totals::FILE_MATRIX_UNIT);
    match num_packed::first_unsound(matrix, p, bound) {
        None => sides_sound(arcs, p, matrix, rights, accepted, square),
        Some(_) => false,
    }
}

fn sums_fit(arcs: usize, p: usize, heads: &[u64], matrix: &[i64], rights: &[i64]) -> bool
    requires { Roomed arcs p (length heads.now) (length matrix.now) (length rights.now) }
    ensures { result ≡ sums_fit (system_in_rooms arcs p heads.now matrix.now rights.now) }
{
    let totals = arcs + 5 * p;
    let sums = num_packed::triangle(p);
    sums_sound(
        arcs,
        p,
        &matrix[..sums],
        &rights[..p],
        heads[totals],
        heads[totals + 1],
    )
}

// ---- in their order

// 20 for the sums' rooms, 6.
fn judge_sums(
    arcs: usize,
    parameters: usize,
    heads: &[u64],
    matrix: &[i64],
    rights: &[i64],
) -> Result<(), Refusal>
    requires { HeadsFit arcs parameters (length heads.now) }
    ensures { told result ≡ answered (sums_number parameters (length matrix.now) (length rights.now) (system_in_rooms arcs parameters heads.now matrix.now rights.now)) tt }
{
    if !norm_room::sums_roomy(parameters, matrix.len(), rights.len()) {
        return Err(Refusal::Room);
    }
    if !sums_fit(arcs, parameters, heads, matrix, rights) {
        return Err(Refusal::Unsound);
    }
    Ok(())
}

// 4, 5, 20 for the sums' rooms, 6.
fn judge_values(
    arcs: usize,
    parameters: usize,
    heads: &[u64],
    matrix: &[i64],
    rights: &[i64],
) -> Result<(), Refusal>
    requires { HeadsFit arcs parameters (length heads.now) }
    ensures { told result ≡ answered (values_number parameters (length matrix.now) (length rights.now) (system_in_rooms arcs parameters heads.now matrix.now rights.now)) tt }
{
    if !norm_fields::fields_fit(arcs, parameters, heads) {
        return Err(Refusal::Limits);
    }
    if !norm_fields::orders_fit(arcs, parameters, heads) {
        return Err(Refusal::Order);
    }
    judge_sums(arcs, parameters, heads, matrix, rights)
}

// 2, 20 for the heads' room, 4, 5, 20 for the sums' rooms, 6, else sound.
pub fn judge(
    arcs: usize,
    parameters: usize,
    heads: &[u64],
    matrix: &[i64],
    rights: &[i64],
) -> Result<(), Refusal>
    ensures { told result ≡ answered (system_number arcs parameters heads.now matrix.now rights.now) tt }
{
    if !norm_fields::counts_fit(arcs, parameters) {
        return Err(Refusal::Count);
    }
    if !norm_room::heads_roomy(arcs, parameters, heads.len()) {
        return Err(Refusal::Room);
    }
    judge_values(arcs, parameters, heads, matrix, rights)
}
