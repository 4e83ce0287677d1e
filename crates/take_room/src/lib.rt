// Inner to states: whether lent room has place for the sums of so many parameters, and its clearing.
#![tactic(auto)]

ghost use Rattle.std.specs.Prelude.{◌≡◌, ◌≤◌, min, length};
ghost use Rattle.num_limits.specs.Capacities.{parameters_most};
ghost use Rattle.num_packed.specs.Room.{sums_roomy};
ghost use Rattle.take_room.specs.Room.{cleared};

use num_limits::PARAMETERS_MOST;

// Whether so many parameters have room for their sums.
#[tactic(auto, unfolding(num_packed::specs::Room::sums_roomy, num_whole::specs::Tests::both, num_whole::specs::Tests::up_to))]
pub fn is_roomy(parameters: usize, matrix: &[i64], rights: &[i64]) -> bool
    ensures { result ≡ sums_roomy (min parameters parameters_most) (length matrix.now) (length rights.now) }
{
    let p = parameters.min(PARAMETERS_MOST);
    num_packed::place(0, p) <= matrix.len() && p <= rights.len()
}

// Makes the first n numbers 0.
pub fn clear(room: &mut [i64], n: usize)
    requires { n ≤ length room.old }
    ensures { room.new ≡ cleared n room.old }
{
    room[..n].fill(0);
}
