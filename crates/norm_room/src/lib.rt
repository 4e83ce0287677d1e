// Inner to the readers and writers of normal files: the length of a file, and whether a system's three lent rooms are long enough.
#![tactic(auto)]

ghost use Rattle.std.specs.Prelude.{◌≡◌, ◌+◌, ◌*◌, ◌≤◌};
ghost use Rattle.num_limits.specs.Capacities.{arcs_most, labels_most};
ghost use Rattle.num_packed.specs.Room.{sums_roomy};
ghost use Rattle.norm_room.specs.Room.{heads_roomy, roomy_for, file_long};

// The length of a file of so many arcs and parameters.
pub fn needed(arcs: usize, parameters: usize) -> usize
    requires { (arcs ≤ arcs_most) × (parameters ≤ labels_most) }
    ensures { result ≡ file_long arcs parameters }
{
    36 + 4 * arcs + 32 * parameters + 8 * num_packed::triangle(parameters)
}

// Whether a room of this length holds the heads of so many arcs and parameters.
pub fn heads_roomy(arcs: usize, parameters: usize, heads: usize) -> bool
    requires { (arcs ≤ arcs_most) × (parameters ≤ labels_most) }
    ensures { result ≡ heads_roomy arcs parameters heads }
{
    arcs + 5 * parameters + 2 <= heads
}

// Whether rooms of these lengths hold the sums of so many parameters.
pub fn sums_roomy(parameters: usize, matrix: usize, rights: usize) -> bool
    requires { parameters ≤ labels_most }
    ensures { result ≡ sums_roomy parameters matrix rights }
{
    num_packed::triangle(parameters) <= matrix && parameters <= rights
}

// Whether all three rooms are long enough.
pub fn is_roomy(arcs: usize, parameters: usize, heads: usize, matrix: usize, rights: usize) -> bool
    requires { (arcs ≤ arcs_most) × (parameters ≤ labels_most) }
    ensures { result ≡ roomy_for arcs parameters heads matrix rights }
{
    heads_roomy(arcs, parameters, heads) && sums_roomy(parameters, matrix, rights)
}
