// Whole numbers, tests and lists: what every later crate's definitions and proofs stand on. Nearly all of it is in specs/ and proofs/.
#![tactic(auto)]

ghost use Rattle.std.specs.Prelude.{◌≡◌, min};
ghost use Rattle.num_whole.specs.Tests.{between};

// Whether low ≤ x ≤ high.
#[tactic(auto, unfolding(crate::specs::Tests::between, crate::specs::Tests::both, crate::specs::Tests::up_to))]
pub fn within(low: u64, x: u64, high: u64) -> bool
    ensures { result ≡ between low x high }
{
    low <= x && x <= high
}

// The least of two numbers.
pub fn least(a: usize, b: usize) -> usize
    ensures { result ≡ min a b }
{
    a.min(b)
}
