// The counts of accepted records, one for each station: their limits and their total.
#![tactic(auto)]

ghost use Rattle.std.specs.Prelude.{◌≡◌, ◌≤◌};
ghost use Rattle.num_limits.specs.Capacities.{accepted_most, count_most};
ghost use Rattle.num_whole.specs.Tests.{less, pick};
ghost use Rattle.take_counts.specs.Counts.{sum_of, Few, counts_sound};

use num_limits::{COUNT_MOST, STATIONS_MOST};

// The largest count that row i may have.
#[tactic(auto, unfolding(num_whole::specs::Tests::pick, num_whole::specs::Tests::less))]
fn count_limit(i: usize, stations: usize) -> u32
    ensures { result ≡ pick (less i stations) count_most 0 }
{
    if i < stations { COUNT_MOST } else { 0 }
}

pub fn counts_sound(stations: usize, counts: [u32; STATIONS_MOST]) -> bool
    ensures { result ≡ counts_sound stations counts }
{
    for i in 0..STATIONS_MOST {
        if count_limit(i, stations) < counts[i] {
            return false;
        }
    }
    true
}

// How many records were accepted, by the counts of the stations.
pub fn accepted(counts: [u32; STATIONS_MOST]) -> u64
    ensures { (result ≡ sum_of counts) × (Few counts → result ≤ accepted_most) }
{
    let mut n: u64 = 0;
    for station in 0..STATIONS_MOST {
        n += u64::from(counts[station]);
    }
    n
}
