// What opens an arc file, read of its beginning: the heading, the count of its records and the place of the first of them.
#![tactic(auto)]

ghost use Rattle.std.specs.Prelude.{◌≡◌, ◌≤◌, length, IfOk};
ghost use Rattle.num_limits.specs.Capacities.{parameters_most, records_most};
ghost use Rattle.refusal.specs.Told.{told_placed};
ghost use Rattle.part_laws.specs.Beginning.{opened};

use arc_read::ArcRead;
use num_limits::RECORDS_U32;
use refusal::Fault;

pub fn open(s: &[u8]) -> Result<ArcRead, Fault>
    ensures opened { told_placed result ≡ opened s.now }
    ensures fits { IfOk result (λ a. (a.heading.parameters ≤ parameters_most) × (a.start ≤ length s.now) × (a.count ≤ records_most)) }
{
    let front = arc_front::read_heading(s)?;
    let count = byte_section::read_count(s, front.next, 0, RECORDS_U32)?;
    Ok(ArcRead {
        heading: front.heading,
        count,
        start: front.next + 4,
    })
}
