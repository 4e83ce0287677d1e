// The arc file, read: for every list of bytes the heading, the number of records and where they stand, or the first refusal and its place.
#![tactic(auto)]

ghost use Rattle.std.specs.Prelude.{◌≡◌, ◌≤◌};
ghost use Rattle.refusal.specs.Told.{told_placed};
ghost use Rattle.num_limits.specs.Capacities.{parameters_most};
ghost use Rattle.arc_read.specs.Arc.{read_arc};
ghost use Rattle.arc_read.specs.Parts.{arc_from};

use arc_heading::Heading;
use byte_section::Span;
use refusal::{Fault, Refusal};

// What an arc file holds: its heading, how many records, and where the first of them stands.
#[derive(Clone, Copy)]
pub struct ArcRead {
    pub heading: Heading,
    pub count: usize,
    pub start: usize,
}

// What follows a heading: its records, and then no byte more.
fn read_rest(s: &[u8], at: usize, heading: Heading) -> Result<ArcRead, Fault>
    requires { heading.parameters ≤ parameters_most }
    ensures { told_placed result ≡ arc_from s.now at heading }
{
    let Span { count, next: end } = arc_sections::read_records(s, at, heading.parameters)?;
    if end < s.len() {
        Err(Fault {
            why: Refusal::Surplus,
            place: end,
        })
    } else {
        Ok(ArcRead {
            heading,
            count,
            start: at + 4,
        })
    }
}

// The four sections in their order, and then no byte more.
pub fn read(file: &[u8]) -> Result<ArcRead, Fault>
    ensures { told_placed result ≡ read_arc file.now }
{
    let front = arc_front::read_heading(file)?;
    read_rest(file, front.next, front.heading)
}
