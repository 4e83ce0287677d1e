// Inner to the readers of arc files: the heading, read from a file's beginning.
#![tactic(auto)]

ghost use Rattle.std.specs.Prelude.{◌≡◌, ◌≤◌, IfOk};
ghost use Rattle.refusal.specs.Told.{told_placed};
ghost use Rattle.num_limits.specs.Capacities.{parameters_most};
ghost use Rattle.arc_front.specs.Front.{blank_heading};
ghost use Rattle.arc_front.specs.Parts.{heading_part};

use arc_heading::Heading;
use arc_limits::Settings;
use arc_sections::{Labels, Stations};
use refusal::Fault;

// A heading, and the place after it.
#[derive(Clone, Copy)]
pub struct HeadingRead {
    pub heading: Heading,
    pub next: usize,
}

pub fn blank() -> Heading
    ensures { result ≡ blank_heading }
{
    Heading {
        settings: Settings {
            arc: 0,
            first: 0,
            days: 0,
            level: 0,
        },
        parameters: 0,
        stations: 0,
        labels: arc_sections::no_labels(),
        listed: arc_sections::no_stations(),
    }
}

// The settings, the parameters and the stations, one after the other.
pub fn read_heading(s: &[u8]) -> Result<HeadingRead, Fault>
    ensures read { told_placed result ≡ heading_part s.now }
    ensures few { IfOk result (λ r. r.heading.parameters ≤ parameters_most) }
{
    let settings = arc_kinds::read_settings(s)?;
    let Labels {
        count: parameters,
        labels,
        next: place,
    } = arc_sections::read_labels(s, 16)?;
    let Stations {
        count: stations,
        listed,
        next,
    } = arc_sections::read_stations(s, place)?;
    let heading = Heading {
        settings,
        parameters,
        stations,
        labels,
        listed,
    };
    Ok(HeadingRead { heading, next })
}
