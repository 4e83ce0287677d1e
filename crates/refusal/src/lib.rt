// The papers' refusal numbers: one enum, a case for each number of document 01's table and of document 02's requests.
#![tactic(auto)]

ghost use Rattle.std.specs.Prelude.{◌≡◌};
ghost use Rattle.refusal.specs.Number.{number_of};

#[derive(Clone, Copy)]
pub enum Refusal {
    // bytes end before a count or section is complete, or a record is short
    Short,
    // a count is not one that the paper allows
    Count,
    // bytes follow the last section or a record's end
    Surplus,
    // a heading, label, calendar or cell field is out of its limits
    Limits,
    // labels, stations or arcs don't ascend
    Order,
    // sums not sound, or a state that the layouts and limits rule out
    Unsound,
    // station not listed
    NoStation,
    // type not 1 to 10
    NoType,
    // s not 1 to 256
    Sigma,
    // day not 1 to 54,787, or ms not 0 to 86,399,999
    Clock,
    // t outside the window
    Window,
    // observed or computed not finite
    NotFinite,
    // either one's q out of its limits
    UnitLimits,
    // t not later than the last time of this station and type
    NotLater,
    // edit not passed
    Edit,
    // station already has 256
    Full,
    // a lent buffer shorter than needed
    Room,
    // both files list one arc
    SharedArc,
    // more than 16 arcs together
    ManyArcs,
    // more than 500 parameters together
    ManyParameters,
    // a common label with unlike prior weight or estimate
    Unlike,
    // from here on the numbers of requests that have not landed: nothing gives them yet
    // a label or arc that the system lacks
    Lacking,
    // a system written before each arc that its join listed has been added
    Early,
    // no parameter is left
    NothingLeft,
    // a part or a finish after the file is over, or after a refusal in its form
    Closed,
    // a time earlier than the one before it in its run
    Falling,
}

// A refusal of a file, and where in its bytes.
#[derive(Clone, Copy)]
pub struct Fault {
    pub why: Refusal,
    pub place: usize,
}

// The number of a refusal in the papers.
pub fn number(r: Refusal) -> u32
    ensures { result ≡ number_of r }
{
    match r {
        Refusal::Short => 1,
        Refusal::Count => 2,
        Refusal::Surplus => 3,
        Refusal::Limits => 4,
        Refusal::Order => 5,
        Refusal::Unsound => 6,
        Refusal::NoStation => 10,
        Refusal::NoType => 11,
        Refusal::Sigma => 12,
        Refusal::Clock => 13,
        Refusal::Window => 14,
        Refusal::NotFinite => 15,
        Refusal::UnitLimits => 16,
        Refusal::NotLater => 17,
        Refusal::Edit => 18,
        Refusal::Full => 19,
        Refusal::Room => 20,
        Refusal::SharedArc => 21,
        Refusal::ManyArcs => 22,
        Refusal::ManyParameters => 23,
        Refusal::Unlike => 24,
        Refusal::Lacking => 25,
        Refusal::Early => 26,
        Refusal::NothingLeft => 27,
        Refusal::Closed => 28,
        Refusal::Falling => 29,
    }
}
