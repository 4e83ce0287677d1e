// The arc file, written: the bytes of a heading and a run of records into lent room, or a refusal that changes nothing.
#![tactic(auto)]

ghost use Rattle.std.specs.Prelude.{◌≡◌, ◌/◌, ◌≤◌, length};
ghost use Rattle.refusal.specs.Told.{told};
ghost use Rattle.num_limits.specs.Capacities.{parameters_most, records_most, stations_most};
ghost use Rattle.arc_kinds.specs.Kinds.{record_size};
ghost use Rattle.arc_write.specs.Write.{write_arc, arc_left_in};
ghost use Rattle.arc_write.specs.Room.{room_answer};

use arc_heading::Heading;
use refusal::Refusal;

// The tests after the heading's: 1 for a run that ends inside a record, 20 for too little room.
fn judge_room(
    parameters: usize,
    stations: usize,
    bytes: usize,
    room: usize,
) -> Result<usize, Refusal>
    requires { (parameters ≤ parameters_most) × (stations ≤ stations_most) × (bytes / record_size parameters ≤ records_most) }
    ensures { told result ≡ room_answer parameters stations bytes room }
{
    if bytes % arc_fields::record_size(parameters) != 0 {
        return Err(Refusal::Short);
    }
    let n = arc_fields::needed(parameters, stations, bytes);
    if room < n { Err(Refusal::Room) } else { Ok(n) }
}

// What is to be answered.
fn judge(h: Heading, run: &[u8], room: usize) -> Result<usize, Refusal>
    ensures { told result ≡ write_arc h run.now room }
{
    if !arc_put::is_allowed(h, run) {
        return Err(Refusal::Count);
    }
    arc_heading::judge(h)?;
    judge_room(h.parameters, h.stations, run.len(), room)
}

// The whole file at the start of a lent buffer, which keeps its rest; a refusal changes nothing.
pub fn write(h: Heading, run: &[u8], out: &mut [u8]) -> Result<usize, Refusal>
    ensures answer { told result ≡ write_arc h run.now (length out.old) }
    ensures left { out.new ≡ arc_left_in h run.now out.old }
{
    let n = judge(h, run, out.len())?;
    arc_put::put_arc(h, run, out);
    Ok(n)
}
