// Inner to `wheloruka`: what a call answers for what an entry told, in numbers, with its results in lent room.
#![tactic(auto)]

ghost use Rattle.std.specs.Prelude.{◌≡◌, ◌≤◌, length, IfOk};
ghost use Rattle.num_limits.specs.Capacities.{parameters_most, stations_most};
ghost use Rattle.refusal.specs.First.{number_in};
ghost use Rattle.refusal.specs.Told.{told, told_placed};
ghost use Rattle.call_rooms.specs.Result.{result_number, result_left, told_values, one};
ghost use Rattle.merge.specs.Files.{told_merge};
ghost use Rattle.call_files.specs.Reading.{refusal_place, judged_number, read_roomy, read_number, heading_left, places_left};
ghost use Rattle.call_files.specs.Writing.{move_call_number, merge_call_number};
ghost use Rattle.call_files.specs.Arcs.{arc_file, arc_left};
ghost use Rattle.call_files.specs.Taking.{seen_numbers, tally_left};

use arc_read::ArcRead;
use merge::MergeRefusal;
use refusal::{Fault, Refusal};
use take_tally::Tally;

// ---- files that are read

// The refusal of a file, 0 where there is none.
pub fn read_number<T: Copy>(answer: Result<T, Fault>) -> u32
    ensures { result ≡ judged_number (told_placed answer) }
{
    match answer {
        Err(fault) => refusal::number(fault.why),
        Ok(_) => 0,
    }
}

// Its place, 0 where there is none.
pub fn read_place<T: Copy>(answer: Result<T, Fault>) -> u64
    ensures { result ≡ refusal_place (told_placed answer) }
{
    match answer {
        Err(fault) => fault.place as u64,
        Ok(_) => 0,
    }
}

// Whether there is room for a heading and for two numbers.
#[tactic(auto, unfolding(crate::specs::Reading::read_roomy, num_whole::specs::Tests::both, num_whole::specs::Tests::up_to))]
fn is_roomy(parameters: usize, stations: usize, room: usize, out: usize) -> bool
    requires { (parameters ≤ parameters_most) × (stations ≤ stations_most) }
    ensures { result ≡ read_roomy parameters stations room out }
{
    16 + 16 * parameters + 8 * stations <= room && 2 <= out
}

// An arc file's heading in one room; the number of its records and the first one's place in another.
pub fn give_arc(answer: Result<ArcRead, Fault>, heading: &mut [u8], out: &mut [u64]) -> u32
    requires { IfOk answer (λ r. (r.heading.parameters ≤ parameters_most) × (r.heading.stations ≤ stations_most)) }
    ensures value { result ≡ read_number (told_placed answer) (length heading.old) (length out.old) }
    ensures heading { heading.new ≡ heading_left (told_placed answer) heading.old (length out.old) }
    ensures places { out.new ≡ places_left (told_placed answer) (length heading.old) out.old }
{
    match answer {
        Err(fault) => refusal::number(fault.why),
        Ok(r) => {
            let h = r.heading;
            if is_roomy(h.parameters, h.stations, heading.len(), out.len()) {
                call_heading::put_heading(h, heading);
                call_rooms::give(out, &[r.count as u64, r.start as u64])
            } else {
                20
            }
        }
    }
}

// ---- bytes that are written

// The number of bytes in a room of its own, or the refusal.
pub fn give_written(size: &mut [u64], answer: Result<usize, Refusal>) -> u32
    ensures value { result ≡ result_number (told_values one (told answer)) (length size.old) }
    ensures left { size.new ≡ result_left (told_values one (told answer)) size.old }
{
    match answer {
        Ok(n) => call_rooms::give(size, &[n as u64]),
        Err(e) => refusal::number(e),
    }
}

// The same of a file that was moved to a form.
pub fn give_moved(size: &mut [u64], answer: Result<usize, Fault>) -> u32
    ensures value { result ≡ result_number (told_values one (move_call_number (told_placed answer))) (length size.old) }
    ensures left { size.new ≡ result_left (told_values one (move_call_number (told_placed answer))) size.old }
{
    match answer {
        Ok(moved) => call_rooms::give(size, &[moved as u64]),
        Err(fault) => refusal::number(fault.why),
    }
}

// The same of two files merged: a file's own refusal plus 100 for the first, plus 200 for the second.
pub fn give_merged(size: &mut [u64], answer: Result<usize, MergeRefusal>) -> u32
    ensures value { result ≡ result_number (told_values one (merge_call_number (told_merge answer))) (length size.old) }
    ensures left { size.new ≡ result_left (told_values one (merge_call_number (told_merge answer))) size.old }
{
    match answer {
        Ok(n) => call_rooms::give(size, &[n as u64]),
        Err(MergeRefusal::First(fault)) => 100 + refusal::number(fault.why),
        Err(MergeRefusal::Second(fault)) => 200 + refusal::number(fault.why),
        Err(MergeRefusal::Together(e)) => refusal::number(e),
    }
}

// ---- an arc file of a heading in lent bytes

// The file at the start of a lent buffer, or a refusal that changes nothing: 2 comes before 20 where the heading's numbers are there and the rest is not.
pub fn write_arc(b: &[u8], run: &[u8], out: &mut [u8]) -> Result<usize, Refusal>
    ensures result_value { told result ≡ arc_file b.now run.now (length out.old) }
    ensures left { out.new ≡ arc_left b.now run.now out.old }
{
    if b.len() < 16 {
        return Err(Refusal::Room);
    }
    let h = call_heading::heading_in(b);
    if !arc_put::is_allowed(h, run) {
        return Err(Refusal::Count);
    }
    if !call_heading::has_heading(b) {
        return Err(Refusal::Room);
    }
    arc_write::write(h, run, out)
}

// ---- records that are taken

// The tally after a taking in its room, or the refusal.
pub fn give_taken(answer: Result<Tally, Refusal>, tally: &mut [u8]) -> u32
    ensures value { result ≡ number_in (told answer) }
    ensures left { tally.new ≡ tally_left (told answer) tally.old }
{
    match answer {
        Ok(after) => {
            call_tally::put_tally(after, tally);
            0
        }
        Err(e) => refusal::number(e),
    }
}

// Whether a parameter is seen, by any station or by one: 1 or 0 in lent room, or the refusal.
pub fn give_sight(out: &mut [u32], answer: Result<bool, Refusal>) -> u32
    ensures value { result ≡ result_number (told_values seen_numbers (told answer)) (length out.old) }
    ensures left { out.new ≡ result_left (told_values seen_numbers (told answer)) out.old }
{
    match answer {
        Ok(true) => call_rooms::give(out, &[1]),
        Ok(false) => call_rooms::give(out, &[0]),
        Err(e) => refusal::number(e),
    }
}
