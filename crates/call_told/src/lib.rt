// Inner to `call_part`: what an entry for a file in parts told, in numbers, and a heading in its room.
#![tactic(auto)]

ghost use Rattle.std.specs.Prelude.{◌≡◌, ◌≤◌, length};
ghost use Rattle.num_limits.specs.Capacities.{parameters_most, stations_most};
ghost use Rattle.num_whole.specs.Tests.{pick};
ghost use Rattle.byte_words.specs.Words.{lay};
ghost use Rattle.call_heading.specs.Lent.{heading_bytes};
ghost use Rattle.part_laws.specs.Entries.{told_part, took, stopped};
ghost use Rattle.call_told.specs.Told.{told_number, told_out, changes, with_all, head_roomy};

use arc_heading::Heading;
use part_laws::PartRefusal;

// 28, 20 and 6 change nothing.
pub fn changes(answer: Result<usize, PartRefusal>) -> bool
    ensures { result ≡ changes (told_part answer) }
{
    match answer {
        Ok(_) => true,
        Err(r) => match r {
            PartRefusal::Stopped(_) => false,
            PartRefusal::Broken(_, _) => true,
        },
    }
}

// An answer in numbers: the records and the place in their room, 0 or the refusal.
pub fn give_told(answer: Result<usize, PartRefusal>, out: &mut [u64]) -> u32
    requires { 2 ≤ length out.old }
    ensures value { result ≡ told_number (told_part answer) }
    ensures left { out.new ≡ told_out (told_part answer) out.old }
{
    match answer {
        Ok(n) => call_rooms::give(out, &[n as u64, 0]),
        Err(r) => match r {
            PartRefusal::Stopped(e) => refusal::number(e),
            PartRefusal::Broken(fault, n) => {
                call_rooms::give(out, &[n as u64, fault.place as u64]);
                refusal::number(fault.why)
            }
        },
    }
}

// The number of all records taken, with 0 too.
pub fn with_all(all: usize, answer: Result<usize, PartRefusal>) -> Result<usize, PartRefusal>
    ensures { told_part result ≡ with_all all (told_part answer) }
{
    answer?;
    Ok(all)
}

// A heading in its room and the number of records taken, or 20.
pub fn give_head(h: Heading, n: usize, heading: &mut [u8], out: &mut [u64]) -> u32
    requires { (h.parameters ≤ parameters_most) × (h.stations ≤ stations_most) × (2 ≤ length out.old) }
    ensures value { result ≡ told_number (pick (head_roomy h (length heading.old)) (took n) (stopped 20)) }
    ensures heading { heading.new ≡ pick (head_roomy h (length heading.old)) (lay heading.old 0 (heading_bytes h)) heading.old }
    ensures left { out.new ≡ told_out (pick (head_roomy h (length heading.old)) (took n) (stopped 20)) out.old }
{
    if 16 + 16 * h.parameters + 8 * h.stations <= heading.len() {
        call_heading::put_heading(h, heading);
        call_rooms::give(out, &[n as u64, 0])
    } else {
        20
    }
}
