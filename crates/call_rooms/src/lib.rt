// Results in lent room: a few values put at its front, or 20 and nothing changed.
#![tactic(auto)]

ghost use Rattle.std.specs.Prelude.{◌≡◌, ◌≤◌, length};
ghost use Rattle.std.specs.Mem.{FitsInMemory};
ghost use Rattle.num_whole.specs.Answer.{given};
ghost use Rattle.refusal.specs.Told.{told};
ghost use Rattle.call_rooms.specs.Result.{result_number, result_left, told_values, one, room_for};

use refusal::Refusal;

// Values at the front of a room.
pub fn give<T: Copy>(out: &mut [T], values: &[T]) -> u32
    ensures value { result ≡ result_number (given values.now) (length out.old) }
    ensures left { out.new ≡ result_left (given values.now) out.old }
{
    let n = values.len();
    if out.len() < n {
        return 20;
    }
    out[..n].copy_from_slice(values);
    0
}

// What an entry told: its value, or the number of its refusal.
pub fn give_told<T: Copy>(out: &mut [T], answer: Result<T, Refusal>) -> u32
    requires { FitsInMemory T.row }
    ensures value { result ≡ result_number (told_values one (told answer)) (length out.old) }
    ensures left { out.new ≡ result_left (told_values one (told answer)) out.old }
{
    match answer {
        Ok(x) => give(out, &[x]),
        Err(e) => refusal::number(e),
    }
}

// The room that bytes have beside one for their number.
pub fn room_for(size: usize, out: usize) -> usize
    ensures { (result ≡ room_for size out) × (result ≤ out) }
{
    if size < 1 { 0 } else { out }
}
