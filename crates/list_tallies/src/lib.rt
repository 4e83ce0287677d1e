// Inner to the listing: the table of what records were answered, kept as they are taken, and the lines of the refusals.
#![tactic(auto)]

ghost use Rattle.std.specs.Prelude.{◌≡◌, ◌+◌, ◌<◌, ◌^◌, length, get_or, set};
ghost use Rattle.decimal.specs.Laid.{laid};
ghost use Rattle.list_lines.specs.Lines.{tally_line, tally_lines};
ghost use Rattle.list_tallies.specs.Tables.{counted, CountsFit};

// A table has a place for each answer that a record can have: 0, accepted, and the refusals from 1 to 19. list_lines/specs/Lines.antt has the number
// as `answersMost`.
pub const ANSWERS: usize = 20;

const ANSWERS_U8: u8 = ANSWERS as u8;

// One record more with an answer; a table has no place for an answer that no record gets.
fn count_one(table: &mut [u64], answer: u8)
    requires { get_or table.old answer 0 + 1 < 2 ^ 64 }
    ensures { table.new ≡ set table.old answer (get_or table.old answer 0 + 1) }
{
    let k = answer as usize;
    if k < table.len() {
        table[k] += 1;
    }
}

// Records more, by their answers.
pub fn count(table: &mut [u64], told: &[u8])
    requires { CountsFit table.old (length told.now) }
    ensures { table.new ≡ counted table.old told.now }
{
    for answer in told {
        count_one(table, *answer);
    }
}

// How many records have an answer; none of an answer that the table has no place for.
pub fn tally(table: &[u64], k: u8) -> u64
    ensures { result ≡ get_or table.now k 0 }
{
    table.get(usize::from(k)).copied().unwrap_or(0)
}

fn put_tally(room: &mut [u8], at: usize, table: &[u64], k: u8) -> usize
    ensures { (room.new, result) ≡ laid room.old at (tally_line table.now k) }
{
    let n = tally(table, k);
    if n == 0 {
        at.min(room.len())
    } else {
        list_lines::put_two(room, at, b"", k as u64, b" ", n)
    }
}

// A line for each refusal number from 1 to 19 that a record has.
pub fn put_tallies(room: &mut [u8], start: usize, table: &[u64]) -> usize
    ensures { (room.new, result) ≡ laid room.old start (tally_lines table.now 19 1) }
{
    let mut at = start;
    for k in 1..ANSWERS_U8 {
        at = put_tally(room, at, table, k);
    }
    at.min(room.len())
}
