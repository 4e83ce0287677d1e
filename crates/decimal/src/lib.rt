// Numbers and texts in ASCII, written into lent room one after another: each entry gives the place after what it wrote, where the next begins.
#![tactic(auto)]

ghost use Rattle.std.specs.Prelude.{◌≡◌, ◌+◌, ◌≤◌, ◌<◌, min, length, drop};
ghost use Rattle.decimal.specs.Decimal.{decimal, signed_decimal};
ghost use Rattle.decimal.specs.Laid.{laid};

// The place k after another, at most the end.
fn after(at: usize, k: usize, end: usize) -> usize
    ensures { result ≡ min (at + k) end }
{
    if k < byte_words::left(end, at) {
        at + k
    } else {
        end
    }
}

// The bytes of a text; those that would lie past the room's end are dropped.
pub fn put_text(room: &mut [u8], at: usize, text: &[u8]) -> usize
    ensures { (room.new, result) ≡ laid room.old at text.now }
{
    let n = text.len().min(byte_words::left(room.len(), at));
    for i in 0..n {
        room[at + i] = text[i];
    }
    after(at, text.len(), room.len())
}

// The byte of a digit.
fn digit(x: u64) -> u8
    requires { x < 10 }
    ensures { result ≡ 48 + x }
{
    48 + x as u8
}

// The digits of a number at the end of twenty bytes, from the place that is given on.
fn digits(n: u64, last: &mut [u8]) -> usize
    requires { length last.old ≡ 20 }
    ensures { (result ≤ 20) × (drop result last.new ≡ decimal n) }
{
    let mut x = n;
    let mut i: usize = 20;
    while 9 < x {
        i -= 1;
        last[i] = digit(x % 10);
        x = x / 10;
    }
    i -= 1;
    last[i] = digit(x);
    i
}

fn put_digits(room: &mut [u8], at: usize, n: u64, last: &mut [u8]) -> usize
    requires { length last.old ≡ 20 }
    ensures { (room.new, result) ≡ laid room.old at (decimal n) }
{
    let k = digits(n, last);
    put_text(room, at, &last[k..])
}

// The digits of a number.
pub fn put_decimal(room: &mut [u8], at: usize, n: u64) -> usize
    ensures { (room.new, result) ≡ laid room.old at (decimal n) }
{
    let mut last: [u8; 20] = [0; 20];
    put_digits(room, at, n, &mut last)
}

// The digits of a number, behind a minus where it is below 0.
pub fn put_signed(room: &mut [u8], at: usize, z: i64) -> usize
    ensures { (room.new, result) ≡ laid room.old at (signed_decimal z) }
{
    let n = num_signs::magnitude(z);
    if z < 0 {
        let next = put_text(room, at, b"-");
        put_decimal(room, next, n)
    } else {
        put_decimal(room, at, n)
    }
}
