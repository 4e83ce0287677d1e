// Little-endian words at a place of a slice, written. Every place may be named: no byte is written past the end.
#![tactic(auto)]

ghost use Rattle.std.specs.Prelude.{◌≡◌, ◌<◌, length};
ghost use Rattle.byte_words.specs.Words.{bytes_of, lay};

// The bytes of a number, the least first, as many as there is room for.
fn put(room: &mut [u8], number: u64)
    ensures { room.new ≡ bytes_of (length room.old) number }
{
    let mut left = number;
    for x in room {
        *x = (left % 256) as u8;
        left /= 256;
    }
}

// The K bytes of a number at a place. Where there is room for all of them the compiler knows their number, and makes one store of the loop.
fn write<const K: usize>(s: &mut [u8], at: usize, number: u64)
    requires { 0 < K }
    ensures { s.new ≡ lay s.old at (bytes_of K number) }
{
    if byte_words::left(s.len(), at) < K {
        if at < s.len() {
            put(&mut s[at..], number);
        }
    } else {
        put(&mut s[at..at + K], number);
    }
}

pub fn write_u16(s: &mut [u8], at: usize, v: u16)
    ensures { s.new ≡ lay s.old at (bytes_of 2 v) }
{
    write::<2>(s, at, u64::from(v));
}

pub fn write_u32(s: &mut [u8], at: usize, v: u32)
    ensures { s.new ≡ lay s.old at (bytes_of 4 v) }
{
    write::<4>(s, at, u64::from(v));
}

pub fn write_u64(s: &mut [u8], at: usize, v: u64)
    ensures { s.new ≡ lay s.old at (bytes_of 8 v) }
{
    write::<8>(s, at, v);
}
