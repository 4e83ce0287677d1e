// Little-endian words at a place of a slice, read. Every place may be named: a byte past the end reads as 0.
#![tactic(auto)]

ghost use Rattle.std.specs.Prelude.{◌≡◌, ◌≤◌, ◌<◌, ◌^◌, length, drop};
ghost use Rattle.byte_words.specs.Words.{word};

// The bytes from a place on: none at a place past the end.
fn rest(s: &[u8], at: usize) -> &[u8]
    ensures { result.now ≡ drop at s.now }
{
    s.get(at..).unwrap_or(&[])
}

// The number of up to eight bytes, the least first.
fn number(bytes: &[u8]) -> u64
    requires { length bytes.now ≤ 8 }
    ensures value { result ≡ word (length bytes.now) bytes.now 0 }
    ensures small { result < 256 ^ length bytes.now }
{
    let mut v = 0;
    for &x in bytes.iter().rev() {
        v = v * 256 + u64::from(x);
    }
    v
}

// The word of K bytes at a place. Where all of them are there the compiler knows their number, and makes one load of the loop.
fn word<const K: usize>(s: &[u8], at: usize) -> u64
    requires { (0 < K) × (K ≤ 8) }
    ensures value { result ≡ word K s.now at }
    ensures small { result < 256 ^ K }
{
    if byte_words::left(s.len(), at) < K {
        number(rest(s, at))
    } else {
        number(&s[at..at + K])
    }
}

pub fn read_u16(s: &[u8], at: usize) -> u16
    ensures { result ≡ word 2 s.now at }
{
    word::<2>(s, at) as u16
}

pub fn read_u32(s: &[u8], at: usize) -> u32
    ensures { result ≡ word 4 s.now at }
{
    word::<4>(s, at) as u32
}

pub fn read_u64(s: &[u8], at: usize) -> u64
    ensures { result ≡ word 8 s.now at }
{
    word::<8>(s, at)
}
