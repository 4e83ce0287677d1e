// Little-endian signed words at a place of a slice, read and written. Every place may be named: a byte past the end reads as 0, and none is
// written there.
#![tactic(auto)]

ghost use Rattle.std.specs.Prelude.{◌≡◌};
ghost use Rattle.std.specs.Int.{w16, w32, w64};
ghost use Rattle.byte_words.specs.Words.{lay, signed_word, signed_bytes};

pub fn read_i16(s: &[u8], at: usize) -> i16
    ensures { result ≡ signed_word w16 s.now at }
{
    byte_read::read_u16(s, at).cast_signed()
}

pub fn read_i32(s: &[u8], at: usize) -> i32
    ensures { result ≡ signed_word w32 s.now at }
{
    byte_read::read_u32(s, at).cast_signed()
}

pub fn read_i64(s: &[u8], at: usize) -> i64
    ensures { result ≡ signed_word w64 s.now at }
{
    byte_read::read_u64(s, at).cast_signed()
}

pub fn write_i16(s: &mut [u8], at: usize, z: i16)
    ensures { s.new ≡ lay s.old at (signed_bytes w16 z) }
{
    byte_write::write_u16(s, at, z.cast_unsigned());
}

pub fn write_i32(s: &mut [u8], at: usize, z: i32)
    ensures { s.new ≡ lay s.old at (signed_bytes w32 z) }
{
    byte_write::write_u32(s, at, z.cast_unsigned());
}

pub fn write_i64(s: &mut [u8], at: usize, z: i64)
    ensures { s.new ≡ lay s.old at (signed_bytes w64 z) }
{
    byte_write::write_u64(s, at, z.cast_unsigned());
}
