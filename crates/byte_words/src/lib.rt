// Little-endian words at a place of a list of bytes: the definitions and their laws. The code that reads them is `byte_read`, the code that writes them `byte_write`.
#![tactic(auto)]

ghost use Rattle.std.specs.Prelude.{◌≡◌, ◌-◌};

// How many of `length` bytes stand at a place and after it.
pub fn left(length: usize, at: usize) -> usize
    ensures { result ≡ length - at }
{
    length.saturating_sub(at)
}
