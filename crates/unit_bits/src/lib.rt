// Doubles from their bits.
#![tactic(auto)]

ghost use Rattle.std.specs.Prelude.{◌≡◌};
ghost use Rattle.std.specs.Float.{binary64};
ghost use Rattle.std.specs.Float.Ieee.{of_bits};

// The double of a pattern of 64 bits; there is one not-a-number.
pub fn double_of_bits(pattern: u64) -> f64
    ensures { result ≡ of_bits binary64 pattern }
{
    let low = pattern % 0x8000_0000_0000_0000;
    if low > 0x7ff0_0000_0000_0000 {
        return 0.0 / 0.0;
    }
    f64::from_bits(pattern)
}
