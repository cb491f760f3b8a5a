// Casts to u32, over bits and comparisons, as the documents ask.
ghost use Rattle.std.specs.Prelude.{◌≡◌};
ghost use Rattle.std.specs.Float.Ieee.{to_unsigned};
ghost use Rattle.rules.specs.GridAndNearest.{ceiling};

use crate::magnitude_of;

// Rust's x as u32: toward zero, and to the nearest end of the range from outside it. The comparisons fail for a NaN.
pub fn truncated(x: f64) -> u32
    ensures { result ≡ to_unsigned 32 x }
{
    if 1.0 <= x {
        if x < 4294967296.0 {
            let m = magnitude_of(x);
            return (m.significand >> (1074 - m.exponent)) as u32;
        }
        return u32::MAX;
    }
    0
}

// Rust's x.ceil() as u32.
pub fn ceiling(x: f64) -> u32
    ensures { result ≡ ceiling 32 x }
{
    let whole = truncated(x);
    if f64::from(whole) < x {
        whole.saturating_add(1)
    } else {
        whole
    }
}
