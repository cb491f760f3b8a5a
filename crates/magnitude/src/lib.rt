// A finite f64 as a significand times a power of two.
#![tactic(auto)]

ghost use Rattle.std.specs.Prelude.{◌+◌, ◌*◌, ◌^◌, ◌≤◌, ◌<◌, T};
ghost use Rattle.std.specs.Float.Ieee.Scale.{finite};
ghost use Rattle.rounding.specs.Magnitude.{IsMagnitude, Normalized};

pub mod cast;

// significand × 2^exponent, in a unit that the function names.
#[derive(Clone, Copy)]
pub struct Scaled {
    pub significand: u64,
    pub exponent: u64,
}

// The magnitude of x in units of 2^-1074.
pub fn magnitude_of(x: f64) -> Scaled
    requires { T (finite x) }
    ensures { IsMagnitude x result.significand result.exponent }
{
    let b = x.to_bits() % 9223372036854775808;
    let e = b / 4503599627370496;
    let t = b % 4503599627370496;
    if e == 0 {
        Scaled {
            significand: t,
            exponent: 0,
        }
    } else {
        Scaled {
            significand: 4503599627370496 + t,
            exponent: e - 1,
        }
    }
}

// The same number in units of 2^-1138, with 61 digits: a shift by n leaves 64 - n for the exponent. Only a subnormal number's digits have to be counted.
pub fn normalized(m: Scaled) -> Scaled
    requires nonzero { 0 < m.significand }
    requires fits { m.significand < 2 ^ 53 }
    requires in_range { m.exponent ≤ 2045 }
    ensures { Normalized m.significand m.exponent result.significand result.exponent }
{
    if m.significand >= 4503599627370496 {
        return Scaled {
            significand: m.significand * 256,
            exponent: m.exponent + 56,
        };
    }
    let zeros = u64::from(m.significand.leading_zeros());
    Scaled {
        significand: m.significand << (zeros - 3),
        exponent: m.exponent + 67 - zeros,
    }
}
