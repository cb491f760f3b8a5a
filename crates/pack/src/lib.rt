// From many digits to a float, rounded once.
#![tactic(auto)]

ghost use Rattle.std.specs.Prelude.{◌≡◌};
ghost use Prim.Native.Nat.{◌+◌, ◌*◌, ◌^◌, ◌≤◌, ◌<◌, compare};
ghost use Rattle.std.specs.Float.Ieee.{nearest};
ghost use Rattle.std.specs.Float.Ieee.Nearest.{closest};
ghost use Rattle.rounding.specs.StickyBit.{sticky_bit};
ghost use Rattle.rounding.specs.Pack.{UlpExponent, digits, rounded_from};

use std::cmp::Ordering;
use wide::{Wide, sticky_bit};

fn nearest_even(m: u64, twice: u64, unit: u64) -> u64
    requires { m < 2 ^ 63 }
    ensures { result ≡ nearest m (compare twice unit) }
{
    match twice.cmp(&unit) {
        Ordering::Less => m,
        Ordering::Equal => m + m % 2,
        Ordering::Greater => m + 1,
    }
}

// q without its last cut digits, rounded; the sticky bit says whether something lies below them.
fn rounded_shift(q: u64, sticky: u64, cut: u64) -> u64
    requires fits { q < 2 ^ 63 }
    requires sticky { sticky ≤ 1 }
    requires cut { cut < 64 }
    ensures { result ≡ closest (2 * q + sticky) (2 * 2 ^ cut) }
{
    let m = q >> cut;
    let rest = q - (m << cut);
    nearest_even(m, 2 * rest + sticky, 1u64 << cut)
}

// The exponent of the ulp of q × 2^e's result, in units of the smallest number: e counts from 2^-2276, which is 1202 places lower, and 53 digits are kept.
fn ulp_exponent(q: u64, e: u64) -> u64
    requires { e ≤ 5000 }
    ensures { UlpExponent (digits q) e result }
{
    let digits = 64 - u64::from(q.leading_zeros());
    (digits + e).saturating_sub(1255)
}

// (q + sticky / 2) × 2^e, in units of 2^-2276, rounded once.
fn round_pack(q: u64, sticky: u64, e: u64) -> f64
    requires least { 2 ^ 53 ≤ q }
    requires fits { q < 2 ^ 63 }
    requires sticky { sticky ≤ 1 }
    requires exponent { e ≤ 5000 }
    ensures { result ≡ rounded_from q sticky e }
{
    let k = ulp_exponent(q, e);
    let cut = k + 1202 - e;
    if cut > 63 {
        return 0.0;
    }
    if k > 2045 {
        return f64::INFINITY;
    }
    f64::from_bits(k * 4503599627370496 + rounded_shift(q, sticky, cut))
}

// The same of a wide number, whose lower half only says whether it is zero.
pub fn round_pack_wide(w: Wide, sticky: u64, e: u64) -> f64
    requires least { 2 ^ 53 ≤ w.hi }
    requires fits { w.hi < 2 ^ 63 }
    requires sticky { sticky ≤ 1 }
    requires exponent { e ≤ 5000 }
    ensures { result ≡ rounded_from w.hi (sticky_bit (sticky + sticky_bit w.lo)) e }
{
    round_pack(w.hi, sticky_bit(sticky + sticky_bit(w.lo)), e)
}
