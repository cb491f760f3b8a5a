// The square root, rounded once.
#![tactic(auto)]

ghost use Rattle.std.specs.Prelude.{◌≡◌, ◌+◌, ◌-◌, ◌*◌, ◌^◌, ◌≤◌, ◌<◌, T};
ghost use Rattle.std.specs.Float.{binary64};
ghost use Rattle.rules.specs.Distances.{sqrt};
ghost use Rattle.rounding.specs.FloorRoot.{IsRoot};
ghost use Rattle.rounding.specs.Magnitude.{non_negative};
ghost use Rattle.square_root.specs.Estimate.{Estimates};

use first_roots::first_root;
use magnitude::{magnitude_of, normalized};

// Twice 2^47, which above × reciprocal is about.
const TWICE: u64 = 1 << 48;

// Of a whole number n: a number just above its root, in units of 2^7, and its inverse, 2^45 / above.
#[derive(Clone, Copy)]
struct Estimate {
    above: u64,
    inverse: u64,
}

// One step of Newton's iteration for each, from 16 more than the first root and from the reciprocal of that. The roots that have the same first root reach up
// to 33 of its units above it. The 3 makes up for what the product and the reciprocal lack, being cut to whole numbers: so `above` is above the root.
fn first_estimate(n: u64) -> Estimate
    requires least { 2 ^ 60 ≤ n }
    requires most { n < 2 ^ 62 }
    ensures { Estimates n result.above result.inverse }
{
    let first = first_root(n);
    let above = 256 * (first.root + 16) + (((n >> 30) * first.reciprocal) >> 32) + 3;
    let rest = (TWICE - above * first.reciprocal) >> 16;
    Estimate {
        above,
        inverse: (first.reciprocal * rest) >> 33,
    }
}

// The next step, for the root alone, from 8 less than the estimate. It multiplies by the inverse of a number above the root, which gives no more than to divide
// by twice the root would: what comes is the root's whole part or one less.
fn root_of_39_digits(n: u64, e: Estimate) -> u64
    requires most { n < 2 ^ 62 }
    requires estimates { Estimates n e.above e.inverse }
    ensures below { result * result ≤ n * 2 ^ 16 }
    ensures near { n * 2 ^ 16 < (result + 2) * (result + 2) }
    ensures least { (e.above - 8) * 2 ^ 15 ≤ result }
{
    let x = e.above - 8;
    let rest = n - 16384 * x * x;
    32768 * x + ((rest * e.inverse) >> 45)
}

// The last step, likewise. n × 2^16 and the square of x need not fit a u64, but their difference does: both are taken modulo 2^64.
fn root_of_55_digits(n: u64, e: Estimate) -> u64
    requires most { n < 2 ^ 62 }
    requires estimates { Estimates n e.above e.inverse }
    ensures below { result * result ≤ n * 2 ^ 48 }
    ensures near { n * 2 ^ 48 < (result + 2) * (result + 2) }
{
    let x = root_of_39_digits(n, e);
    let rest = (n << 16).wrapping_sub(x.wrapping_mul(x));
    65536 * x + ((rest * e.inverse) >> 45)
}

// The root of n with 48 binary digits more, all zero, without the library's `isqrt`: the documents ask that the root is the program's own work. The difference
// is taken as in the last step; if it is more than 2 x, the root is x + 1.
fn wide_root(n: u64) -> u64
    requires least { 2 ^ 60 ≤ n }
    requires most { n < 2 ^ 62 }
    ensures { IsRoot (n * 2 ^ 48) result }
{
    let x = root_of_55_digits(n, first_estimate(n));
    let rest = (n << 48).wrapping_sub(x.wrapping_mul(x));
    if rest > 2 * x { x + 1 } else { x }
}

// Rust's x.sqrt(), over bits, as the documents ask. The radicand takes in the factor 2 of an odd exponent. The root is never half way between two floats.
// It is in units of 2^(b.exponent / 2 - 593), 593 being 1138 / 2 + 48 / 2; a quarter of it, rounded, is the significand, in units of
// 2^(b.exponent / 2 + 484 - 1075), and its leading digit adds 1 to the pattern's field of the exponent.
pub fn square_root(x: f64) -> f64
    requires { T (non_negative x) }
    ensures { result ≡ sqrt binary64 x }
{
    let a = magnitude_of(x);
    if a.significand == 0 {
        return x;
    }
    let b = normalized(a);
    let root = wide_root(b.significand << (b.exponent % 2));
    f64::from_bits((b.exponent / 2 + 483) * 4503599627370496 + (root + 2) / 4)
}
