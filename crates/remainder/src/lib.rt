// The remainder of two floats: Rust's t % s, C's fmod. It is exact, so nothing is rounded.
#![tactic(auto)]

ghost use Rattle.std.specs.Prelude.{◌≡◌, ◌⊎◌, false, ◌*◌, ◌%◌, ◌^◌, ◌≤◌, ◌<◌, T};
ghost use Rattle.std.specs.Float.Ieee.{rem, round};
ghost use Rattle.std.specs.Float.{binary64};
ghost use Rattle.std.specs.Float.Ieee.Scale.{finite};

use compare::is_finite;
use magnitude::magnitude_of;

// So many digits fit above a significand's 53 in a u64.
const SPARE_DIGITS: u64 = 11;
// One in the exponent's field.
const FIELD_UNIT: u64 = 4503599627370496;

// n × 2^d mod m, as many digits at a time as fit: the loop counts digits, and no index.
fn shifted_remainder(n: u64, d: u64, m: u64) -> u64
    requires fits { n < 2 ^ 53 }
    requires nonzero { 0 < m }
    requires divisor_fits { m < 2 ^ 53 }
    ensures { result ≡ n * 2 ^ d % m }
{
    let mut r = n;
    let mut left = d;
    while SPARE_DIGITS < left {
        r = (r << SPARE_DIGITS) % m;
        left -= SPARE_DIGITS;
    }
    (r << left) % m
}

// How many of the exponent's e twos a significand has room for.
fn twos_taken(r: u64, e: u64) -> u64
    requires nonzero { 0 < r }
    requires fits { r < 2 ^ 53 }
    ensures most { result ≤ e }
    ensures fits { r * 2 ^ result < 2 ^ 53 }
    ensures filled { (result ≡ e) ⊎ (2 ^ 52 ≤ r * 2 ^ result) }
{
    let room = u64::from(r.leading_zeros()) - SPARE_DIGITS;
    room.min(e)
}

// The float r × 2^e, in units of 2^-1074. The significand's leading digit adds one to the exponent's field.
fn float_of(r: u64, e: u64) -> f64
    requires fits { r < 2 ^ 53 }
    requires exponent { e ≤ 2045 }
    ensures { result ≡ round binary64 false (r * 2 ^ e) (2 ^ 1074) }
{
    if r == 0 {
        return 0.0;
    }
    let taken = twos_taken(r, e);
    f64::from_bits((e - taken) * FIELD_UNIT + (r << taken))
}

// Where s has the greater exponent, its significand has all its digits, and t is the smaller one.
fn finite_remainder(t: f64, s: f64) -> f64
    requires first { T (finite t) }
    requires second { T (finite s) }
    ensures { result ≡ rem binary64 t s }
{
    let a = magnitude_of(t);
    let b = magnitude_of(s);
    if b.significand == 0 {
        return f64::NAN;
    }
    if a.exponent < b.exponent {
        return t;
    }
    let r = shifted_remainder(a.significand, a.exponent - b.exponent, b.significand);
    let magnitude = float_of(r, b.exponent);
    if t.is_sign_positive() {
        magnitude
    } else {
        -magnitude
    }
}

// Rust's t % s, without the C library's fmod, which differs from system to system.
pub fn remainder(t: f64, s: f64) -> f64
    ensures { result ≡ rem binary64 t s }
{
    if !is_finite(t) {
        return f64::NAN;
    }
    if is_finite(s) {
        return finite_remainder(t, s);
    }
    if s.is_nan() { f64::NAN } else { t }
}
