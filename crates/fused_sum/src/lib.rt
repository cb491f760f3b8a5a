// The fused sum x × x + y, rounded once.
#![tactic(auto)]

ghost use Rattle.std.specs.Prelude.{◌≡◌, false, ◌+◌, ◌-◌, ◌*◌, ◌^◌, ◌≤◌, ◌<◌, T};
ghost use Rattle.std.specs.Float.Ieee.{round};
ghost use Rattle.std.specs.Float.{binary64};
ghost use Rattle.std.specs.Float.Ieee.Scale.{finite};
ghost use Rattle.rules.specs.Distances.{mul_add};
ghost use Rattle.rounding.specs.Magnitude.{non_negative};
ghost use Rattle.rounding.specs.Wide.{wide};

use magnitude::{Scaled, magnitude_of, normalized};
use pack::round_pack_wide;
use wide::{Wide, plus, shift_right, square};

// p × 2^e + q × 2^(e - d), in units of 2^-2276, rounded once.
fn add_shifted(p: Wide, q: Wide, d: u64, e: u64) -> f64
    requires least { 2 ^ 53 ≤ p.hi }
    requires first { p.hi < 2 ^ 62 }
    requires second { q.hi < 2 ^ 62 }
    requires shift { d ≤ e }
    requires exponent { e ≤ 4300 }
    ensures { result ≡ round binary64 false (wide p.hi p.lo * 2 ^ e + wide q.hi q.lo * 2 ^ (e - d)) (2 ^ 2276) }
{
    let c = shift_right(q, d);
    let w = plus(p, c.value);
    round_pack_wide(w, c.sticky, e + 64)
}

// a × a + b of normalized numbers: the one whose last digit stands lower is shifted to the right.
fn normalized_sum(a: Scaled, b: Scaled) -> f64
    requires first_least { 2 ^ 60 ≤ a.significand }
    requires first_most { a.significand < 2 ^ 61 }
    requires first_exponent { a.exponent ≤ 2101 }
    requires second_least { 2 ^ 60 ≤ b.significand }
    requires second_most { b.significand < 2 ^ 61 }
    requires second_exponent { b.exponent ≤ 2101 }
    ensures { result ≡ round binary64 false
        (a.significand * a.significand * 2 ^ (2 * a.exponent) + b.significand * 2 ^ 64 * 2 ^ (b.exponent + 1074)) (2 ^ 2276) }
{
    let s = square(a.significand);
    let t = Wide {
        hi: b.significand,
        lo: 0,
    };
    let i = 2 * a.exponent;
    let j = b.exponent + 1074;
    if j <= i {
        add_shifted(s, t, i - j, i)
    } else {
        add_shifted(t, s, j - i, j)
    }
}

// Rust's x.mul_add(x, y), over bits, as the documents ask.
pub fn square_plus(x: f64, y: f64) -> f64
    requires finite { T (finite x) }
    requires plus { T (non_negative y) }
    ensures { result ≡ mul_add binary64 x x y }
{
    let a = magnitude_of(x);
    let b = magnitude_of(y);
    if b.significand == 0 {
        return x * x;
    }
    if a.significand == 0 {
        return 0.0 + y;
    }
    normalized_sum(normalized(a), normalized(b))
}
