// The float leaves, exported for runs and for the benchmark: no part of the product's interface.
#![tactic(auto)]

ghost use Rattle.std.specs.Prelude.{◌≡◌};
ghost use Rattle.std.specs.Float.{binary64};
ghost use Rattle.std.specs.Float.Ieee.{rem, to_unsigned};
ghost use Rattle.rules.specs.GridAndNearest.{ceiling};
ghost use Rattle.rounding.specs.Magnitude.{non_negative};
ghost use Rattle.run_float_c.specs.Domain.{square_plus, square_root};

use compare::is_finite;
use fused_sum::square_plus;
use magnitude::cast::{ceiling, truncated};
use remainder::remainder;
use square_root::square_root;

// The domain of the root, and of the sum's second number.
fn is_non_negative(x: f64) -> bool
    ensures { result ≡ non_negative x }
{
    is_finite(x) && x.is_sign_positive()
}

// Here and below a NaN stands for a number outside the domain: C reads one f64.
#[unsafe(no_mangle)]
pub extern "C" fn twillharbor_float_square_plus(x: f64, y: f64) -> f64
    ensures { result ≡ square_plus x y }
{
    if is_finite(x) && is_non_negative(y) {
        square_plus(x, y)
    } else {
        f64::NAN
    }
}

#[unsafe(no_mangle)]
pub extern "C" fn twillharbor_float_square_root(x: f64) -> f64
    ensures { result ≡ square_root x }
{
    if is_non_negative(x) {
        square_root(x)
    } else {
        f64::NAN
    }
}

#[unsafe(no_mangle)]
pub extern "C" fn twillharbor_float_truncated(x: f64) -> u32
    ensures { result ≡ to_unsigned 32 x }
{
    truncated(x)
}

#[unsafe(no_mangle)]
pub extern "C" fn twillharbor_float_ceiling(x: f64) -> u32
    ensures { result ≡ ceiling 32 x }
{
    ceiling(x)
}

#[unsafe(no_mangle)]
pub extern "C" fn twillharbor_float_remainder(t: f64, s: f64) -> f64
    ensures { result ≡ rem binary64 t s }
{
    remainder(t, s)
}
