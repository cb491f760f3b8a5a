// Whether a number is finite, and the lesser and the greater of two.
#![tactic(auto)]

ghost use Rattle.std.specs.Prelude.{◌≡◌};
ghost use Rattle.std.specs.Float.Ieee.Scale.{finite};
ghost use Rattle.rules.specs.Tools.{greater, lesser};

// The library's test, said by the definition that contracts use.
pub fn is_finite(x: f64) -> bool
    ensures { result ≡ finite x }
{
    x.is_finite()
}

// Rust's a.min(b), of numbers that are no NaN. The library's leaves open which of 0 and -0 it gives.
pub fn lesser(a: f64, b: f64) -> f64
    ensures { result ≡ lesser a b }
{
    if b < a { b } else { a }
}

// Rust's a.max(b), of numbers that are no NaN. The library's leaves open which of 0 and -0 it gives.
pub fn greater(a: f64, b: f64) -> f64
    ensures { result ≡ greater a b }
{
    if a < b { b } else { a }
}
