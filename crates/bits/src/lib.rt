// Floats and points compared by their bits.
#![tactic(auto)]

ghost use Rattle.std.specs.Prelude.{◌≡◌};
ghost use Rattle.rules.specs.Bits.{same_float, same_point};

use rules::Point;

// Whether two floats have the same bits, every NaN being one. By `==` 0 and −0 are one and a NaN is none, and `total_cmp` takes no NaN: neither serves.
pub fn same_bits(a: f64, b: f64) -> bool
    ensures { result ≡ same_float a b }
{
    if a.is_nan() || b.is_nan() {
        return a.is_nan() && b.is_nan();
    }
    a.to_bits() == b.to_bits()
}

// Whether two points have the same bits.
#[tactic(auto, unfolding(rules::specs::Bits::same_point))]
pub fn same_point(a: Point, b: Point) -> bool
    ensures { result ≡ same_point a b }
{
    same_bits(a.x, b.x) && same_bits(a.y, b.y)
}
