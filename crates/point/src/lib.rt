// The distances of two points, as the Rust's methods of `Point` have them, and the distance call.
#![tactic(auto)]

ghost use Rattle.std.specs.Prelude.{◌≡◌};
ghost use Rattle.rules.specs.HandedOver.{answer_of};
ghost use Rattle.rules.specs.Distances as distances;
ghost use Rattle.rules.specs.Calls.{distance_call};

use compare::is_finite;
use fused_sum::square_plus;
use plate::check_range;
use rules::{Point, Refusal};
use square_root::square_root;

pub mod bound;

// Squared Euclidean distance. Where a number is not finite, rounding the product first changes nothing.
pub fn distance_squared(p: Point, q: Point) -> f64
    ensures { result ≡ distances.distance_squared p q }
{
    let dx = p.x - q.x;
    let dy = p.y - q.y;
    let square = dy * dy;
    if !is_finite(dx) || !is_finite(square) {
        return dx * dx + square;
    }
    square_plus(dx, square)
}

// Euclidean distance. Infinity and NaN are their own roots.
pub fn distance(p: Point, q: Point) -> f64
    ensures { result ≡ distances.distance p q }
{
    let squared = distance_squared(p, q);
    if !is_finite(squared) {
        return squared;
    }
    square_root(squared)
}

// The distance call takes coordinates of at most this magnitude.
const DISTANCE_LIMIT: f64 = 2147483648.0;

// The distance call: squared and plain distance, or refusal 4.
pub fn distance_call(a: Point, b: Point) -> Result<(f64, f64), Refusal>
    ensures { answer_of result ≡ distance_call a b }
{
    check_range(DISTANCE_LIMIT, &[a.x, a.y, b.x, b.y])?;
    Ok((distance_squared(a, b), distance(a, b)))
}
