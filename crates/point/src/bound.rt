// Whether a point is surely too far away, told with fewer operations than its squared distance takes.
ghost use Rattle.std.specs.Prelude.{◌≡◌};
ghost use Rattle.point.specs.Bound.{sum_above, point_beyond};

use rules::Point;

// Whether the squared distance at the differences dx and dy is surely above `best` (`sum_above_lem`). `false` says nothing.
// dx * dx may have been rounded up, but a float below it is not above the exact square. The factor is 1 - 2^-30.
pub fn is_sum_above(dx: f64, dy: f64, best: f64) -> bool
    ensures { result ≡ sum_above dx dy best }
{
    let square = dx * dx;
    let under = square * 0.999999999068677425384521484375;
    under < square && best < under + dy * dy
}

// Whether q is surely farther from p than `best` (`beyond_above`): a bound of the squared distance that is quick to form is already above it.
// `false` says nothing.
pub fn is_beyond(p: Point, q: Point, best: f64) -> bool
    ensures { result ≡ point_beyond p q best }
{
    is_sum_above(p.x - q.x, p.y - q.y, best)
}
