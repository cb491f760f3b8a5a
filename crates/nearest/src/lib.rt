// The path point that is nearest to a point, by rings of cells.
#![tactic(auto)]

ghost use Rattle.std.specs.Prelude.{◌≡◌, ◌/◌, length};
ghost use Rattle.rules.specs.GridAndNearest as rules-nearest;
ghost use Rattle.rules.specs.declared.SpatialGrid.{SpatialGrid};
ghost use Rattle.plate_laws.specs.FiniteDistances.{OnPlate};
ghost use Rattle.plate_laws.specs.Nearest.{seen};
ghost use Rattle.history.specs.History.{points, Ready};

use grid::{Grid, GridCell};
use point::bound::is_beyond;
use point::distance_squared;
use rings::{column_step, is_past_best, square_of};
use rules::{MOST_CELLS, Nearest, PathPlace, Point, path_point};

// The better of an answer so far and a path place, at which p is. Most places are ruled out by a bound that is quick to form.
fn nearer(best: Nearest, place: PathPlace, q: Point, p: Point) -> Nearest
    ensures { (g : SpatialGrid) → result ≡ rules-nearest.nearer best (seen g q place.0 p) }
{
    let Nearest::Found(old, least) = best else {
        return Nearest::Found(place, distance_squared(q, p));
    };
    if is_beyond(q, p, least) {
        return best;
    }
    let squared = distance_squared(q, p);
    if squared < least {
        return Nearest::Found(place, squared);
    }
    if squared == least {
        if old < place {
            return Nearest::Found(place, squared);
        }
    }
    best
}

// The path place that is nearest to q, by rings of cells around q's cell. `path` is cut behind the path's last point.
// Of a ring's inner rows only the first and the last cell are on its border.
pub fn nearest(g: Grid, path: &[f64], work: &[u32], q: Point) -> Nearest
    requires ready { Ready g.spatial path.now work.now (length path.now / 2) }
    requires on_plate { OnPlate q.x × OnPlate q.y }
    ensures { result ≡ rules-nearest.nearest g.spatial (points path.now (length path.now / 2)) q }
{
    let mut best = Nearest::Nothing;
    let c = g.cell_of(q);
    let rings = g.spatial.cols.max(g.spatial.rows);
    'rings: for ring in 0..rings {
        if is_past_best(g.spatial, ring, best) {
            break 'rings;
        }
        let s = square_of(g, c, ring);
        for row in s.first_row..=s.last_row {
            let step = column_step(s, row);
            // A `while`: `step_by` of `a..=b` proves, and a plate of 200 contours of 50 points then takes 24 % more instructions.
            let mut col = s.first_col;
            while col <= s.last_col {
                let cell = g.cell_number(GridCell { col, row });
                // A chain's links lie in the lent slice of u32, for the library has no heap: it is walked by hand, and 0 ends it.
                let mut cursor = work[cell as usize];
                while cursor != 0 {
                    let place = PathPlace(cursor - 1);
                    best = nearer(best, place, q, path_point(path, place));
                    cursor = work[MOST_CELLS + place.0 as usize];
                }
                col += step;
            }
        }
    }
    best
}
