// The history: the path points so far, each in the chain of its cell.
// The chains lie in a lent slice: the heads of at most 2,916 cells, then a link for each path place. Both are 0, or one more than a place: a lent u32 holds no
// `Option`.
#![tactic(auto)]

ghost use Rattle.std.specs.Prelude.{◌≡◌, ℕ, ◌+◌, ◌≤◌, ◌<◌, length};
ghost use Rattle.rules.specs.Limits.{most_cells, most_path_points};
ghost use Rattle.work_layout.specs.Parts.{KeptFrom};
ghost use Rattle.history.specs.History.{ChainedPlaces, inserted};

use grid::Grid;
use rules::{MOST_CELLS, PathPlace, Point};

// Empties every chain.
pub fn clear(work: &mut [u32])
    requires { most_cells ≤ length work.old }
    ensures length { length work.new ≡ length work.old }
    ensures empty { (cell : ℕ → ℕ) → ChainedPlaces work.new cell 0 }
    ensures kept { KeptFrom most_cells work.old work.new }
{
    work_layout::clear(&mut *work, 0, MOST_CELLS);
}

// Puts a path place, at which p is, in front of its cell's chain.
pub fn insert(g: Grid, work: &mut [u32], place: PathPlace, p: Point)
    requires place { place.0 < most_path_points }
    requires room { most_cells + place.0 < length work.old }
    ensures { work.new ≡ inserted g.spatial work.old place.0 p }
{
    let cell = g.cell_number(g.cell_of(p)) as usize;
    let i = place.0 as usize;
    work[MOST_CELLS + i] = work[cell];
    work[cell] = place.0 + 1;
}
