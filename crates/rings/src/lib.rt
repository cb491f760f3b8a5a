// The rings of cells around a cell: a ring's square, clipped to the grid, how its border is passed along a row, and its bound.
#![tactic(auto)]

ghost use Rattle.std.specs.Prelude.{◌≡◌, ◌≤◌, ◌<◌};
ghost use Rattle.rules.specs.Limits.{most_cells_along};
ghost use Rattle.rules.specs.GridAndNearest as rules-nearest;
ghost use Rattle.rings.specs.Squares.{square_of, Inside, column_step};

use grid::{Grid, GridCell};
use rules::{Nearest, SpatialGrid};

#[derive(Clone, Copy)]
pub struct RingSquare {
    pub first_col: u32,
    pub last_col: u32,
    pub first_row: u32,
    pub last_row: u32,
}

pub fn square_of(g: Grid, c: GridCell, ring: u32) -> RingSquare
    requires col { c.col < g.spatial.cols }
    requires row { c.row < g.spatial.rows }
    requires ring { ring ≤ most_cells_along }
    ensures square { square_of result ≡ rules-nearest.square g.spatial (record { col = c.col; row = c.row }) ring }
    ensures inside { Inside g.spatial result }
{
    RingSquare {
        first_col: c.col.saturating_sub(ring),
        last_col: (c.col + ring).min(g.spatial.cols - 1),
        first_row: c.row.saturating_sub(ring),
        last_row: (c.row + ring).min(g.spatial.rows - 1),
    }
}

// From one border cell of a row to the next: by one along the first and the last row, else from the first column to the last at once.
pub fn column_step(s: RingSquare, row: u32) -> u32
    requires { s.first_col ≤ s.last_col }
    ensures { result ≡ column_step (square_of s) row }
{
    if row == s.first_row || row == s.last_row {
        1
    } else {
        (s.last_col - s.first_col).max(1)
    }
}

// A ring's bound: the squared length of ring - 1 cells.
fn ring_bound(g: SpatialGrid, ring: u32) -> f64
    requires { 2 ≤ ring }
    ensures { result ≡ rules-nearest.bound g ring }
{
    let distance = f64::from(ring - 1) * g.cell_size;
    distance * distance
}

// Whether the scan is left before a ring: from ring 2 on, where the bound is strictly above the best.
pub fn is_past_best(g: SpatialGrid, ring: u32, best: Nearest) -> bool
    ensures { result ≡ rules-nearest.beyond g ring best }
{
    let Nearest::Found(_, least) = best else {
        return false;
    };
    2 <= ring && least < ring_bound(g, ring)
}
