// The cells within 1 of each point of a contour, listed once each, in first-met order: by points, rows, columns.
#![tactic(auto)]

ghost use Rattle.std.specs.Prelude.{◌≡◌, ℕ, ◌+◌, ◌-◌, ◌*◌, ◌≤◌, ◌<◌};
ghost use Rattle.contours.specs.ContourOf.{InRange};
ghost use Rattle.rules.specs.Tools.{foldl, up_from};
ghost use Rattle.rules.specs.GridAndNearest.{square};
ghost use Rattle.rules.specs.SamplesAndCache.{listed, listed_square, cells_around};
ghost use Rattle.work_layout.specs.Parts.{from};
ghost use Rattle.samples.specs.FrameSamples.{PlatedBy};
ghost use Rattle.samples.specs.Vertices.{vertex_from};
ghost use Rattle.neighbours.specs.CellList.{Listing, Lists};

use contours::ContourRange;
use frame::Frame;
use grid::{Grid, GridCell};
use rings::square_of;
use rules::{Vertex, point_at};
use work_layout::Layout;

// Lists a cell unless it is listed: its flag is this turn's number then. The answer is how many are listed.
// Slice, parts, turn and count stay parameters: a struct of them would add to each contract that the first three stay.
#[tactic(auto, using(crate::proofs::Entry::list_found, crate::proofs::Entry::list_room))]
fn list_cell(work: &mut [u32], lay: Layout, turn: u32, count: usize, cell: u32) -> usize
    requires listing { Listing lay work.old turn count }
    requires cell { cell < lay.cells }
    ensures { Lists lay turn work.old count work.new result (λ cs. listed cs cell) }
{
    let flag = lay.flags + (cell as usize);
    if work[flag] == turn {
        return count;
    }
    let place = lay.list + count;
    work[flag] = turn;
    work[place] = cell;
    count + 1
}

// Lists the cells from one number up to another.
#[tactic(auto, using(crate::proofs::ListFold::folding_step))]
fn list_row(work: &mut [u32], lay: Layout, turn: u32, count: usize, start: u32, end: u32) -> usize
    requires listing { Listing lay work.old turn count }
    requires rises { start ≤ end }
    requires inside { end ≤ lay.cells }
    ensures { Lists lay turn work.old count work.new result (λ cs. foldl listed cs (up_from start (end - start))) }
{
    let mut n = count;
    for cell in start..end {
        n = list_cell(&mut *work, lay, turn, n, cell);
    }
    n
}

// Lists the cells within 1 of a cell, by rows, then columns.
#[tactic(auto, using(crate::proofs::ListFold::folding_step, crate::proofs::ListFold::folding_done, crate::proofs::Around::row_lists), unfolding(rings::specs::Squares::square_of))]
fn list_square(
    grid: Grid,
    work: &mut [u32],
    lay: Layout,
    turn: u32,
    count: usize,
    c: GridCell,
) -> usize
    requires listing { Listing lay work.old turn count }
    requires cells { grid.spatial.cols * grid.spatial.rows ≡ lay.cells }
    requires col { c.col < grid.spatial.cols }
    requires row { c.row < grid.spatial.rows }
    ensures { let g = grid.spatial in Lists lay turn work.old count work.new result
        (λ cs. listed_square g cs (square g (record { col = c.col; row = c.row }) 1)) }
{
    let s = square_of(grid, c, 1);
    let mut n = count;
    for row in s.first_row..s.last_row + 1 {
        let a = row * grid.spatial.cols;
        n = list_row(
            &mut *work,
            lay,
            turn,
            n,
            a + s.first_col,
            a + s.last_col + 1,
        );
    }
    n
}

// Vertex i of a contour, counted from 0 within it.
fn vertex_of(c: ContourRange, i: u32) -> Vertex
    requires within { InRange c }
    requires vertex { i ≤ c.last }
    ensures { result.0 ≡ c.first.0 + i }
{
    Vertex(c.first.0 + i)
}

// Lists the cells around a contour, its points in vertex order; no cell carries this turn's flag before.
#[tactic(auto, using(crate::proofs::ListFold::folding_step, crate::proofs::ListFold::folding_done, crate::proofs::Around::around_lists, crate::proofs::Around::contour_lists))]
pub fn list_cells(frame: &Frame<'_>, work: &mut [u32], turn: u32, c: ContourRange) -> usize
    requires plated { PlatedBy frame.now work.old }
    requires within { c.first.0 + c.last < frame.now.layout.points }
    requires flags { (k : ℕ) → k < frame.now.layout.cells → from work.old frame.now.layout.flags k < turn }
    ensures { Lists frame.now.layout turn work.old 0 work.new result
        (λ _. cells_around (vertex_from frame.now.points.now c.first.0) frame.now.grid.spatial c.last) }
{
    let grid = frame.grid;
    let mut n: usize = 0;
    for i in 0..c.last + 1 {
        let p = point_at(frame.points, vertex_of(c, i));
        n = list_square(grid, &mut *work, frame.layout, turn, n, grid.cell_of(p));
    }
    n
}
