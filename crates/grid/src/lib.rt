// The box of a plate's points, the grid over it, the cell of a point, and a cell's number.
#![tactic(auto)]

ghost use Rattle.std.specs.Prelude.{◌≡◌, ◌*◌, ◌≤◌, ◌<◌};
ghost use Rattle.rules.specs.Limits.{most_cells, most_cells_along};
ghost use Rattle.rules.specs.Box.{widen, box};
ghost use Rattle.rules.specs.GridAndNearest.{cell_size, cells_along, grid_of, index_along, cell_of};
ghost use Rattle.rules.specs.SamplesAndCache.{cell_number};
ghost use Rattle.rounding_errors.specs.Boxes.{SoundBox};
ghost use Rattle.grid.specs.SaneGrid.{SaneGrid};
ghost use Rattle.grid.specs.Props.{sane_prop};

use compare::{greater, lesser};
use magnitude::cast::{ceiling, truncated};
use rules::{BoundingBox, Point, SpatialGrid};

// A cell of the grid.
#[derive(Clone, Copy)]
pub struct GridCell {
    pub col: u32,
    pub row: u32,
}

// A grid that is sane.
#[derive(Clone, Copy)]
pub struct Grid {
    pub spatial: SpatialGrid,
    ghost sane: { SaneGrid spatial } by { sane_prop spatial },
}

// The box with one point more.
#[tactic(auto, unfolding(rules::specs::Box::widen))]
fn widened(b: BoundingBox, x: f64, y: f64) -> BoundingBox
    ensures { result ≡ widen b x y }
{
    BoundingBox {
        min_x: lesser(b.min_x, x),
        min_y: lesser(b.min_y, y),
        max_x: greater(b.max_x, x),
        max_y: greater(b.max_y, y),
    }
}

// The least and greatest coordinates. Without a point they are the infinities, turned around.
pub fn polyline_bounding_box(points: &[f64]) -> BoundingBox
    ensures { result ≡ box points.now }
{
    let mut b = BoundingBox {
        min_x: f64::INFINITY,
        min_y: f64::INFINITY,
        max_x: f64::NEG_INFINITY,
        max_y: f64::NEG_INFINITY,
    };
    for pair in points.chunks_exact(2) {
        b = widened(b, pair[0], pair[1]);
    }
    b
}

// A fiftieth of the box's greater side, or of 1 where both are less.
fn cell_size(b: BoundingBox) -> f64
    ensures { result ≡ cell_size b }
{
    let canvas_extent = greater(greater(b.max_x - b.min_x, b.max_y - b.min_y), 1.0);
    canvas_extent / 50.0
}

// The number of columns, or rows: the greatest coordinate and a margin of one cell lie within them.
#[tactic(auto, unfolding(rules::specs::GridAndNearest::cells_along))]
fn cells_along(size: f64, origin: f64, greatest: f64) -> u32
    requires { cells_along size origin greatest ≤ most_cells_along }
    ensures { result ≡ cells_along size origin greatest }
{
    ceiling((greatest - origin + size) / size) + 1
}

// A point's column, or row, of `cells` many.
#[tactic(auto, unfolding(rules::specs::GridAndNearest::index_along))]
fn index_along(origin: f64, inverse: f64, cells: u32, x: f64) -> u32
    requires { 0 < cells }
    ensures index { result ≡ index_along origin inverse cells x }
    ensures below { result < cells }
{
    let index = truncated((x - origin) * inverse);
    index.min(cells - 1)
}

impl Grid {
    // The grid over a box, with a margin of one cell around it.
    pub fn new(b: BoundingBox) -> Grid
        requires { SoundBox b }
        ensures { result.spatial ≡ grid_of b }
    {
        let size = cell_size(b);
        let origin_x = b.min_x - size;
        let origin_y = b.min_y - size;
        let spatial = SpatialGrid {
            cell_size: size,
            inv_cell_size: 1.0 / size,
            origin_x,
            origin_y,
            cols: cells_along(size, origin_x, b.max_x),
            rows: cells_along(size, origin_y, b.max_y),
        };
        Grid { spatial }
    }

    #[tactic(auto, unfolding(rules::specs::GridAndNearest::cell_of))]
    pub fn cell_of(self, p: Point) -> GridCell
        ensures col { result.col ≡ (cell_of self.spatial p).col }
        ensures row { result.row ≡ (cell_of self.spatial p).row }
        ensures col_below { result.col < self.spatial.cols }
        ensures row_below { result.row < self.spatial.rows }
    {
        let g = self.spatial;
        GridCell {
            col: index_along(g.origin_x, g.inv_cell_size, g.cols, p.x),
            row: index_along(g.origin_y, g.inv_cell_size, g.rows, p.y),
        }
    }

    // A cell's number, row by row.
    #[tactic(auto, using(crate::specs::Numbers::number_below), unfolding(rules::specs::SamplesAndCache::cell_number))]
    pub fn cell_number(self, c: GridCell) -> u32
        requires col { c.col < self.spatial.cols }
        requires row { c.row < self.spatial.rows }
        ensures number { result ≡ cell_number self.spatial (record { col = c.col; row = c.row }) }
        ensures below { result < self.spatial.cols * self.spatial.rows }
        ensures few { result < most_cells }
    {
        c.row * self.spatial.cols + c.col
    }
}
