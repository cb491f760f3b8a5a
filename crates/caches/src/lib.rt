// The caches of the waiting contours: of each the least squared distance that was found from a sample to the path, and that sample.
#![tactic(auto)]

ghost use Rattle.std.specs.Prelude.{◌≡◌, ℕ, ◌+◌, ◌*◌, ◌/◌, ◌≤◌, ◌<◌, List, Float, length, get_or, set};
ghost use Rattle.std.specs.Float.{nan};
ghost use Rattle.rules.specs.Limits.{fixed_work, most_cells, most_path_points};
ghost use Rattle.rules.specs.Tools.{foldl, sum};
ghost use Rattle.rules.specs.HandedOver.{Plate, contours_from, vertex_at};
ghost use Rattle.rules.specs.SamplesAndCache.{waiting, cells_around, seed, update};
ghost use Rattle.plate_laws.specs.AcceptedInput.{Accepted};
ghost use Rattle.plate_laws.specs.FiniteDistances.{OnPlate};
ghost use Rattle.plate_laws.specs.Lists.{All};
ghost use Rattle.contours.specs.ContourOf.{contour_of};
ghost use Rattle.work_layout.specs.Parts.{from, KeptBelow, KeptFrom};
ghost use Rattle.neighbours.specs.CellList.{list_of};
ghost use Rattle.history.specs.History as history;
ghost use Rattle.history.specs.History.{Ready};
ghost use Rattle.prepare.specs.FrameSlices.{PreparedBy, HoldsBy, ChangedBy};
ghost use Rattle.waiting.specs.Waits.{stopped};
ghost use Rattle.caches.specs.HeldCache.{held, replaced};
ghost use Rattle.caches.specs.CacheMoves.{tried, Moved};
ghost use Rattle.caches.specs.FrameCaches.{QueryingBy, asked_by, tried_in_cell};

use contours::ContourRange;
use frame::Frame;
use grid::Grid;
use history::clear;
use nearest::nearest;
use neighbours::list_cells;
use prepare::prepare;
use rules::{MOST_CELLS, Nearest, Vertex, point_at};
use waiting::{stop_waiting, waits};
use work_layout::laid_out;

// The slices before the start: no point is on the path, and every contour waits.
pub fn set_up<'a>(
    points: &'a [f64],
    lengths: &[u32],
    grid: Grid,
    room: u32,
    distances: &mut [f64],
    work: &mut [u32],
) -> Frame<'a>
    requires accepted { Accepted points.now lengths.now }
    requires small { room ≤ most_path_points }
    requires distances_room { length lengths.now ≤ length distances.old }
    requires work_room { room + 4 * sum lengths.now + 8 * length lengths.now + fixed_work ≤ length work.old }
    ensures points { result.points.now ≡ points.now }
    ensures grid { result.grid.spatial ≡ grid.spatial }
    ensures start { result.layout.flags ≡ most_cells + room }
    ensures counted { result.layout.points ≡ sum lengths.now }
    ensures many { result.layout.contours ≡ length lengths.now }
    ensures prepared { PreparedBy result distances.new work.new }
    ensures ready { (path : List Float) → Ready grid.spatial path work.new 0 }
    ensures flags { (k : ℕ) → k < result.layout.cells → from work.new result.layout.flags k ≡ 0 }
    ensures held { (p : Plate) → p.points ≡ points.now →
        All (λ c. HoldsBy result distances.new work.new (waiting p grid.spatial c)) (contours_from 0 0 lengths.now) }
    ensures waits { (j : ℕ) → j < result.layout.contours → from work.new result.layout.waiting j ≡ get_or lengths.now j 0 }
{
    let cells = (grid.spatial.cols as usize) * (grid.spatial.rows as usize);
    let layout = laid_out(
        MOST_CELLS + (room as usize),
        points.len() / 2,
        cells,
        lengths.len(),
    );
    let frame = Frame {
        points,
        grid,
        layout,
    };
    clear(&mut *work);
    prepare(&frame, lengths, &mut *distances, &mut *work);
    frame
}

// What the path answers for a vertex.
fn ask(frame: &Frame<'_>, work: &[u32], v: Vertex, path: &[f64]) -> Nearest
    requires vertex { 2 * v.0 + 1 < length frame.now.points.now }
    requires on_plate { All OnPlate frame.now.points.now }
    requires ready { Ready frame.now.grid.spatial path.now work.now (length path.now / 2) }
    ensures { result ≡ asked_by frame.now path.now v.0 }
{
    nearest(frame.grid, path, work, point_at(frame.points, v))
}

// Replaces contour j's cache, whose entry lies at e, by what was found at vertex v, if that is strictly nearer.
// An entry is a vertex's number, since what the caller lends is a slice of u32.
fn improve(distances: &mut [f64], work: &mut [u32], j: usize, e: usize, v: Vertex, found: Nearest)
    requires contour { j < length distances.old }
    requires place { e < length work.old }
    ensures { let k = replaced (held (get_or distances.old j nan) (get_or work.old e 0)) v.0 found in
        (distances.new ≡ set distances.old j k.squared) × (work.new ≡ set work.old e k.entry) }
{
    if let Nearest::Found(_, d) = found {
        if d < distances[j] {
            distances[j] = d;
            work[e] = v.0;
        }
    }
}

// Queries a vertex for its contour, if it is a sample and the contour waits.
// A vertex's owner is 0, or one more than a contour's number: a lent u32 holds no `Option`.
// The two lent slices stay parameters: a struct of them would add to each contract that they stay the same slices.
fn try_sample(frame: &Frame<'_>, distances: &mut [f64], work: &mut [u32], v: Vertex, path: &[f64])
    requires querying { QueryingBy frame.now distances.old work.old path.now }
    requires vertex { v.0 < frame.now.layout.points }
    ensures { let w = work.old in
        Moved frame.now.layout distances.old w distances.new work.new
        (λ j. tried (from w frame.now.layout.owners) (asked_by frame.now path.now) j v.0) }
{
    let lay = frame.layout;
    let o = lay.owners + (v.0 as usize);
    let owner = work[o];
    if owner == 0 {
        return;
    }
    let number = owner - 1;
    if !waits(&*work, lay, number) {
        return;
    }
    let found = ask(frame, &*work, v, path);
    let j = number as usize;
    let e = lay.entries + j;
    improve(&mut *distances, &mut *work, j, e, v, found);
}

// After the start: queries every sample of every waiting contour.
pub fn seed_caches(frame: &Frame<'_>, distances: &mut [f64], work: &mut [u32], path: &[f64])
    requires { QueryingBy frame.now distances.old work.old path.now }
    ensures changed { ChangedBy frame.now distances.old work.old distances.new work.new
        (λ p c. seed p frame.now.grid.spatial (history.points path.now (length path.now / 2)) c) }
    ensures below { KeptBelow frame.now.layout.entries work.old work.new }
    ensures above { KeptFrom frame.now.layout.heads work.old work.new }
{
    let n = frame.layout.points as u32;
    for v in 0..n {
        try_sample(frame, &mut *distances, &mut *work, Vertex(v), path);
    }
}

// Queries the samples of a cell, in the order of their vertices: by contour, then vertex.
// The links of a chain lie in the lent slice of u32, for the library has no heap: it is walked by hand, and 0 ends it.
fn scan_cell(frame: &Frame<'_>, distances: &mut [f64], work: &mut [u32], cell: u32, path: &[f64])
    requires querying { QueryingBy frame.now distances.old work.old path.now }
    requires cell { cell < frame.now.layout.cells }
    ensures { let w = work.old in
        Moved frame.now.layout distances.old w distances.new work.new (λ j k. tried_in_cell frame.now w path.now j k cell) }
{
    let lay = frame.layout;
    let h = lay.heads + (cell as usize);
    let mut cursor = work[h];
    while cursor != 0 {
        let v = cursor - 1;
        try_sample(frame, &mut *distances, &mut *work, Vertex(v), path);
        let n = lay.next + (v as usize);
        cursor = work[n];
    }
}

// Queries the samples of the cells listed, cell by cell. By index, for the listed cells lie in the slice that `scan_cell` writes.
fn scan_listed(frame: &Frame<'_>, distances: &mut [f64], work: &mut [u32], cells: u32, path: &[f64])
    requires querying { QueryingBy frame.now distances.old work.old path.now }
    requires few { cells ≤ frame.now.layout.cells }
    requires inside { (i : ℕ) → i < cells → from work.old frame.now.layout.list i < frame.now.layout.cells }
    ensures { let w = work.old in
        Moved frame.now.layout distances.old w distances.new work.new
        (λ j k. foldl (tried_in_cell frame.now w path.now j) k (list_of frame.now.layout w cells)) }
{
    let list = frame.layout.list;
    for i in 0..cells {
        let cell = work[list + (i as usize)];
        scan_cell(frame, &mut *distances, &mut *work, cell, path);
    }
}

// After a contour was emitted: lists the cells around it, and queries their samples of waiting contours.
pub fn update_nearby_caches(
    frame: &Frame<'_>,
    distances: &mut [f64],
    work: &mut [u32],
    turn: u32,
    c: ContourRange,
    path: &[f64],
)
    requires querying { QueryingBy frame.now distances.old work.old path.now }
    requires within { c.first.0 + c.last < frame.now.layout.points }
    requires flags { (k : ℕ) → k < frame.now.layout.cells → from work.old frame.now.layout.flags k < turn }
    ensures changed { ChangedBy frame.now distances.old work.old distances.new work.new
        (λ p d. update p frame.now.grid.spatial (history.points path.now (length path.now / 2))
        (cells_around (vertex_at p (contour_of c)) frame.now.grid.spatial c.last) d) }
    ensures kept { KeptBelow frame.now.layout.flags work.old work.new }
    ensures above { KeptFrom frame.now.layout.heads work.old work.new }
    ensures flags { (k : ℕ) → k < frame.now.layout.cells → from work.new frame.now.layout.flags k ≤ turn }
{
    let cells = list_cells(frame, &mut *work, turn, c);
    scan_listed(frame, &mut *distances, &mut *work, cells as u32, path);
}

// A contour that was emitted waits no more, and the caches around it are updated.
pub fn settle(
    frame: &Frame<'_>,
    distances: &mut [f64],
    work: &mut [u32],
    turn: u32,
    c: ContourRange,
    path: &[f64],
)
    requires querying { QueryingBy frame.now distances.old work.old path.now }
    requires number { c.number < frame.now.layout.contours }
    requires within { c.first.0 + c.last < frame.now.layout.points }
    requires flags { (k : ℕ) → k < frame.now.layout.cells → from work.old frame.now.layout.flags k < turn }
    ensures prepared { PreparedBy frame.now distances.new work.new }
    ensures changed { ChangedBy frame.now distances.old (stopped frame.now.layout work.old c.number) distances.new work.new
        (λ p d. update p frame.now.grid.spatial (history.points path.now (length path.now / 2))
        (cells_around (vertex_at p (contour_of c)) frame.now.grid.spatial c.last) d) }
    ensures kept { KeptBelow frame.now.layout.flags work.old work.new }
    ensures above { KeptFrom frame.now.layout.heads (stopped frame.now.layout work.old c.number) work.new }
    ensures flags { (k : ℕ) → k < frame.now.layout.cells → from work.new frame.now.layout.flags k ≤ turn }
{
    stop_waiting(&mut *work, frame.layout, c.number);
    update_nearby_caches(frame, &mut *distances, &mut *work, turn, c, path);
}
