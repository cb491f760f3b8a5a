// Parts below the retrace call, exported for runs: no part of the product's interface.
// A plate has a grid where refusals 1 to 4 let it pass and it has a point. Where it has none, and where a slice is short, nothing is written.
#![tactic(auto)]

ghost use Rattle.std.specs.Prelude.{◌≡◌, true, false, ◌+◌, ◌*◌, ◌/◌, ◌≤◌, ◌<◌, ltb, length};
ghost use Rattle.rules.specs.Limits.{most_cells, most_points};
ghost use Rattle.rules.specs.Tools.{pick};
ghost use Rattle.rules.specs.HandedOver.{at};
ghost use Rattle.rules.specs.Start.{centre};
ghost use Rattle.rules.specs.Box.{box};
ghost use Rattle.rules.specs.GridAndNearest.{grid_of};
ghost use Rattle.rules.specs.SamplesAndCache.{cell_at, ask_path};
ghost use Rattle.plate_laws.specs.Lists.{All};
ghost use Rattle.plate_laws.specs.FiniteDistances.{OnPlate};
ghost use Rattle.rounding_errors.specs.Boxes.{SoundBox};
ghost use Rattle.work_layout.specs.Parts.{KeptFrom};
ghost use Rattle.samples.specs.Owners.{MarkedAll};
ghost use Rattle.history.specs.History as history;
ghost use Rattle.history.specs.History.{Ready};
ghost use Rattle.run_grid_c.specs.Results.{accepted, grid_result, no_grid, center_result, has_room, written, place_number, squared_number, ask, has_query_room};

use grid::{Grid, polyline_bounding_box};
use plate::check_contours;
use rules::{MOST_CELLS, Nearest, PathPlace, Point, SpatialGrid, Vertex, path_point, point_at};
use samples::mark_samples;
use start::image_center;

// The number of points of a plate that refusals 1 to 4 let pass, else 0: a plate of no point has no grid either.
pub fn accepted_points(points: &[f64], lengths: &[u32]) -> u32
    ensures { result ≡ accepted points.now lengths.now }
{
    check_contours(points, lengths).unwrap_or(0)
}

// The grid over a plate's points.
pub fn grid_for(points: &[f64]) -> Grid
    requires { SoundBox (box points.now) }
    ensures { result.spatial ≡ grid_of (box points.now) }
{
    Grid::new(polyline_bounding_box(points))
}

// Whether a plate of n points has a grid, and a slice has an entry for each.
fn has_room(n: u32, room: usize) -> bool
    ensures { result ≡ has_room n room }
{
    0 < n && n as usize <= room
}

#[repr(C)]
#[derive(Clone, Copy, Default)]
pub struct GridResult {
    pub cell_size: f64,
    pub inv_cell_size: f64,
    pub origin_x: f64,
    pub origin_y: f64,
    pub cols: u32,
    pub rows: u32,
}

impl From<SpatialGrid> for GridResult {
    ghost from_gives = { λ g r. r ≡ grid_result g };

    fn from(g: SpatialGrid) -> GridResult {
        GridResult {
            cell_size: g.cell_size,
            inv_cell_size: g.inv_cell_size,
            origin_x: g.origin_x,
            origin_y: g.origin_y,
            cols: g.cols,
            rows: g.rows,
        }
    }
}

// The grid of a plate, or zeros where it has none.
#[unsafe(no_mangle)]
pub extern "C" fn twillharbor_grid_of(points: &[f64], lengths: &[u32]) -> GridResult
    ensures { let xs = points.now in
        result ≡ pick (ltb 0 (accepted xs lengths.now)) (grid_result (grid_of (box xs))) no_grid }
{
    if accepted_points(points, lengths) == 0 {
        return GridResult::default();
    }
    grid_for(points).spatial.into()
}

#[repr(C)]
#[derive(Clone, Copy)]
pub struct CenterResult {
    pub x: f64,
    pub y: f64,
}

impl From<Point> for CenterResult {
    ghost from_gives = { λ p r. r ≡ center_result p };

    fn from(p: Point) -> CenterResult {
        CenterResult { x: p.x, y: p.y }
    }
}

// The centre, from which Outside and Inside take distances.
#[unsafe(no_mangle)]
pub extern "C" fn twillharbor_grid_center(width: u32, height: u32) -> CenterResult
    ensures { result ≡ center_result (centre width height) }
{
    image_center(width, height).into()
}

// Writes the number of the cell of each of n vertices.
fn number_cells(g: Grid, points: &[f64], cells: &mut [u32], n: u32)
    requires points { 2 * n ≤ length points.now }
    requires room { n ≤ length cells.old }
    ensures { cells.new ≡ written (cell_at (at points.now) g.spatial) n cells.old }
{
    for v in 0..n {
        let p = point_at(points, Vertex(v));
        cells[v as usize] = g.cell_number(g.cell_of(p));
    }
}

// Writes the number of each vertex's cell.
#[unsafe(no_mangle)]
pub extern "C" fn twillharbor_grid_cells(points: &[f64], lengths: &[u32], cells: &mut [u32]) -> bool
    ensures { let xs = points.now in let n = accepted xs lengths.now in let slice = cells.old in
        (result ≡ has_room n (length slice))
        × (cells.new ≡ pick result (written (cell_at (at xs) (grid_of (box xs))) n slice) slice) }
{
    let n = accepted_points(points, lengths);
    if !has_room(n, cells.len()) {
        return false;
    }
    let g = grid_for(points);
    number_cells(g, points, cells, n);
    true
}

// Puts the path's points from place `start` on in the chains of their cells, in order.
pub fn insert_run(g: Grid, path: &[f64], work: &mut [u32], start: u32)
    requires on_plate { All OnPlate path.now }
    requires few { length path.now / 2 ≤ most_points }
    requires room { most_cells + length path.now / 2 ≤ length work.old }
    requires start { start ≤ length path.now / 2 }
    requires ready { Ready g.spatial path.now work.old start }
    ensures ready { Ready g.spatial path.now work.new (length path.now / 2) }
    ensures kept { KeptFrom (most_cells + length path.now / 2) work.old work.new }
{
    let count = (path.len() / 2) as u32;
    for k in start..count {
        let p = path_point(path, PathPlace(k));
        history::insert(g, &mut *work, PathPlace(k), p);
    }
}

// Makes the path's points its history.
fn insert_all(g: Grid, path: &[f64], work: &mut [u32])
    requires on_plate { All OnPlate path.now }
    requires few { length path.now / 2 ≤ most_points }
    requires room { most_cells + length path.now / 2 ≤ length work.old }
    ensures { Ready g.spatial path.now work.new (length path.now / 2) }
{
    history::clear(&mut *work);
    insert_run(g, path, &mut *work, 0);
}

// One more than the place that was found, or 0: C reads the answer from a slice of u32, which holds no `Option`.
fn place_number(answer: Nearest) -> u32
    requires { place_number answer ≤ most_points }
    ensures { result ≡ place_number answer }
{
    match answer {
        Nearest::Found(place, _) => place.0 + 1,
        Nearest::Nothing => 0,
    }
}

// The squared distance that was found, or 0, in the slice of f64 that C reads.
fn squared_number(answer: Nearest) -> f64
    ensures { result ≡ squared_number answer }
{
    match answer {
        Nearest::Found(_, squared) => squared,
        Nearest::Nothing => 0.0,
    }
}

// Queries the path for every vertex.
fn query_all(
    g: Grid,
    points: &[f64],
    path: &[f64],
    work: &[u32],
    places: &mut [u32],
    squared: &mut [f64],
)
    requires on_plate { All OnPlate points.now }
    requires few_points { length points.now ≤ 2 * most_points }
    requires small_path { length path.now ≤ 2 * most_points }
    requires ready { Ready g.spatial path.now work.now (length path.now / 2) }
    requires places_room { length points.now / 2 ≤ length places.old }
    requires squared_room { length points.now / 2 ≤ length squared.old }
    ensures places { let answer = ask_path (at points.now) g.spatial (history.points path.now (length path.now / 2)) in
        places.new ≡ written (λ v. place_number (answer v)) (length points.now / 2) places.old }
    ensures squared { let answer = ask_path (at points.now) g.spatial (history.points path.now (length path.now / 2)) in
        squared.new ≡ written (λ v. squared_number (answer v)) (length points.now / 2) squared.old }
{
    let n = (points.len() / 2) as u32;
    for v in 0..n {
        let q = point_at(points, Vertex(v));
        let answer = nearest::nearest(g, path, work, q);
        places[v as usize] = place_number(answer);
        squared[v as usize] = squared_number(answer);
    }
}

// Whether a plate of n points has a grid, the path is of at most n points, and the slices are long enough.
fn has_query_room(n: u32, count: u32, work: usize, places: usize, squared: usize) -> bool
    ensures { result ≡ has_query_room n count work places squared }
{
    has_room(n, places)
        && n as usize <= squared
        && count <= n
        && MOST_CELLS + count as usize <= work
}

// Writes what the query answers for each vertex, where the first `count` points are the path.
#[unsafe(no_mangle)]
pub extern "C" fn twillharbor_grid_nearest(
    points: &[f64],
    lengths: &[u32],
    count: u32,
    work: &mut [u32],
    places: &mut [u32],
    squared: &mut [f64],
) -> bool
    ensures { let xs = points.now in let n = accepted xs lengths.now in
        let ps = places.old in let ds = squared.old in
        (result ≡ has_query_room n count (length work.old) (length ps) (length ds))
        × (places.new ≡ pick result (written (λ v. place_number (ask (grid_of (box xs)) xs count v)) n ps) ps)
        × (squared.new ≡ pick result (written (λ v. squared_number (ask (grid_of (box xs)) xs count v)) n ds) ds)
        × (result ≡ false → work.new ≡ work.old) }
{
    let n = accepted_points(points, lengths);
    if !has_query_room(n, count, work.len(), places.len(), squared.len()) {
        return false;
    }
    let g = grid_for(points);
    let path = &points[..2 * count as usize];
    insert_all(g, path, &mut *work);
    query_all(g, points, path, &*work, places, squared);
    true
}

// Marks the samples of every contour: its number and 1 at each.
#[unsafe(no_mangle)]
pub extern "C" fn twillharbor_grid_samples(
    points: &[f64],
    lengths: &[u32],
    owners: &mut [u32],
) -> bool
    ensures { let xs = points.now in let ns = lengths.now in let n = accepted xs ns in
        (result ≡ has_room n (length owners.old))
        × (result ≡ true → MarkedAll xs (grid_of (box xs)).cell_size ns owners.new × KeptFrom n owners.old owners.new)
        × (result ≡ false → owners.new ≡ owners.old) }
{
    let n = accepted_points(points, lengths);
    if !has_room(n, owners.len()) {
        return false;
    }
    let g = grid_for(points);
    mark_samples(
        points,
        lengths,
        &mut owners[..n as usize],
        g.spatial.cell_size,
    );
    true
}
