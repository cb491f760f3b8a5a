// The caches of the waiting contours, exported for runs: no part of the product's interface.
// The first points of the plate are the path: place k is vertex k.
#![tactic(auto)]

ghost use Rattle.std.specs.Prelude.{◌≡◌, true, false, ◌&&◌, ℕ, ◌+◌, ◌*◌, ◌≤◌, ◌<◌, length, get_or};
ghost use Rattle.rules.specs.Tools.{sum};
ghost use Rattle.rules.specs.HandedOver.{Plate};
ghost use Rattle.rules.specs.Box.{box};
ghost use Rattle.rules.specs.GridAndNearest.{grid_of};
ghost use Rattle.plate_laws.specs.AcceptedInput.{Accepted};
ghost use Rattle.work_layout.specs.Laid.{Laid};
ghost use Rattle.work_layout.specs.Parts.{from};
ghost use Rattle.waiting.specs.Holds.{Holds};
ghost use Rattle.history.specs.History as history;
ghost use Rattle.run_grid_c.specs.Results.{accepted};
ghost use Rattle.run_caches_c.specs.Results.{has_path, has_slices, Shows, Others};

use caches::{seed_caches, set_up, settle};
use grid::Grid;
use run_grid_c::{accepted_points, grid_for, insert_run};
use waiting::waiting_contour;
use work_layout::Layout;

// Seeds the caches by the first `before` points, and updates them around a contour by the first `count`.
fn caches_around(
    points: &[f64],
    lengths: &[u32],
    grid: Grid,
    number: u32,
    before: u32,
    count: u32,
    distances: &mut [f64],
    work: &mut [u32],
) -> Layout
    requires accepted { Accepted points.now lengths.now }
    requires some { 0 < get_or lengths.now number 0 }
    requires earlier { before ≤ count }
    requires fits { count ≤ sum lengths.now }
    requires distances_room { length lengths.now ≤ length distances.old }
    requires work_room { 376832 ≤ length work.old }
    ensures laid { Laid result (length work.new) }
    ensures contours { result.contours ≡ length lengths.now }
    ensures others { let xs = points.now in (p : Plate) → p.points ≡ xs → p.lengths ≡ lengths.now →
        Others p grid.spatial number (history.points xs before) (history.points xs count) (Holds xs grid.spatial result distances.new work.new) }
{
    let frame = set_up(points, lengths, grid, count, &mut *distances, &mut *work);
    let path = &points[..2 * before as usize];
    let longer = &points[..2 * count as usize];
    insert_run(grid, path, &mut *work, 0);
    seed_caches(&frame, &mut *distances, &mut *work, path);
    insert_run(grid, longer, &mut *work, before);
    let c = waiting_contour(&*work, frame.layout, number);
    settle(&frame, &mut *distances, &mut *work, 1, c, longer);
    frame.layout
}

// Copies the cached entries of all contours. By index: `copy_from_slice` would have the archive for C need `memmove` from outside.
fn copy_entries(work: &[u32], lay: Layout, entries: &mut [u32])
    requires laid { Laid lay (length work.now) }
    requires room { lay.contours ≤ length entries.old }
    ensures { (j : ℕ) → j < lay.contours → get_or entries.new j 0 ≡ from work.now lay.entries j }
{
    for j in 0..lay.contours {
        let e = lay.entries + j;
        entries[j] = work[e];
    }
}

// The length of a contour, or 0 where there is none of that number: none and an empty one are refused alike.
fn contour_length(lengths: &[u32], number: u32) -> u32
    ensures { result ≡ get_or lengths.now number 0 }
{
    lengths.get(number as usize).copied().unwrap_or(0)
}

// Whether a plate of n points has such a path, and the contour that was emitted has a point.
#[tactic(auto, unfolding(crate::specs::Results::has_path))]
fn has_path(n: u32, size: u32, before: u32, count: u32) -> bool
    ensures { result ≡ has_path n size before count }
{
    n != 0 && size != 0 && before <= count && count <= n
}

// Whether the work slice is long enough, and the others are of m contours.
#[tactic(auto, unfolding(crate::specs::Results::has_slices))]
fn has_slices(m: usize, work: usize, distances: usize, entries: usize) -> bool
    ensures { result ≡ has_slices m work distances entries }
{
    376832 <= work && m == distances && m == entries
}

// Leaves the squared distance and the entry of each waiting contour in the slices, after the contour of a number was emitted: the first
// `before` points were the path when the caches were seeded, the first `count` are the path now. What the slices then hold for that
// contour and for empty ones is free.
#[unsafe(no_mangle)]
pub extern "C" fn twillharbor_caches_update(
    points: &[f64],
    lengths: &[u32],
    number: u32,
    before: u32,
    count: u32,
    work: &mut [u32],
    distances: &mut [f64],
    entries: &mut [u32],
) -> bool
    ensures { let xs = points.now in let ns = lengths.now in
        (result ≡ (has_path (accepted xs ns) (get_or ns number 0) before count
        && has_slices (length ns) (length work.old) (length distances.old) (length entries.old)))
        × (result ≡ true → (p : Plate) → p.points ≡ xs → p.lengths ≡ ns →
        Others p (grid_of (box xs)) number (history.points xs before) (history.points xs count) (Shows distances.new entries.new))
        × (result ≡ false → (distances.new ≡ distances.old) × (entries.new ≡ entries.old)
        × (work.new ≡ work.old)) }
{
    let n = accepted_points(points, lengths);
    if !has_path(n, contour_length(lengths, number), before, count) {
        return false;
    }
    if !has_slices(lengths.len(), work.len(), distances.len(), entries.len()) {
        return false;
    }
    let grid = grid_for(points);
    let lay = caches_around(
        points,
        lengths,
        grid,
        number,
        before,
        count,
        &mut *distances,
        &mut *work,
    );
    copy_entries(&*work, lay, entries);
    true
}
