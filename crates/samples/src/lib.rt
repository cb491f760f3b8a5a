// The samples of the contours: which vertices they are, and the chains of those in each cell.
#![tactic(auto)]

ghost use Rattle.std.specs.Prelude.{◌≡◌, ◌||◌, ℕ, ◌+◌, ◌*◌, ◌≤◌, ◌<◌, eqb, length};
ghost use Rattle.std.specs.Float.Ieee as Ieee;
ghost use Rattle.std.specs.Float.{binary64};
ghost use Rattle.rules.specs.Limits.{most_contours, most_points};
ghost use Rattle.rules.specs.Tools.{pick, sum};
ghost use Rattle.rules.specs.HandedOver.{at};
ghost use Rattle.rules.specs.Distances as distances;
ghost use Rattle.rules.specs.SamplesAndCache.{cell_at};
ghost use Rattle.contours.specs.ContourOf.{contour_of};
ghost use Rattle.work_layout.specs.Parts.{from, KeptBelow, KeptFrom};
ghost use Rattle.samples.specs.Owners.{MarkedContour, MarkedAll};
ghost use Rattle.samples.specs.FrameSamples.{PlatedBy, ChainedBy};

use contours::{ContourRange, Contours};
use frame::Frame;
use point::distance;
use remainder::remainder;
use rules::{Vertex, point_at};
use work_layout::Layout;

// Whether a vertex is a sample: the total has reached the resolution there, or no vertex is left behind it.
fn is_sample(reached: bool, left: u32) -> bool
    ensures { result ≡ (reached || eqb left 0) }
{
    reached || left == 0
}

// What is carried on from a total: its remainder, where it has reached the resolution.
#[tactic(auto, unfolding(rules::specs::Tools::pick))]
fn carried(reached: bool, total: f64, resolution: f64) -> f64
    ensures { result ≡ pick reached (Ieee.rem binary64 total resolution) total }
{
    if reached {
        remainder(total, resolution)
    } else {
        total
    }
}

#[tactic(auto, unfolding(rules::specs::Tools::pick))]
fn owner_if(sample: bool, owner: u32) -> u32
    ensures { result ≡ pick sample owner 0 }
{
    if sample { owner } else { 0 }
}

// The distance from a vertex to the next.
fn segment(points: &[f64], v: Vertex) -> f64
    requires vertex { v.0 < most_points }
    requires inside { 2 * v.0 + 3 < length points.now }
    ensures { result ≡ distances.distance (at points.now v.0) (at points.now (v.0 + 1)) }
{
    let next = Vertex(v.0 + 1);
    distance(point_at(points, v), point_at(points, next))
}

// Marks the samples of one contour with its number and 1, and its other vertices with 0. Owners, and the heads and links below, are words and no `Option`s:
// C lends one slice of u32 for all of them, and there is no heap.
pub fn arc_length_sample_indices(
    points: &[f64],
    owners: &mut [u32],
    resolution: f64,
    c: ContourRange,
)
    requires number { c.number < most_contours }
    requires within { c.first.0 + c.last < length owners.old }
    requires few { length owners.old ≤ most_points }
    requires points { 2 * length owners.old ≤ length points.now }
    ensures { MarkedContour points.now resolution (contour_of c) owners.old owners.new }
{
    let owner = c.number + 1;
    let first = c.first.0;
    let last = c.last;
    owners[first as usize] = owner;
    let mut total: f64 = 0.0;
    for i in 0..last {
        let v = first + i;
        total += segment(points, Vertex(v));
        let reached = resolution <= total;
        let sample = is_sample(reached, last - i - 1);
        total = carried(reached, total, resolution);
        owners[v as usize + 1] = owner_if(sample, owner);
    }
}

// Marks the samples of every contour.
#[tactic(auto, using(crate::proofs::ContourMarks::so_far_none, crate::proofs::ContourMarks::so_far_next, crate::proofs::ContourMarks::so_far_done))]
pub fn mark_samples(points: &[f64], lengths: &[u32], owners: &mut [u32], resolution: f64)
    requires contours { length lengths.now ≤ most_contours }
    requires counted { sum lengths.now ≡ length owners.old }
    requires few { length owners.old ≤ most_points }
    requires points { 2 * length owners.old ≤ length points.now }
    ensures { MarkedAll points.now resolution lengths.now owners.new }
{
    for c in Contours::of(lengths) {
        arc_length_sample_indices(points, &mut *owners, resolution, c);
    }
}

// The number of a vertex's cell.
#[tactic(auto, unfolding(rules::specs::SamplesAndCache::cell_at, rules::specs::SamplesAndCache::cell_number))]
fn cell_at(frame: &Frame<'_>, v: Vertex) -> u32
    requires { 2 * v.0 + 1 < length frame.now.points.now }
    ensures cell { result ≡ cell_at (at frame.now.points.now) frame.now.grid.spatial v.0 }
    ensures below { result < frame.now.grid.spatial.cols * frame.now.grid.spatial.rows }
{
    let cell = frame.grid.cell_of(point_at(frame.points, v));
    frame.grid.cell_number(cell)
}

// Puts a vertex in front of its cell's chain, if it is a sample.
fn push_sample(frame: &Frame<'_>, work: &mut [u32], v: Vertex)
    requires plated { PlatedBy frame.now work.old }
    requires vertex { v.0 < frame.now.layout.points }
    requires chained { ChainedBy frame.now (from work.old frame.now.layout.owners) work.old (v.0 + 1) }
    ensures chained { ChainedBy frame.now (from work.old frame.now.layout.owners) work.new v.0 }
    ensures above { KeptFrom frame.now.layout.owners work.old work.new }
    ensures below { KeptBelow frame.now.layout.heads work.old work.new }
{
    let lay = frame.layout;
    let o = lay.owners + (v.0 as usize);
    if work[o] != 0 {
        let head = lay.heads + (cell_at(frame, v) as usize);
        let link = lay.next + (v.0 as usize);
        work[link] = work[head];
        work[head] = v.0 + 1;
    }
}

// Chains the samples of each cell in rising order: from the last vertex down, each is put in front. No cell has a chain before.
#[tactic(auto, using(crate::proofs::ChainPush::rising_none, crate::specs::PlatedSlice::plated_kept, crate::specs::PlatedSlice::from_kept))]
pub fn chain_samples(frame: &Frame<'_>, work: &mut [u32])
    requires plated { PlatedBy frame.now work.old }
    requires empty { (c : ℕ) → c < frame.now.layout.cells → from work.old frame.now.layout.heads c ≡ 0 }
    ensures chained { ChainedBy frame.now (from work.old frame.now.layout.owners) work.new 0 }
    ensures above { KeptFrom frame.now.layout.owners work.old work.new }
    ensures below { KeptBelow frame.now.layout.heads work.old work.new }
{
    let n = frame.layout.points as u32;
    for v in (0..n).rev() {
        push_sample(frame, &mut *work, Vertex(v));
    }
}
