// The lent slices before the start: samples marked and chained, caches reset, no cell flagged, every contour waiting.
#![tactic(auto)]

ghost use Rattle.std.specs.Prelude.{◌≡◌, ℕ, ◌+◌, ◌≤◌, ◌<◌, length, get_or};
ghost use Rattle.rules.specs.Limits.{most_points};
ghost use Rattle.rules.specs.Tools.{sum};
ghost use Rattle.rules.specs.HandedOver.{Plate, contours_from};
ghost use Rattle.rules.specs.SamplesAndCache.{waiting};
ghost use Rattle.plate_laws.specs.AcceptedInput.{Accepted};
ghost use Rattle.plate_laws.specs.Lists.{All};
ghost use Rattle.work_layout.specs.Laid.{Laid};
ghost use Rattle.work_layout.specs.Parts.{from, KeptBelow};
ghost use Rattle.samples.specs.FrameSamples.{PlatedBy};
ghost use Rattle.prepare.specs.Marks.{MarkedPart};
ghost use Rattle.prepare.specs.FrameSlices.{PreparedBy, HoldsBy};
ghost use Rattle.prepare.specs.Reset.{Reset};

use frame::Frame;
use samples::{chain_samples, mark_samples};
use waiting::begin_waiting;
use work_layout::{Layout, clear};

// Marks the samples of all contours, in their part of the slice.
fn mark_part(frame: &Frame<'_>, lengths: &[u32], work: &mut [u32])
    requires accepted { Accepted frame.now.points.now lengths.now }
    requires laid { Laid frame.now.layout (length work.old) }
    requires points { frame.now.layout.points ≡ sum lengths.now }
    requires contours { frame.now.layout.contours ≡ length lengths.now }
    ensures { MarkedPart frame.now.points.now frame.now.grid.spatial.cell_size lengths.now frame.now.layout work.old work.new }
{
    let a = frame.layout.owners;
    let b = a + frame.layout.points;
    let resolution = frame.grid.spatial.cell_size;
    mark_samples(frame.points, lengths, &mut work[a..b], resolution);
}

// Each contour is infinitely far, and enters at its first vertex. `contours::Contours` passes over empty contours, and their words are reset too.
fn reset_caches(lengths: &[u32], distances: &mut [f64], work: &mut [u32], lay: Layout)
    requires laid { Laid lay (length work.old) }
    requires contours { lay.contours ≡ length lengths.now }
    requires room { lay.contours ≤ length distances.old }
    requires few { sum lengths.now ≤ most_points }
    ensures { Reset lengths.now lay lay.contours work.old distances.new work.new }
{
    let mut first: u32 = 0;
    for (j, &size) in lengths.iter().enumerate() {
        distances[j] = f64::INFINITY;
        work[lay.entries + j] = first;
        work[lay.firsts + j] = first;
        first += size;
    }
}

// Marks and chains the samples of all contours, resets flags and caches, and lets every contour wait.
pub fn prepare(frame: &Frame<'_>, lengths: &[u32], distances: &mut [f64], work: &mut [u32])
    requires accepted { Accepted frame.now.points.now lengths.now }
    requires plated { PlatedBy frame.now work.old }
    requires points { frame.now.layout.points ≡ sum lengths.now }
    requires contours { frame.now.layout.contours ≡ length lengths.now }
    requires room { frame.now.layout.contours ≤ length distances.old }
    ensures prepared { PreparedBy frame.now distances.new work.new }
    ensures held { (p : Plate) → p.points ≡ frame.now.points.now →
        All (λ c. HoldsBy frame.now distances.new work.new (waiting p frame.now.grid.spatial c)) (contours_from 0 0 lengths.now) }
    ensures flags { (k : ℕ) → k < frame.now.layout.cells → from work.new frame.now.layout.flags k ≡ 0 }
    ensures kept { KeptBelow frame.now.layout.flags work.old work.new }
    ensures waits { (j : ℕ) → j < frame.now.layout.contours → from work.new frame.now.layout.waiting j ≡ get_or lengths.now j 0 }
{
    let lay = frame.layout;
    clear(&mut *work, lay.flags, lay.list);
    clear(&mut *work, lay.heads, lay.next);
    mark_part(frame, lengths, &mut *work);
    begin_waiting(lengths, &mut *work, lay);
    reset_caches(lengths, &mut *distances, &mut *work, lay);
    chain_samples(frame, &mut *work);
}
