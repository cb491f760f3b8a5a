// Which contours wait, and the choice of the one that enters the path next, by the lent slices.
// The part `waiting` of the work slice is this crate's alone: others ask and alter it by the functions below.
#![tactic(auto)]

ghost use Rattle.std.specs.Prelude.{◌≡◌, ℕ, List, ◌+◌, ◌≤◌, ◌<◌, eqb, not, Float, length, IfSome};
ghost use Rattle.rules.specs.Tools.{pick, foremost};
ghost use Rattle.rules.specs.HandedOver.{Plate};
ghost use Rattle.rules.specs.SamplesAndCache.{Waiting};
ghost use Rattle.rules.specs.Retrace as Retrace;
ghost use Rattle.rules.specs.declared.SpatialGrid.{SpatialGrid};
ghost use Rattle.plate_laws.specs.Lists.{All};
ghost use Rattle.plate_laws.specs.Layers.{leads_in};
ghost use Rattle.work_layout.specs.Laid.{Laid};
ghost use Rattle.work_layout.specs.Parts.{from};
ghost use Rattle.waiting.specs.Holds.{Holds};
ghost use Rattle.waiting.specs.Leader.{closer_by, layer_by, leader_of};
ghost use Rattle.waiting.specs.WaitingNumbers.{waiters_from, Lined};
ghost use Rattle.waiting.specs.Picks.{Picks};
ghost use Rattle.waiting.specs.Waits.{AllWait, stopped};

use contours::ContourRange;
use rules::{HIGHEST_LAYER, Vertex};
use std::cmp::Ordering;
use work_layout::Layout;

// Each contour waits, unless it is empty. By index: `copy_from_slice` would have the archive of the caches' run need `memmove` from outside.
pub fn begin_waiting(lengths: &[u32], work: &mut [u32], lay: Layout)
    requires laid { Laid lay (length work.old) }
    requires contours { lay.contours ≡ length lengths.now }
    ensures { AllWait lengths.now lay work.old work.new }
{
    for (j, &length) in lengths.iter().enumerate() {
        work[lay.waiting + j] = length;
    }
}

// Whether a contour waits.
pub fn waits(work: &[u32], lay: Layout, number: u32) -> bool
    requires laid { Laid lay (length work.now) }
    requires number { number < lay.contours }
    ensures { result ≡ not (eqb (from work.now lay.waiting number) 0) }
{
    work[lay.waiting + (number as usize)] != 0
}

// A contour waits no more.
pub fn stop_waiting(work: &mut [u32], lay: Layout, number: u32)
    requires laid { Laid lay (length work.old) }
    requires number { number < lay.contours }
    ensures { work.new ≡ stopped lay work.old number }
{
    work[lay.waiting + (number as usize)] = 0;
}

// The contour of a number, which waits, as the slice holds it.
pub fn waiting_contour(work: &[u32], lay: Layout, number: u32) -> ContourRange
    requires laid { Laid lay (length work.now) }
    requires number { number < lay.contours }
    requires waits { 1 ≤ from work.now lay.waiting number }
    ensures number { result.number ≡ number }
    ensures first { result.first.0 ≡ from work.now lay.firsts number }
    ensures last { result.last + 1 ≡ from work.now lay.waiting number }
{
    ContourRange {
        number,
        first: Vertex(work[lay.firsts + (number as usize)]),
        last: work[lay.waiting + (number as usize)] - 1,
    }
}

// The waiting contour that enters the path next, and the vertex that it is entered at.
#[derive(Clone, Copy)]
pub struct Candidate {
    pub contour: ContourRange,
    pub entry: Vertex,
}

// The lead after contour j. What is above the highest layer takes no part: only the first lead is held to that, for a lead loses to no higher layer.
// Who leads by layers is no generic function with `start`'s and `optimize`'s: each keeps another kind of lead. `start` keeps ends, compared by the
// strategy; here it is a number, compared by the cached distances; `optimize` keeps a place, behind a filter that saves exact sums.
#[tactic(auto, using(crate::proofs::LeadLaws::by_layers), unfolding(rules::specs::Tools::pick, rules::specs::Tools::leads, rules::specs::Tools::highest_layer, plate_laws::specs::Layers::leads_in, crate::specs::Leader::layer_by, crate::specs::Leader::closer_by, crate::specs::Leader::leader_of))]
fn lead_after(
    distances: &[f64],
    layers: &[u32],
    lead: Option<usize>,
    j: usize,
    waits: bool,
) -> Option<usize>
    requires distance { j < length distances.now }
    requires layer { j < length layers.now }
    requires led { IfSome lead (λ best. (best < length distances.now) × (best < length layers.now)) }
    ensures led { (n : ℕ) → j < n → IfSome lead (λ best. best < n) → IfSome result (λ best. best < n) }
    ensures leads { leader_of result
        ≡ pick waits (leads_in (layer_by layers.now) (closer_by distances.now) (leader_of lead) j) (leader_of lead) }
{
    if !waits {
        return lead;
    }
    let Some(best) = lead else {
        return (layers[j] <= HIGHEST_LAYER).then_some(j);
    };
    match layers[j].cmp(&layers[best]) {
        Ordering::Less => Some(j),
        Ordering::Equal => {
            if distances[j] < distances[best] {
                Some(j)
            } else {
                lead
            }
        }
        Ordering::Greater => lead,
    }
}

// Of the waiting contours of the lowest layer that with the least cached distance, the lowest on ties.
#[tactic(auto, using(crate::proofs::LeadLaws::led_start, crate::proofs::LeadLaws::led_end), unfolding(crate::specs::Leader::leader_of))]
fn closest(distances: &[f64], layers: &[u32], work: &[u32], lay: Layout) -> Option<usize>
    requires laid { Laid lay (length work.now) }
    requires distances { lay.contours ≤ length distances.now }
    requires layers { lay.contours ≤ length layers.now }
    ensures led { IfSome result (λ best. best < lay.contours) }
    ensures foremost { leader_of result
        ≡ foremost (layer_by layers.now) (closer_by distances.now) (waiters_from (from work.now lay.waiting) 0 lay.contours) }
{
    let waiting = &work[lay.waiting..lay.waiting + lay.contours];
    let mut lead = None;
    for (j, &w) in waiting.iter().enumerate() {
        lead = lead_after(distances, layers, lead, j, w != 0);
    }
    lead
}

// The waiting contour that the rules choose, where the slices hold all that wait.
#[tactic(auto, using(crate::proofs::ChoiceLaws::leader_waits, crate::proofs::ChoiceLaws::none_chosen), unfolding(crate::specs::Leader::leader_of))]
pub fn choose_waiting(
    distances: &[f64],
    layers: &[u32],
    work: &[u32],
    lay: Layout,
) -> Option<Candidate>
    requires laid { Laid lay (length work.now) }
    requires distances { lay.contours ≤ length distances.now }
    requires layers { lay.contours ≤ length layers.now }
    ensures { (p : Plate) (xs : List Float) (g : SpatialGrid) (ws : List Waiting) → p.layers ≡ layers.now →
        Lined (from work.now lay.waiting) lay.contours ws →
        All (Holds xs g lay distances.now work.now) ws → Picks result (Retrace.choose p ws) }
{
    let j = closest(distances, layers, work, lay)?;
    let contour = waiting_contour(work, lay, j as u32);
    let entry = Vertex(work[lay.entries + j]);
    Some(Candidate { contour, entry })
}
