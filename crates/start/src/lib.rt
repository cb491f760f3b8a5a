// Where the path starts: the end of a contour that is farthest from the centre, nearest to it, or nearest to the parked point.
#![tactic(auto)]

ghost use Rattle.std.specs.Prelude.{◌≡◌, ◌+◌, ◌*◌, ◌≤◌, ◌<◌, length, [], ◌∷◌};
ghost use Rattle.std.proofs.Math.Option.{some};
ghost use Rattle.rules.specs.Tools.{pick, foldl};
ghost use Rattle.rules.specs.HandedOver.{Plate, plate_of, at, answer_of};
ghost use Rattle.rules.specs.Distances.{distance_squared};
ghost use Rattle.rules.specs.Start as Start;
ghost use Rattle.rules.specs.Calls.{start_call};
ghost use Rattle.plate_laws.specs.Layers.{beats_in, taking, leads_in};
ghost use Rattle.contours.specs.ContourOf.{InRange, InSlice, contour_of};
ghost use Rattle.start.specs.OrientedContours.{oriented_of, lead_of, LeadIn};

use contours::{ContourRange, Contours, first_end};
use plate::check;
use plate::checked_input::CheckedInput;
use point::distance_squared;
use rules::{HIGHEST_LAYER, Input, Point, Refusal, StartPointStrategy, Vertex, point_at};
use std::cmp::Ordering;

// A contour in one of its two senses, and the squared distance to the end that then comes first.
#[derive(Clone, Copy)]
pub struct OrientedContour {
    pub contour: ContourRange,
    pub reversed: bool,
    pub squared: f64,
}

pub fn image_center(width: u32, height: u32) -> Point
    ensures { result ≡ Start.centre width height }
{
    Point {
        x: f64::from(width) / 2.0,
        y: f64::from(height) / 2.0,
    }
}

// The point from which a strategy takes distances. C hands over the strategy as a value; a closure for each case would be chosen by the same `match`.
#[tactic(auto, unfolding(rules::specs::Start::measured_from))]
fn measured_from(width: u32, height: u32, strategy: StartPointStrategy) -> Point
    ensures { result ≡ Start.measured_from strategy width height }
{
    match strategy {
        StartPointStrategy::Outside | StartPointStrategy::Inside => image_center(width, height),
        StartPointStrategy::Home(parked) => parked,
    }
}

// A contour in a sense, seen from q.
pub fn orient(points: &[f64], q: Point, reversed: bool, c: ContourRange) -> OrientedContour
    requires within { InRange c }
    requires held { InSlice points.now c }
    ensures contour { result.contour ≡ c }
    ensures sense { result.reversed ≡ reversed }
    ensures squared { result.squared ≡ distance_squared q (at points.now (c.first.0 + pick reversed c.last 0)) }
{
    let v = first_end(c, reversed);
    let end = point_at(points, v);
    let squared = distance_squared(q, end);
    OrientedContour {
        contour: c,
        reversed,
        squared,
    }
}

// C hands over the strategy as a value here too.
#[tactic(auto, unfolding(rules::specs::Start::beats, crate::specs::OrientedContours::oriented_of))]
fn beats(strategy: StartPointStrategy, new: OrientedContour, best: OrientedContour) -> bool
    ensures { result ≡ Start.beats strategy (oriented_of new) (oriented_of best) }
{
    match strategy {
        StartPointStrategy::Outside => best.squared < new.squared,
        StartPointStrategy::Inside | StartPointStrategy::Home(_) => new.squared < best.squared,
    }
}

// Whether one takes the lead: a lower layer does, a higher one does not.
#[tactic(auto, using(crate::specs::Agrees::layer_is, plate_laws::proofs::Layers::beats_lower, plate_laws::proofs::Layers::beats_higher, plate_laws::proofs::Layers::beats_alike))]
fn takes_lead(
    layers: &[u32],
    strategy: StartPointStrategy,
    new: OrientedContour,
    best: OrientedContour,
) -> bool
    requires new_layered { new.contour.number < length layers.now }
    requires best_layered { best.contour.number < length layers.now }
    ensures { (p : Plate) → p.layers ≡ layers.now →
        result ≡ beats_in (Start.layer_of p) (Start.beats strategy) (oriented_of new) (oriented_of best) }
{
    let i = new.contour.number as usize;
    let j = best.contour.number as usize;
    match layers[i].cmp(&layers[j]) {
        Ordering::Less => true,
        Ordering::Equal => beats(strategy, new, best),
        Ordering::Greater => false,
    }
}

// The lead where there was none: a contour with a layer above the highest is never chosen.
#[tactic(auto, using(crate::specs::Agrees::layer_is, plate_laws::specs::Layers::taking_low, plate_laws::specs::Layers::taking_high), unfolding(rules::specs::Tools::highest_layer, crate::specs::OrientedContours::lead_of))]
fn first_lead(layers: &[u32], new: OrientedContour) -> Option<OrientedContour>
    requires { new.contour.number < length layers.now }
    ensures led { LeadIn (length layers.now) result }
    ensures lead { (p : Plate) → p.layers ≡ layers.now → lead_of result ≡ taking (Start.layer_of p) (some (oriented_of new)) }
{
    let k = new.contour.number as usize;
    (layers[k] <= HIGHEST_LAYER).then_some(new)
}

// The lead after one more. `waiting` and `optimize` have a lead by layers each, and no generic function serves the three: one keeps ends, which a strategy
// compares, one numbers into cached distances, and one places, most of which are passed over unseen.
#[tactic(auto, unfolding(plate_laws::specs::Layers::leads_in, rules::specs::Tools::leads, crate::specs::OrientedContours::lead_of, rules::specs::Tools::pick))]
fn lead_after(
    layers: &[u32],
    strategy: StartPointStrategy,
    lead: Option<OrientedContour>,
    new: OrientedContour,
) -> Option<OrientedContour>
    requires layered { new.contour.number < length layers.now }
    requires led { LeadIn (length layers.now) lead }
    ensures led { LeadIn (length layers.now) result }
    ensures lead { (p : Plate) → p.layers ≡ layers.now →
        lead_of result ≡ leads_in (Start.layer_of p) (Start.beats strategy) (lead_of lead) (oriented_of new) }
{
    let Some(best) = lead else {
        return first_lead(layers, new);
    };
    if takes_lead(layers, strategy, new, best) {
        return Some(new);
    }
    Some(best)
}

// The lead after a contour: its first point before its last.
#[tactic(auto, using(crate::specs::Agrees::oriented_is), unfolding(rules::specs::HandedOver::plate, rules::specs::Start::ends))]
fn try_contour(
    input: &Input<'_>,
    q: Point,
    lead: Option<OrientedContour>,
    c: ContourRange,
) -> Option<OrientedContour>
    requires within { InRange c }
    requires held { InSlice input.now.points.now c }
    requires layered { c.number < length input.now.layers.now }
    requires led { LeadIn (length input.now.layers.now) lead }
    ensures led { LeadIn (length input.now.layers.now) result }
    ensures lead { let p = plate_of input.now in
        lead_of result ≡ foldl (leads_in (Start.layer_of p) (Start.beats p.strategy)) (lead_of lead) (Start.ends p q (contour_of c ∷ [])) }
{
    let forward = orient(input.points, q, false, c);
    let reverse = orient(input.points, q, true, c);
    let led = lead_after(input.layers, input.strategy, lead, forward);
    lead_after(input.layers, input.strategy, led, reverse)
}

// The end that leads the path, or nothing where no contour has a point.
#[tactic(auto, using(crate::proofs::Ends::led_start, contours::specs::ContoursLeft::all_within), unfolding(rules::specs::HandedOver::plate, rules::specs::Start::ends, crate::specs::OrientedContours::lead_of, contours::specs::ContourOf::contour_of))]
pub fn choose_start_contour(checked: &CheckedInput<'_>) -> Option<OrientedContour>
    ensures { lead_of result ≡ Start.start (plate_of checked.now.input) }
{
    let input = checked.input;
    let from = measured_from(input.width, input.height, input.strategy);
    let mut lead = None;
    for c in Contours::of(input.lengths) {
        lead = try_contour(&input, from, lead, c);
    }
    lead
}

// The start call: the contour's number, and whether it is reversed.
pub fn start_call(input: &Input<'_>) -> Result<(u32, bool), Refusal>
    ensures { answer_of result ≡ start_call (plate_of input.now) }
{
    let checked = check(input)?;
    let s = choose_start_contour(&checked).ok_or(Refusal::Blank)?;
    Ok((s.contour.number, s.reversed))
}
