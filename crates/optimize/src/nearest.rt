// The waiting contour of the lowest layer whose nearer end is nearest to a point.
ghost use Rattle.std.specs.Prelude.{◌≡◌, true, false, List, map, ℕ, ◌+◌, ◌*◌, ◌≤◌, ◌<◌, length, get_or};
ghost use Rattle.rules.specs.Tools.{leads, foremost};
ghost use Rattle.rules.specs.HandedOver as handed;
ghost use Rattle.rules.specs.HandedOver.{Plate, plate_of, layer_at};
ghost use Rattle.rules.specs.Start.{layer_of};
ghost use Rattle.rules.specs.OrderAndStraight.{nearer_sense, nearer_end};
ghost use Rattle.plate_laws.specs.Lists.{All};
ghost use Rattle.plate_laws.specs.Layers.{leads_in};
ghost use Rattle.start.specs.OrientedContours.{oriented_of};
ghost use Rattle.contours.specs.ContourOf.{InRange, InSlice, contour_of};
ghost use Rattle.packed_contours.specs.PackedNumbers.{packed, InLengths};
ghost use Rattle.optimize.specs.Choice.{choice_of, lowest_of, ChoiceStands};

use contours::{ContourRange, first_end};
use packed_contours::contour_at;
use plate::checked_input::CheckedInput;
use point::bound::is_beyond;
use rules::{HIGHEST_LAYER, Point, point_at};
use start::{OrientedContour, orient};

// What the scan has chosen: a place among the waiting contours and the contour there, in its nearer sense.
#[derive(Clone, Copy)]
pub struct Choice {
    pub place: usize,
    pub oriented: OrientedContour,
}

// A contour that waits, and the point that it is seen from. The points have its vertices.
#[derive(Clone, Copy)]
pub struct WaitingContour<'a> {
    pub points: &'a [f64],
    pub from: Point,
    pub contour: ContourRange,
    pub layer: u32,
    ghost small: { InRange contour },
    ghost held: { InSlice points.now contour },
}

impl WaitingContour<'_> {
    // Forward where forward ≤ reverse.
    pub fn nearer_sense(&self) -> OrientedContour
        ensures contour { result.contour ≡ self.now.contour }
        ensures nearer { (p : Plate) → p.points ≡ self.now.points.now → oriented_of result ≡ nearer_sense p self.now.from (contour_of self.now.contour) }
    {
        let forward = orient(self.points, self.from, false, self.contour);
        let reverse = orient(self.points, self.from, true, self.contour);
        if forward.squared <= reverse.squared {
            return forward;
        }
        reverse
    }

    // Whether it is surely no nearer than the choice so far, told without an exact sum. `false` says nothing.
    fn is_passed_over(&self, best: Option<Choice>) -> bool
        ensures { result ≡ true → (p : Plate) → p.points ≡ self.now.points.now →
            leads nearer_end (choice_of best) (nearer_sense p self.now.from (contour_of self.now.contour)) ≡ choice_of best }
    {
        let Some(chosen) = best else {
            return false;
        };
        let least = chosen.oriented.squared;
        is_beyond(self.from, point_at(self.points, self.contour.first), least)
            && is_beyond(
                self.from,
                point_at(self.points, first_end(self.contour, true)),
                least,
            )
    }

    // Whether the choice surely stays as it is after this contour: it is of a higher layer, or of the choice's and passed over. `lowest` is the choice's
    // layer, and where nothing is chosen yet the highest that takes part.
    fn leaves(&self, best: Option<Choice>, lowest: u32) -> bool
        ensures same { result ≡ true → (p : Plate) → p.points ≡ self.now.points.now → lowest ≡ lowest_of p (choice_of best) →
            self.now.layer ≡ layer_at p (contour_of self.now.contour) →
            choice_of best ≡ leads_in (layer_of p) nearer_end (choice_of best) (nearer_sense p self.now.from (contour_of self.now.contour)) }
        ensures low { result ≡ false → self.now.layer ≤ lowest }
    {
        lowest < self.layer || (lowest == self.layer && self.is_passed_over(best))
    }
}

// The choice after one more contour.
#[tactic(auto, using(crate::proofs::Choices::later), unfolding(rules::specs::Tools::leads, rules::specs::Tools::pick, rules::specs::OrderAndStraight::nearer_end, start::specs::OrientedContours::oriented_of, crate::specs::Choice::choice_of, crate::specs::Choice::ChoiceStands))]
fn nearer(best: Option<Choice>, place: usize, oriented: OrientedContour) -> Option<Choice>
    ensures leads { choice_of result ≡ leads nearer_end (choice_of best) (oriented_of oriented) }
    ensures stands { (words : List ℕ) → ChoiceStands words place best → place < length words →
        get_or words place 0 ≡ packed (contour_of oriented.contour) → ChoiceStands words (place + 1) result }
{
    let Some(old) = best else {
        return Some(Choice { place, oriented });
    };
    if oriented.squared < old.oriented.squared {
        return Some(Choice { place, oriented });
    }
    best
}

// The choice after a contour: one of a lower layer than the choice's takes its place, one of a higher layer waits. Who leads by layers is no generic
// function with `start`'s and `waiting`'s: each keeps another kind of lead. `start` keeps ends, compared by the strategy; `waiting` a number, compared by
// the cached distances; here it is a place, behind `is_passed_over`, which passes over most contours without an exact sum.
fn choice_after(
    best: Option<Choice>,
    place: usize,
    c: &WaitingContour<'_>,
    lowest: u32,
) -> Option<Choice>
    ensures leads { (p : Plate) → p.points ≡ c.now.points.now → lowest ≡ lowest_of p (choice_of best) → c.now.layer ≡ layer_at p (contour_of c.now.contour) →
        choice_of result ≡ leads_in (layer_of p) nearer_end (choice_of best) (nearer_sense p c.now.from (contour_of c.now.contour)) }
    ensures stands { (words : List ℕ) → ChoiceStands words place best → place < length words →
        get_or words place 0 ≡ packed (contour_of c.now.contour) → ChoiceStands words (place + 1) result }
{
    if c.leaves(best, lowest) {
        return best;
    }
    let oriented = c.nearer_sense();
    if c.layer < lowest {
        return Some(Choice { place, oriented });
    }
    nearer(best, place, oriented)
}

// The waiting contour of the lowest layer that is nearest to q: strictly least distance wins, the lower contour on ties.
pub fn nearest_waiting(checked: &CheckedInput<'_>, waiting: &[u32], q: Point) -> Option<Choice>
    requires { (cs : List handed.Contour) × (waiting.now ≡ map packed cs) × All (InLengths checked.now.input.lengths.now) cs }
    ensures place { ChoiceStands waiting.now (length waiting.now) result }
    ensures choice { (cs : List handed.Contour) → waiting.now ≡ map packed cs → All (InLengths checked.now.input.lengths.now) cs →
        let p = plate_of checked.now.input in
        choice_of result ≡ foremost (layer_of p) nearer_end (map (nearer_sense p q) cs) }
{
    let input = checked.input;
    let mut best = None;
    let mut lowest = HIGHEST_LAYER;
    for (i, &word) in waiting.iter().enumerate() {
        let contour = contour_at(input.lengths, word);
        let layer = input.layers[contour.number as usize];
        let c = WaitingContour {
            points: input.points,
            from: q,
            contour,
            layer,
        };
        best = choice_after(best, i, &c, lowest);
        lowest = lowest.min(layer);
    }
    best
}
