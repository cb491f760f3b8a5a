// optimize_path_order: contours in the order of a greedy walk from end to end.
#![tactic(auto)]

ghost use Rattle.std.specs.Prelude.{◌≡◌, map, ◌+◌, ◌*◌, ◌≤◌, ◌<◌, length, take};
ghost use Rattle.std.proofs.Math.Option.{some};
ghost use Rattle.rules.specs.HandedOver.{Plate, plate_of, contours};
ghost use Rattle.rules.specs.Start.{start};
ghost use Rattle.rules.specs.OrderAndStraight.{last_end, order};
ghost use Rattle.plate_laws.specs.AcceptedInput.{Accepted};
ghost use Rattle.start.specs.OrientedContours.{oriented_of};
ghost use Rattle.contours.specs.ContourOf.{InRange, InSlice, contour_of};
ghost use Rattle.packed_contours.specs.PackedNumbers.{packed, packed_sense};
ghost use Rattle.optimize.specs.State.{State, Continued, Whole};

mod nearest;

use crate::nearest::nearest_waiting;
use contours::first_end;
use packed_contours::{Packed, list_contours, move_down, place_of};
use plate::checked_input::CheckedInput;
use rules::{Point, point_at};
use start::{OrientedContour, choose_start_contour};

// Where a contour in its sense ends.
#[tactic(auto, using(start::specs::Agrees::end_within, crate::proofs::Ends::other_end), unfolding(rules::specs::OrderAndStraight::last_end, rules::specs::HandedOver::vertex_at, start::specs::OrientedContours::oriented_of, contours::specs::ContourOf::contour_of))]
fn last_end(points: &[f64], s: OrientedContour) -> Point
    requires small { InRange s.contour }
    requires held { InSlice points.now s.contour }
    ensures { (p : Plate) → p.points ≡ points.now → result ≡ last_end p (oriented_of s) }
{
    point_at(points, first_end(s.contour, !s.reversed))
}

// Puts the contour that the path starts with first.
fn put_first(work: &mut [u32], s: OrientedContour)
    requires { (p : Plate) × (work.old ≡ map packed (contours p)) × (start p ≡ some (oriented_of s)) × Accepted p.points p.lengths }
    ensures { (p : Plate) → work.old ≡ map packed (contours p) → start p ≡ some (oriented_of s) → Accepted p.points p.lengths →
        State p work.new (length work.old) 1 (oriented_of s) }
{
    let w = &*work;
    if let Some(k) = place_of(w, Packed::of(s.contour, false).into()) {
        move_down(work, 0, k, Packed::of(s.contour, s.reversed).into());
    }
}

// Puts the contour of the lowest layer that is nearest to the last one's end next.
fn put_next(
    checked: &CheckedInput<'_>,
    work: &mut [u32],
    done: usize,
    last: OrientedContour,
) -> Option<OrientedContour>
    requires inside { done < length work.old }
    requires state { State (plate_of checked.now.input) work.old (length work.old) done (oriented_of last) }
    ensures { Continued (plate_of checked.now.input) work.new (length work.old) done result }
{
    let q = last_end(checked.input.points, last);
    let w = &*work;
    let choice = nearest_waiting(checked, &w[done..], q)?;
    let next = choice.oriented;
    let packed = Packed::of(next.contour, next.reversed);
    move_down(work, done, done + choice.place, packed.into());
    Some(next)
}

// Puts the contours that are listed in order, and answers how many take part.
fn put_in_order(checked: &CheckedInput<'_>, work: &mut [u32], first: OrientedContour) -> usize
    requires listed { work.old ≡ map packed (contours (plate_of checked.now.input)) }
    requires start { start (plate_of checked.now.input) ≡ some (oriented_of first) }
    ensures { Whole (plate_of checked.now.input) work.new result }
{
    put_first(&mut *work, first);
    let mut last = first;
    for done in 1..work.len() {
        let Some(next) = put_next(checked, &mut *work, done, last) else {
            return done;
        };
        last = next;
    }
    work.len()
}

// The order, packed, at the start of the work slice; and how many contours it has.
pub fn optimize_path_order(checked: &CheckedInput<'_>, work: &mut [u32]) -> usize
    requires { length checked.now.input.lengths.now ≤ length work.old }
    ensures count { result ≡ length (order (plate_of checked.now.input)) }
    ensures words { take result work.new ≡ map packed_sense (order (plate_of checked.now.input)) }
{
    let n = list_contours(checked.input.lengths, &mut *work);
    let Some(first) = choose_start_contour(checked) else {
        return 0;
    };
    put_in_order(checked, &mut work[..n], first)
}
