// The contours of a plate's lengths, one after the other, without the empty ones.
#![tactic(auto)]

ghost use Rattle.std.specs.Prelude.{◌≡◌, ◌+◌, ◌≤◌, length};
ghost use Rattle.rules.specs.Tools.{sum, pick};
ghost use Rattle.rules.specs.Limits.{most_contours, most_points};
ghost use Rattle.contours.specs.ContourOf.{InRange};

use rules::Vertex;

// A contour that is not empty: its number, its first vertex, and its last, counted from 0 within it. That its last vertex has a number of a plate (`InRange`)
// is no ghost field: `waiting::waiting_contour` and `packed_contours::contour_at` make contours of words of which nothing is promised, and would have to ask
// it.
#[derive(Clone, Copy)]
pub struct ContourRange {
    pub number: u32,
    pub first: Vertex,
    pub last: u32,
}

// The vertex at which a contour in a sense begins.
#[tactic(auto, unfolding(rules::specs::Tools::pick))]
pub fn first_end(c: ContourRange, reversed: bool) -> Vertex
    requires { InRange c }
    ensures { result.0 ≡ c.first.0 + pick reversed c.last 0 }
{
    if reversed {
        return Vertex(c.first.0 + c.last);
    }
    c.first
}

// The contours that are left: their lengths, and the number and the first vertex of the next.
#[derive(Drop)]
pub struct Contours<'a> {
    lengths: &'a [u32],
    number: u32,
    first: u32,
    pub ghost few: { number + length lengths.now ≤ most_contours },
    pub ghost small: { first + sum lengths.now ≤ most_points },
}

impl<'a> Contours<'a> {
    ghost use Rattle.rules.specs.HandedOver.{contours_from};
    ghost use Rattle.contours.specs.ContoursLeft.{contours_left};

    pub fn of(lengths: &'a [u32]) -> Contours<'a>
        requires few { length lengths.now ≤ most_contours }
        requires small { sum lengths.now ≤ most_points }
        ensures { contours_left result ≡ contours_from 0 0 lengths.now }
    {
        Contours {
            lengths,
            number: 0,
            first: 0,
        }
    }
}

// Those that are not empty.
impl Iterator for Contours<'_> {
    ghost use Rattle.std.specs.Iterator.{YieldsFirstBy, item_count};
    ghost use Rattle.contours.specs.ContourOf.{contour_of};
    ghost use Rattle.contours.specs.ContoursLeft.{contours_left};

    type Item = ContourRange;

    ghost next_gives = { YieldsFirstBy contour_of contours_left };

    ghost remaining = { item_count contours_left };

    #[tactic(auto, using(crate::proofs::FirstContour::listed_none, crate::proofs::FirstContour::listed_some), unfolding(rules::specs::Tools::sum, rules::specs::HandedOver::contours_from, crate::specs::ContourOf::contour_of))]
    fn next(&mut self) -> Option<ContourRange> {
        'lengths: while let Some((&size, others)) = self.lengths.split_first() {
            let number = self.number;
            let first = self.first;
            self.lengths = others;
            self.number += 1;
            self.first += size;
            if size != 0 {
                return Some(ContourRange {
                    number,
                    first: Vertex(first),
                    last: size - 1,
                });
            }
        }
        None
    }
}
