// Path points with their marks: written to the lent slices and put on the chains of their cells, as many as there is room for.
#![tactic(auto)]

ghost use Rattle.std.specs.Prelude.{◌≡◌, List, [], ◌∷◌, ◌++◌, ℕ, ◌+◌, ◌*◌, ◌≤◌, ◌<◌, length, take, Float};
ghost use Rattle.rules.specs.HandedOver.{at};
ghost use Rattle.rules.specs.Marks.{kind_of, reference_of};
ghost use Rattle.rules.specs.Retrace.{walk_back};
ghost use Rattle.plate_laws.specs.FiniteDistances.{OnPlate};
ghost use Rattle.path_points.specs.Pen.{Pen};
ghost use Rattle.path_points.specs.Props.{pen_prop};

use grid::Grid;
use history::insert;
use rules::{Mark, PathPlace, Point, path_point};

// There are more path points than there is room for.
#[derive(Clone, Copy, PartialEq, Eq)]
pub struct Full;

// The lent slices, of which the first `count` points are the path so far.
#[derive(Drop)]
pub struct PathWriter<'a> {
    pub grid: Grid,
    // No slice's length: it is the least of three, and the parts of `work` that others hold begin behind 2916 + room. C lends the slices, so no `Vec`.
    pub room: u32,
    pub path: &'a mut [f64],
    pub marks: &'a mut [u32],
    pub work: &'a mut [u32],
    pub count: u32,
    ghost pen: { Pen grid.spatial room count path.now marks.now work.now } by { pen_prop grid.spatial room count path.now marks.now work.now },
}

impl PathWriter<'_> {
    ghost use Rattle.path_points.specs.WriterState.{reached, SameWriter, WriterAfter, Adds};

    // The path's points alone, in the order of the path. A count of room + 1 says that the path is full, and the slice may end before it.
    pub fn so_far(&self) -> &[f64]
        ensures { result.now ≡ take (2 * self.now.count) self.now.path.now }
    {
        &self.path[..(2 * self.count as usize).min(self.path.len())]
    }

    // The point at a place of the path.
    pub fn point(&self, place: PathPlace) -> Point
        requires { 2 * place.0 + 1 < length self.now.path.now }
        ensures { result ≡ at self.now.path.now place.0 }
    {
        path_point(&*self.path, place)
    }

    pub fn work(&self) -> &[u32]
        ensures { result.now ≡ self.now.work.now }
    {
        &*self.work
    }

    // One more path point.
    pub fn put(&mut self, p: Point, mark: Mark) -> Result<(), Full>
        requires x { OnPlate p.x }
        requires y { OnPlate p.y }
        ensures same { SameWriter self.old self.new }
        ensures written { WriterAfter self.old self.new result }
        ensures one_more { self.old.count ≤ self.old.room → self.old.count < reached self.old.room self.new.count result }
        ensures adds { (xs : List Float) (v : ℕ) → at xs v ≡ p →
            Adds xs self.old self.new result
            (λ steps. steps ++ record { vertex = v; kind = kind_of mark; reference = reference_of mark } ∷ []) }
    {
        if self.room <= self.count {
            return Err(Full);
        }
        let i = self.count as usize;
        self.path[2 * i] = p.x;
        self.path[2 * i + 1] = p.y;
        self.marks[2 * i] = mark.kind();
        self.marks[2 * i + 1] = mark.reference();
        insert(self.grid, &mut *self.work, PathPlace(self.count), p);
        self.count += 1;
        Ok(())
    }

    // Back along the path to place h.
    pub fn walk_back(&mut self, h: PathPlace) -> Result<(), Full>
        requires behind { self.old.count ≤ self.old.room → h.0 < self.old.count }
        ensures same { SameWriter self.old self.new }
        ensures written { WriterAfter self.old self.new result }
        ensures adds { (xs : List Float) → Adds xs self.old self.new result (λ steps. steps ++ walk_back steps h.0) }
    {
        if self.room < self.count {
            return Err(Full);
        }
        for place in (h.0..self.count - 1).rev() {
            let place = PathPlace(place);
            let p = self.point(place);
            self.put(p, Mark::BackStep(place))?;
        }
        Ok(())
    }
}
