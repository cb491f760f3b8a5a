// Whether a path point keeps the rules of a path that is checked, by the words of the work slice; and the words after it.
#![tactic(auto)]

ghost use Rattle.std.specs.Prelude.{◌≡◌, true, List, ℕ, ◌+◌, ◌*◌, ◌%◌, ◌≤◌, ◌<◌, ◌↔◌, ◌||◌, suc, length, get_or, Float, IsTrue, IsSome, IfSome};
ghost use Rattle.rules.specs.HandedOver.{Contour, at};
ghost use Rattle.rules.specs.Marks.{kind_of, reference_of, kind_at, reference_at};
ghost use Rattle.rules.specs.declared.Point.{Point};
ghost use Rattle.statement.specs.PathCheck as rule;
ghost use Rattle.path_rules.specs.PathWords.{NamesVertex};
ghost use Rattle.path_rules.specs.Words.{number_at, contour_word, Open};
ghost use Rattle.path_rules.specs.Parts.{words_of, TalliedBy, SameWords};

mod work;

use bits::same_point;
use mark_kinds::{landing_mark, mark_at};
use rules::{Mark, PathPlace, Point, Vertex, point_at, point_in};
pub use work::{ENTERED, UNENTERED, Words};

// A path that is checked, with the points of its plate.
#[derive(Drop)]
pub struct PlatePath<'a, 'w> {
    pub points: &'a [f64],
    pub path: &'a [f64],
    pub marks: &'a [u32],
    pub words: Words<'w>,
    ghost vertices: { 2 * length words.vertices.now ≤ length points.now },
}

// Whether path points k and k + 1 have the bits of a and b.
#[tactic(auto, unfolding(statement::specs::PathCheck::goes))]
fn goes(path: &[f64], k: usize, a: Point, b: Point) -> bool
    requires { 2 * k + 3 < length path.now }
    ensures { result ≡ rule.goes path.now k a b }
{
    same_point(point_in(path, k), a) && same_point(point_in(path, k + 1), b)
}

// Whether path points k and k + 1 are path points place + 1, an earlier one, and place.
#[tactic(auto, unfolding(statement::specs::PathCheck::reverses))]
fn reverses(path: &[f64], k: usize, place: PathPlace) -> bool
    requires { 2 * k + 3 < length path.now }
    ensures { result ≡ rule.reverses path.now k place.0 }
{
    let p = place.0 as usize;
    p < k && goes(path, k, point_in(path, p + 1), point_in(path, p))
}

impl Words<'_> {
    // The number of vertex v's contour.
    fn contour_of(&self, v: usize) -> u32
        requires { v < length self.now.vertices.now }
        ensures { result ≡ number_at (words_of self.now) v }
    {
        self.vertices[v] / 2
    }

    // The word of vertex v's contour.
    pub fn contour_word(&self, v: usize) -> u32
        requires { v < length self.now.vertices.now }
        ensures { result ≡ contour_word (length self.now.vertices.now) (words_of self.now) v }
    {
        self.contours[self.contour_of(v) as usize]
    }

    // Whether the segment from vertex v is cut.
    fn is_cut(&self, v: usize) -> bool
        requires { v < length self.now.vertices.now }
        ensures { IsTrue result ↔ (get_or (words_of self.now) v 0 % 2 ≡ 1) }
    {
        self.vertices[v] % 2 == 1
    }

    // Whether there is a segment from vertex v, which is uncut, of a contour that is entered.
    pub fn is_open(&self, v: usize) -> bool
        requires { v < usize.MAX }
        ensures { IsTrue result ↔ Open (length self.now.vertices.now) (words_of self.now) v }
    {
        let next = v + 1;
        next < self.vertices.len()
            && !self.is_cut(v)
            && self.contour_of(v) == self.contour_of(next)
            && self.contour_word(v) >= ENTERED
    }

    // The words after path point i, which keeps the rules.
    pub fn tally(&mut self, marks: &[u32], i: usize)
        requires marked { 2 * i + 1 < length marks.now }
        requires named { NamesVertex (length self.old.vertices.now) marks.now i }
        ensures same { SameWords self.old self.new }
        ensures tallied { (cs : List Contour) (xs path : List Float) → TalliedBy cs self.old marks.now i →
            rule.keeps_rules cs xs path marks.now i ≡ true → TalliedBy cs self.new marks.now (suc i) }
    {
        let Some(mark) = mark_at(marks, i) else {
            return;
        };
        match mark {
            Mark::BackStep(_) => {}
            Mark::Cut(v) => {
                let vertex = v.0 as usize;
                self.vertices[vertex] = 2 * (self.vertices[vertex] / 2) + 1;
            }
            Mark::Start(v) | Mark::Jump(v) | Mark::Touch(v) => {
                let contour = (self.vertices[v.0 as usize] / 2) as usize;
                self.contours[contour] = ENTERED;
            }
        }
    }
}

impl PlatePath<'_, '_> {
    // Whether path point i is vertex v, of a contour that is not entered before.
    fn lands_fresh(&self, i: usize, v: Vertex) -> bool
        requires { 2 * i + 1 < length self.now.path.now }
        ensures fresh { (cs : List Contour) (ms : List ℕ) → TalliedBy cs self.now.words ms i →
            result ≡ rule.lands_fresh cs self.now.points.now self.now.path.now ms i v.0 }
        ensures named { result ≡ true → v.0 < length self.now.words.vertices.now }
    {
        let vertex = v.0 as usize;
        vertex < self.words.vertices.len()
            && same_point(point_in(self.path, i), point_at(self.points, v))
            && self.words.contour_word(vertex) == UNENTERED
    }

    // Whether path points k and k + 1 are the ends of segment v, in one order or the other.
    fn goes_along(&self, k: usize, v: usize) -> bool
        requires pair { 2 * k + 3 < length self.now.path.now }
        requires segment { v + 1 < length self.now.words.vertices.now }
        ensures { result
            ≡ rule.goes self.now.path.now k (at self.now.points.now v) (at self.now.points.now (suc v))
            || rule.goes self.now.path.now k (at self.now.points.now (suc v)) (at self.now.points.now v) }
    {
        let a = point_in(self.points, v);
        let b = point_in(self.points, v + 1);
        goes(self.path, k, a, b) || goes(self.path, k, b, a)
    }

    // Whether path points k and k + 1 are the ends of segment v, of a contour that is entered before; the segment is not cut before.
    fn cuts_fresh(&self, k: usize, v: Vertex) -> bool
        requires { 2 * k + 3 < length self.now.path.now }
        ensures fresh { (cs : List Contour) (ms : List ℕ) → TalliedBy cs self.now.words ms (suc k) →
            result ≡ rule.cuts_fresh cs self.now.points.now self.now.path.now ms k v.0 }
        ensures named { result ≡ true → v.0 < length self.now.words.vertices.now }
    {
        let vertex = v.0 as usize;
        self.words.is_open(vertex) && self.goes_along(k, vertex)
    }

    // Whether path point i keeps the rules.
    pub fn keeps_rules(&self, i: usize) -> bool
        requires inside { 2 * i + 1 < length self.now.path.now }
        requires marked { 2 * i + 1 < length self.now.marks.now }
        ensures rules { (cs : List Contour) → TalliedBy cs self.now.words self.now.marks.now i →
            result ≡ rule.keeps_rules cs self.now.points.now self.now.path.now self.now.marks.now i }
        ensures named { result ≡ true → NamesVertex (length self.now.words.vertices.now) self.now.marks.now i }
    {
        let Some(mark) = mark_at(self.marks, i) else {
            return false;
        };
        if i == 0 {
            return match mark {
                Mark::Start(v) => self.lands_fresh(i, v),
                _ => false,
            };
        }
        let k = i - 1;
        match mark {
            Mark::Cut(v) => self.cuts_fresh(k, v),
            Mark::BackStep(place) => reverses(self.path, k, place),
            Mark::Jump(v) | Mark::Touch(v) => {
                mark.kind()
                    == landing_mark(point_in(self.path, k), point_in(self.path, i), v).kind()
                    && self.lands_fresh(i, v)
            }
            Mark::Start(_) => false,
        }
    }
}
