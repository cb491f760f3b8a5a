// The vertices of the path points of a path with marks, and which of these breaks a rule of marks first.
#![tactic(auto)]

ghost use Rattle.std.specs.Prelude.{◌≡◌, true, false, not, ◌&&◌, ◌||◌, List, [], ℕ, suc, ◌-◌, ◌*◌, ◌≤◌, ◌<◌, ◌↔◌, eqb, ltb, length, get_or, IsSome, IsNone, IfSome};
ghost use Rattle.rules.specs.Limits.{highest_vertex};
ghost use Rattle.rules.specs.Tools.{pick, first_failing};
ghost use Rattle.rules.specs.HandedOver.{at};
ghost use Rattle.rules.specs.Bits.{same_point};
ghost use Rattle.rules.specs.Marks.{kind_of, landing_kind, vertices_after};
ghost use Rattle.contour_recovery.specs.ContourRecovery.{consistent};
ghost use Rattle.recovery_laws.specs.ByKind as law;
ghost use Rattle.landings.specs.LandedBefore.{LandedBefore, SameParts};
ghost use Rattle.path_vertices.specs.ReadTo.{ReadTo};

use bits::same_point;
use landings::Landings;
use mark_kinds::{landing_mark, mark_at};
use rules::{BACK_STEP, Mark, PathPlace, Vertex, point_in};

// No vertex is above this.
const HIGHEST_VERTEX: u32 = 65535;

// A path with marks, and what is known of the path points that were read.
#[derive(Drop)]
pub struct MarkedPath<'a, 'w> {
    pub path: &'a [f64],
    pub marks: &'a [u32],
    pub landings: Landings<'w>,
    ghost paired: { length path.now ≡ 2 * length landings.vertices.now },
    ghost marked: { length marks.now ≡ 2 * length landings.vertices.now },
}

impl MarkedPath<'_, '_> {
    // Vertex v, where it may be landed on.
    #[tactic(auto, unfolding(recovery_laws::specs::ByKind::fresh))]
    fn landing(&self, v: Vertex) -> Option<Vertex>
        requires { 0 < length self.now.landings.vertices.now }
        ensures fresh { (i : ℕ) → ReadTo self.now.landings self.now.path.now self.now.marks.now i →
            IsSome result ↔ (law.fresh self.now.marks.now (vertices_after [] self.now.marks.now) i v.0 ≡ true) }
        ensures vertex { IfSome result (λ u. u ≡ v) }
    {
        if v.0 <= HIGHEST_VERTEX && !self.landings.has_landed(v) {
            Some(v)
        } else {
            None
        }
    }

    // The end of segment v that path point i − 1 doesn't have, where it has the other.
    #[tactic(auto, unfolding(rules::specs::Tools::pick))]
    fn cut_end(&self, i: usize, v: Vertex) -> Option<Vertex>
        requires inside { i < length self.now.landings.vertices.now }
        requires within { 0 < i → get_or self.now.landings.vertices.now (i - 1) 0 ≤ highest_vertex }
        ensures from { let before = get_or self.now.landings.vertices.now (i - 1) 0 in
            IsSome result ↔ (not (eqb i 0) && (eqb before v.0 || eqb before (suc v.0)) ≡ true) }
        ensures end { IfSome result (λ u. u.0 ≡ pick (eqb (get_or self.now.landings.vertices.now (i - 1) 0) v.0) (suc v.0) v.0) }
    {
        if i == 0 {
            return None;
        }
        let before = self.landings.vertices[i - 1];
        if before == v.0 {
            Some(Vertex(before + 1))
        } else if before > 0 && before - 1 == v.0 {
            Some(v)
        } else {
            None
        }
    }

    // The vertex of the path point that path point i steps back to, reversing an earlier pair.
    fn stepped_back(&self, i: usize, place: PathPlace) -> Option<Vertex>
        requires { i < length self.now.landings.vertices.now }
        ensures pair { let vertices = self.now.landings.vertices.now in
            IsSome result
            ↔ (ltb (suc place.0) i && eqb (get_or vertices (i - 1) 0) (get_or vertices (suc place.0) 0)
            && same_point (at self.now.path.now i) (at self.now.path.now place.0) ≡ true) }
        ensures vertex { IfSome result (λ u. (place.0 < i) × (u.0 ≡ get_or self.now.landings.vertices.now place.0 0)) }
    {
        let k = place.0 as usize;
        let vertices = &*self.landings.vertices;
        if k + 1 < i
            && vertices[i - 1] == vertices[k + 1]
            && same_point(point_in(self.path, i), point_in(self.path, k))
        {
            Some(Vertex(vertices[k]))
        } else {
            None
        }
    }

    // Whether the mark has the kind of a landing from path point i − 1 on path point i.
    fn has_landing_kind(&self, i: usize, mark: Mark, v: Vertex) -> bool
        requires { i < length self.now.landings.vertices.now }
        ensures { result ≡ not (eqb i 0) && eqb (kind_of mark) (landing_kind (at self.now.path.now (i - 1)) (at self.now.path.now i)) }
    {
        i > 0
            && mark.kind()
                == landing_mark(point_in(self.path, i - 1), point_in(self.path, i), v).kind()
    }

    // Path point i's vertex, where it keeps the rules of marks.
    pub fn vertex(&self, i: usize) -> Option<Vertex>
        requires inside { i < length self.now.landings.vertices.now }
        requires read { ReadTo self.now.landings self.now.path.now self.now.marks.now i }
        ensures keeps { IsSome result ↔ (consistent self.now.path.now self.now.marks.now (vertices_after [] self.now.marks.now) i ≡ true) }
        ensures vertex { IfSome result (λ v. v.0 ≡ get_or (vertices_after [] self.now.marks.now) i 0) }
    {
        let mark = mark_at(self.marks, i)?;
        match mark {
            Mark::Start(v) => {
                if i > 0 {
                    return None;
                }
                self.landing(v)
            }
            Mark::Cut(v) => self.landing(self.cut_end(i, v)?),
            Mark::BackStep(place) => self.stepped_back(i, place),
            Mark::Jump(v) | Mark::Touch(v) => {
                if !self.has_landing_kind(i, mark, v) {
                    return None;
                }
                self.landing(v)
            }
        }
    }

    // The words after path point i, which keeps the rules and whose vertex is v.
    fn tally(&mut self, i: usize, v: Vertex)
        requires inside { i < length self.old.landings.vertices.now }
        requires read { ReadTo self.old.landings self.old.path.now self.old.marks.now i }
        requires kept { consistent self.old.path.now self.old.marks.now (vertices_after [] self.old.marks.now) i ≡ true }
        requires vertex { v.0 ≡ get_or (vertices_after [] self.old.marks.now) i 0 }
        ensures path { self.new.path.now ≡ self.old.path.now }
        ensures marks { self.new.marks.now ≡ self.old.marks.now }
        ensures same { SameParts self.old.landings self.new.landings }
        ensures read { ReadTo self.new.landings self.old.path.now self.old.marks.now (suc i) }
    {
        if self.marks[2 * i] == BACK_STEP {
            self.landings.step_back(i, v);
        } else {
            self.landings.land(i, v);
        }
    }
}

// Reads path points until one breaks a rule of marks. A `for` and no chain: each point that keeps the rules alters the words that the next is tested by.
pub fn first_inconsistent(marked: &mut MarkedPath<'_, '_>) -> Option<usize>
    requires { LandedBefore marked.old.landings (λ v. false) 0 }
    ensures same { SameParts marked.old.landings marked.new.landings }
    ensures count { length marked.new.landings.vertices.now ≡ length marked.old.landings.vertices.now }
    ensures found { let ms = marked.old.marks.now in
        let n = length marked.old.landings.vertices.now in
        IfSome result (λ i. (i < n) × (i ≡ first_failing (consistent marked.old.path.now ms (vertices_after [] ms)) 0 n)) }
    ensures none { let n = length marked.old.landings.vertices.now in
        IsNone result → ReadTo marked.new.landings marked.old.path.now marked.old.marks.now n }
{
    for i in 0..marked.path.len() / 2 {
        let Some(v) = marked.vertex(i) else {
            return Some(i);
        };
        marked.tally(i, v);
    }
    None
}
