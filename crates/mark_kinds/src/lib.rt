// The mark of a path point in a slice of marks, and the mark of a landing after the start.
#![tactic(auto)]

ghost use Rattle.std.specs.Prelude.{◌≡◌, ◌+◌, ◌*◌, ◌<◌, ◌≤◌, ◌↔◌, length, IsSome, IfSome};
ghost use Rattle.rules.specs.Marks.{touch_kind, kind_of, reference_of, landing_kind, kind_at, reference_at};

use rules::{Mark, Point, Vertex};

// The mark of path point i, where it has a kind.
#[tactic(auto, unfolding(rules::specs::Marks::kind_at, rules::specs::Marks::reference_at))]
pub fn mark_at(marks: &[u32], i: usize) -> Option<Mark>
    requires { 2 * i + 1 < length marks.now }
    ensures known { IsSome result ↔ (kind_at marks.now i ≤ touch_kind) }
    ensures numbers { IfSome result (λ m. (kind_of m ≡ kind_at marks.now i) × (reference_of m ≡ reference_at marks.now i)) }
{
    Mark::from_numbers(marks[2 * i], marks[2 * i + 1])
}

// From the point left to vertex v's, the landing: a touch is a jump between equal points.
#[tactic(auto, unfolding(rules::specs::Marks::landing_kind, rules::specs::Marks::coincide, rules::specs::Tools::pick))]
pub fn landing_mark(left: Point, landing: Point, v: Vertex) -> Mark
    ensures kind { kind_of result ≡ landing_kind left landing }
    ensures reference { reference_of result ≡ v.0 }
{
    if left == landing {
        Mark::Touch(v)
    } else {
        Mark::Jump(v)
    }
}
