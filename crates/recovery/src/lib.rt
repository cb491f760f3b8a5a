// The contours of a path with marks.
#![tactic(auto)]

ghost use Rattle.std.specs.Prelude.{◌≡◌, [], Bool, ℕ, ◌*◌, ◌/◌, ◌≤◌, ◌<◌, length, get_or, Err, IfOk, IfErr, IfSome, IsNone};
ghost use Rattle.rules.specs.Limits.{highest_vertex, most_points};
ghost use Rattle.rules.specs.Tools.{first_failing};
ghost use Rattle.rules.specs.HandedOver.{Answer, refused_by, WorkKept};
ghost use Rattle.rules.specs.declared.Recovered.{Recovered};
ghost use Rattle.plate_laws.specs.Rows.{Passed};
ghost use Rattle.rules.specs.Marks.{vertices_after};
ghost use Rattle.contour_recovery.specs.ContourRecovery as rule;
ghost use Rattle.landings.specs.LandedBefore.{LandedBefore};
ghost use Rattle.path_vertices.specs.ReadTo.{ReadTo};
ghost use Rattle.recovery_laws.specs.FirstFailing.{PassBefore};
ghost use Rattle.recovery.specs.Parts.{path_rows, mark_rows, vertex_rows};

use landings::Landings;
use path_vertices::{MarkedPath, first_inconsistent};
use plate::{PLATE_LIMIT, first_off};
use recovery_parts::{vertex_count, write_contours};
use rules::{Recovered, RecoveryRefusal, Vertex};

// Refusals 3, 4 and 5, of a work slice with `work` words.
fn check_slices(path: &[f64], marks: &[u32], work: usize) -> Result<(), RecoveryRefusal>
    ensures refused { IfErr result (λ r. (later : Answer Recovered) → rule.recovery_answer (Err r) ≡ refused_by (path_rows path.now marks.now work) later) }
    ensures passed { IfOk result (λ x. Passed (path_rows path.now marks.now work)) }
{
    if path.len() % 2 != 0 || marks.len() != path.len() {
        return Err(RecoveryRefusal::PathMiscounted);
    }
    if let Some(place) = first_off(PLATE_LIMIT, path) {
        return Err(RecoveryRefusal::PathOffThePlate(place as u64));
    }
    if work / 4 < path.len() / 2 {
        return Err(RecoveryRefusal::PathWorkShort);
    }
    Ok(())
}

// The lowest of the first `count` vertices that was not landed on.
fn first_missing(landings: &Landings<'_>, count: usize) -> Option<usize>
    requires most { count ≤ most_points }
    requires some { 0 < count → 0 < length landings.now.vertices.now }
    ensures found { (S : ℕ → Bool) (i : ℕ) → LandedBefore landings.now S i → IfSome result (λ v. (v < count) × (v ≡ first_failing S 0 count)) }
    ensures none { (S : ℕ → Bool) (i : ℕ) → LandedBefore landings.now S i → IsNone result → first_failing S 0 count ≡ count }
{
    for v in 0..count {
        if !landings.has_landed(Vertex(v as u32)) {
            return Some(v);
        }
    }
    None
}

// The words after all path points, or refusal 10.
fn read_path<'a, 'w>(
    path: &'a [f64],
    marks: &'a [u32],
    work: &'w mut [u32],
) -> Result<Landings<'w>, RecoveryRefusal>
    requires even { length path.now ≡ 2 * (length path.now / 2) }
    requires marks { length marks.now ≡ length path.now }
    requires room { length path.now / 2 ≤ length work.old / 4 }
    ensures refused { IfErr result (λ r. (later : Answer Recovered) → rule.recovery_answer (Err r) ≡ refused_by (mark_rows path.now marks.now) later) }
    ensures vertices { IfOk result (λ w. w.vertices.now ≡ vertices_after [] marks.now) }
    ensures read { IfOk result (λ w. ReadTo w path.now marks.now (length path.now / 2)) }
{
    let landings = Landings::none(work, path.len() / 2);
    let mut marked = MarkedPath {
        path,
        marks,
        landings,
    };
    match first_inconsistent(&mut marked) {
        Some(place) => Err(RecoveryRefusal::MarksInconsistent(place as u64)),
        None => Ok(marked.landings),
    }
}

// How many vertices there are, or refusal 11.
fn count_vertices(marks: &[u32], landings: &Landings<'_>) -> Result<usize, RecoveryRefusal>
    requires marks { length marks.now ≡ 2 * length landings.now.vertices.now }
    requires within { (j : ℕ) → get_or landings.now.vertices.now j 0 ≤ highest_vertex }
    ensures refused { let vs = landings.now.vertices.now in
        LandedBefore landings.now (rule.landed marks.now vs (length vs)) (length vs) →
        IfErr result (λ r. (later : Answer Recovered) → rule.recovery_answer (Err r) ≡ refused_by (vertex_rows marks.now vs) later) }
    ensures counted { let vs = landings.now.vertices.now in
        let m = rule.vertex_count marks.now vs (length vs) in
        LandedBefore landings.now (rule.landed marks.now vs (length vs)) (length vs) →
        IfOk result (λ count. (count ≡ m) × PassBefore (rule.landed marks.now vs (length vs)) m) }
{
    let count = vertex_count(marks, &*landings.vertices);
    if let Some(v) = first_missing(landings, count) {
        return Err(RecoveryRefusal::VertexMissing(v as u64));
    }
    Ok(count)
}

// The contours of a path with marks: their points and lengths over the start of the two output slices.
pub fn recover_contours(
    path: &[f64],
    marks: &[u32],
    points: &mut [f64],
    lengths: &mut [u32],
    work: &mut [u32],
) -> Result<Recovered, RecoveryRefusal>
    ensures { let o = rule.recovery_call path.now marks.now points.old lengths.old (length work.old) in
        (rule.recovery_answer result ≡ o.answer) × (points.new ≡ o.points) × (lengths.new ≡ o.lengths) × WorkKept o.answer work.old work.new }
{
    check_slices(path, marks, work.len())?;
    let landings = read_path(path, marks, work)?;
    let count = count_vertices(marks, &landings)?;
    let Landings {
        vertices,
        heads,
        ..
    } = landings;
    // All vertices below the highest are landed on, so they are no more than the path points, and the heads are read no longer.
    write_contours(
        path,
        marks,
        &*vertices,
        &mut heads[..count],
        points,
        lengths,
    )
}
