// The contours of a path that keeps the rules of marks: how many vertices it lands on, which segments are cut, and points and lengths from these.
#![tactic(auto)]

ghost use Rattle.std.specs.Prelude.{◌≡◌, [], ◌∷◌, ◌*◌, ◌/◌, ◌≤◌, ◌<◌, length};
ghost use Rattle.rules.specs.Limits.{most_points};
ghost use Rattle.rules.specs.HandedOver.{over, gives, refused_by, no_room, written};
ghost use Rattle.contour_recovery.specs.ContourRecovery as rule;
ghost use Rattle.recovery_parts.specs.Flags.{flagged, flagged_runs, Flags};
ghost use Rattle.recovery_laws.specs.LandedVertices.{lands};
ghost use Rattle.recovery_parts.specs.Lengths.{ends};
ghost use Rattle.recovery_parts.specs.PointPlaces.{LandedOnce};

use rules::{CUT, JUMP, Recovered, RecoveryRefusal, START, TOUCH};

// Whether path point i lands on its vertex: by a start, a jump, a touch or a cut.
#[tactic(auto, unfolding(recovery_laws::specs::LandedVertices::lands, rules::specs::Marks::enters, rules::specs::Marks::kind_at))]
fn lands(marks: &[u32], i: usize) -> bool
    requires { 2 * i < length marks.now }
    ensures { result ≡ lands marks.now i }
{
    matches!(marks[2 * i], START | CUT | JUMP | TOUCH)
}

// One more than the highest vertex landed on, or 0.
pub fn vertex_count(marks: &[u32], vertices: &[u32]) -> usize
    requires { length marks.now ≡ 2 * length vertices.now }
    ensures { result ≡ rule.vertex_count marks.now vertices.now (length vertices.now) }
{
    let mut count: usize = 0;
    for i in 0..vertices.len() {
        if lands(marks, i) {
            count = count.max(vertices[i] as usize + 1);
        }
    }
    count
}

// Flags the segments that are cut.
fn flag_cuts(marks: &[u32], flags: &mut [u32])
    requires { length marks.now ≡ 2 * (length marks.now / 2) }
    ensures same { length flags.new ≡ length flags.old }
    ensures flags { Flags marks.now flags.new }
{
    flags.fill(0);
    for i in 0..marks.len() / 2 {
        let r = marks[2 * i + 1] as usize;
        if marks[2 * i] == CUT && r < flags.len() {
            flags[r] = 1;
        }
    }
}

// Whether vertex v is the last of its contour.
#[tactic(auto, unfolding(crate::specs::Lengths::ends, crate::specs::Flags::flagged))]
fn ends_contour(flags: &[u32], v: usize) -> bool
    requires { v < length flags.now }
    ensures { result ≡ ends (flagged flags.now) (length flags.now) v }
{
    v + 1 == flags.len() || flags[v] == 0
}

// How many contours vertices with these flags are.
fn count_contours(flags: &[u32]) -> usize
    ensures { result ≡ length (flagged_runs flags.now) }
{
    let mut count: usize = 0;
    for v in 0..flags.len() {
        if ends_contour(flags, v) {
            count += 1;
        }
    }
    count
}

// Writes each vertex's point: that of the path point which lands on it.
fn put_points(path: &[f64], marks: &[u32], vertices: &[u32], points: &mut [f64])
    requires path { length path.now ≡ 2 * length vertices.now }
    requires marks { length marks.now ≡ 2 * length vertices.now }
    requires landed { LandedOnce marks.now vertices.now (rule.vertex_count marks.now vertices.now (length vertices.now)) }
    requires room { 2 * rule.vertex_count marks.now vertices.now (length vertices.now) ≤ length points.old }
    ensures { let n = length vertices.now in
        points.new ≡ over (rule.recovered_points path.now marks.now vertices.now n (rule.vertex_count marks.now vertices.now n)) points.old }
{
    for i in 0..vertices.len() {
        if lands(marks, i) {
            let v = vertices[i] as usize;
            points[2 * v] = path[2 * i];
            points[2 * v + 1] = path[2 * i + 1];
        }
    }
}

// Writes the contours' lengths.
fn put_lengths(flags: &[u32], lengths: &mut [u32])
    requires short { length flags.now ≤ most_points }
    requires room { length (flagged_runs flags.now) ≤ length lengths.old }
    ensures { lengths.new ≡ over (flagged_runs flags.now) lengths.old }
{
    let mut count: usize = 0;
    let mut length: u32 = 0;
    for v in 0..flags.len() {
        length += 1;
        if ends_contour(flags, v) {
            lengths[count] = length;
            count += 1;
            length = 0;
        }
    }
}

// Refusal 6, or the points and the lengths of the contours. `flags` has a word for each vertex.
pub fn write_contours(
    path: &[f64],
    marks: &[u32],
    vertices: &[u32],
    flags: &mut [u32],
    points: &mut [f64],
    lengths: &mut [u32],
) -> Result<Recovered, RecoveryRefusal>
    requires path { length path.now ≡ 2 * length vertices.now }
    requires marks { length marks.now ≡ 2 * length vertices.now }
    requires count { length flags.old ≡ rule.vertex_count marks.now vertices.now (length vertices.now) }
    requires most { length flags.old ≤ most_points }
    requires landed { LandedOnce marks.now vertices.now (length flags.old) }
    ensures { let m = length flags.old in
        let xs = rule.recovered_points path.now marks.now vertices.now (length vertices.now) m in
        let ns = rule.recovered_lengths marks.now m in
        let a = refused_by
        (no_room (length points.old) (length xs) ∷ no_room (length lengths.old) (length ns) ∷ [])
        (gives (record { points = m; contours = length ns })) in
        (rule.recovery_answer result ≡ a) × (points.new ≡ written a xs points.old) × (lengths.new ≡ written a ns lengths.old) }
{
    let count = flags.len();
    flag_cuts(marks, &mut *flags);
    let contours = count_contours(&*flags);
    if points.len() < 2 * count || lengths.len() < contours {
        return Err(RecoveryRefusal::NoRoom);
    }
    put_points(path, marks, vertices, points);
    put_lengths(&*flags, lengths);
    Ok(Recovered {
        points: count as u32,
        contours: contours as u32,
    })
}
