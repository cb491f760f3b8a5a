// The retrace call.
#![tactic(auto)]

ghost use Rattle.std.specs.Prelude.{◌≡◌, ◌+◌, ◌*◌, ◌≤◌, length};
ghost use Rattle.rules.specs.Limits.{fixed_work, most_contours, most_path_points, most_points};
ghost use Rattle.rules.specs.HandedOver.{AllF64, plate_of, answer_of};
ghost use Rattle.retrace.specs.RetracePromise.{RetracePromise};

use joining::join_retrace;
use measure::totals;
use plate::check;
use rules::{Input, MOST_PATH_POINTS, Refusal, Totals};

// The part of the u32 work slice that is needed whatever is handed over.
const FIXED_WORK: usize = 16384;

// How long the u32 work slice has to be for a path of at most `room` points. That the coordinates are f64 numbers is told here, where they are a slice
// parameter: of a field it is not known.
#[tactic(auto, unfolding(rules::specs::HandedOver::AllF64))]
fn work_needed(points: &[f64], lengths: &[u32], room: usize) -> usize
    requires points { length points.now ≤ 2 * most_points }
    requires lengths { length lengths.now ≤ most_contours }
    requires room { room ≤ most_path_points }
    ensures needed { result ≡ room + 2 * length points.now + 8 * length lengths.now + fixed_work }
    ensures floats { AllF64 points.now }
{
    // Two coordinates make a point: 4P is twice their number.
    room + 2 * points.len() + 8 * lengths.len() + FIXED_WORK
}

// The retrace call: path points with their marks, how many cuts, back-steps, jumps and touches there are, and how long they are. What it finishes divides
// as the path statement (statement/specs/PathStatement.antt) says, for every plate that has a contour, along it the layers never fall, and its cuts are as
// long as the contours that were handed over (statement/specs/Quotation.antt). In all that it has written, before refusal 6 too, no path point before a jump
// or touch is much nearer to its landing than the one that it leaves (statement/specs/HowNear.antt).
pub fn retrace_call(
    input: &Input<'_>,
    path: &mut [f64],
    marks: &mut [u32],
    work: &mut [u32],
    distances: &mut [f64],
) -> Result<Totals, Refusal>
    ensures { RetracePromise (plate_of input.now) path.old marks.old work.old distances.old (answer_of result) path.new marks.new work.new distances.new }
{
    let checked = check(input)?;
    let room = (path.len() / 2).min(marks.len() / 2).min(MOST_PATH_POINTS);
    if work.len() < work_needed(input.points, input.lengths, room) {
        return Err(Refusal::WorkShort(0));
    }
    if distances.len() < input.lengths.len() {
        return Err(Refusal::WorkShort(1));
    }
    let c = room as u32;
    let full = Refusal::Full(c);
    let joined = join_retrace(&checked, c, &mut *path, &mut *marks, &mut *work, distances);
    let n = joined.or(Err(full))?;
    let end = 2 * n as usize;
    Ok(totals(&path[..end], &marks[..end], n, work))
}
