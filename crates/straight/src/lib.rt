// The straight call: the points of the ordered contours, one contour after the other.
#![tactic(auto)]

ghost use Rattle.std.specs.Prelude.{◌≡◌, ◌+◌, ◌*◌, ◌/◌, ◌≤◌, ◌<◌, min, length, take, get_or};
ghost use Rattle.rules.specs.Limits.{most_points};
ghost use Rattle.rules.specs.HandedOver.{plate_of, over, answer_of, WorkKept};
ghost use Rattle.rules.specs.Marks.{coordinates};
ghost use Rattle.rules.specs.OrderAndStraight.{order, straight};
ghost use Rattle.rules.specs.Calls.{straight_call};
ghost use Rattle.plate_laws.specs.Lists.{All};
ghost use Rattle.straight.specs.Runs.{run, runs, Readable};

use optimize::optimize_path_order;
use packed_contours::Packed;
use plate::check;
use plate::checked_input::CheckedInput;
use rules::{Input, MOST_PATH_POINTS, Refusal, Vertex, point_at};

// The vertices of a contour in a sense.
#[derive(Clone, Copy)]
struct ContourRun {
    first: Vertex,
    size: u32,
    reversed: bool,
    ghost few: { first.0 + size ≤ most_points },
}

impl ContourRun {
    ghost use Rattle.straight.specs.Vertices.{vertices};

    // Vertex i, counted in the contour's sense.
    #[tactic(auto, using(crate::proofs::RunVertices::up_at, crate::proofs::RunVertices::down_at), unfolding(crate::specs::Runs::run, rules::specs::Tools::pick))]
    fn vertex(self, i: u32) -> Vertex
        requires { i < self.size }
        ensures { result.0 ≡ get_or (vertices self) i 0 }
    {
        let v = self.first.0;
        if self.reversed {
            return Vertex(v + (self.size - 1 - i));
        }
        Vertex(v + i)
    }

    // Writes its points to a part of the path, as many as have room there, and answers how many they are. By index: of what `chunks_exact_mut` lends a
    // proof knows how long it is afterwards, and not its numbers.
    fn write(self, points: &[f64], part: &mut [f64]) -> usize
        requires { 2 * (self.first.0 + self.size) ≤ length points.now }
        ensures count { result ≡ min self.size (length part.old / 2) }
        ensures written { part.new ≡ over (coordinates points.now (take result (vertices self))) part.old }
    {
        let count = (self.size as usize).min(part.len() / 2);
        for i in 0..count {
            let p = point_at(points, self.vertex(i as u32));
            part[2 * i] = p.x;
            part[2 * i + 1] = p.y;
        }
        count
    }
}

// Writes the points of packed contours to the path, as many as there is room for.
fn write_contours(points: &[f64], lengths: &[u32], words: &[u32], path: &mut [f64])
    requires { All (Readable points.now lengths.now) words.now }
    ensures { path.new ≡ over (take (2 * (length path.old / 2)) (coordinates points.now (runs lengths.now words.now))) path.old }
{
    let mut count: usize = 0;
    for &word in words {
        let packed = Packed::from(word);
        let run = ContourRun {
            first: packed.first,
            size: lengths[packed.number as usize],
            reversed: packed.reversed,
        };
        count += run.write(points, &mut path[2 * count..]);
    }
}

// Joins the contours by straight lines, in their order: the path's first points, as many as there is room for.
pub fn join_straight_line(checked: &CheckedInput<'_>, path: &mut [f64], work: &mut [u32])
    requires { length checked.now.input.lengths.now ≤ length work.old }
    ensures { let p = plate_of checked.now.input in
        path.new ≡ over (take (2 * (length path.old / 2)) (coordinates p.points (straight (order p)))) path.old }
{
    let count = optimize_path_order(checked, work);
    let input = checked.input;
    write_contours(input.points, input.lengths, &work[..count], path);
}

// The straight call. Every point of the plate is on the path once.
pub fn straight_call(input: &Input<'_>, path: &mut [f64], work: &mut [u32]) -> Result<u32, Refusal>
    ensures answer { answer_of result ≡ (straight_call (plate_of input.now) path.old (length work.old)).answer }
    ensures path { path.new ≡ (straight_call (plate_of input.now) path.old (length work.old)).path }
    ensures work { WorkKept (straight_call (plate_of input.now) path.old (length work.old)).answer work.old work.new }
{
    let checked = check(input)?;
    if work.len() < input.lengths.len() {
        return Err(Refusal::WorkShort(0));
    }
    let room = (path.len() / 2).min(MOST_PATH_POINTS);
    join_straight_line(&checked, &mut path[..2 * room], work);
    let count = input.points.len() / 2;
    if room < count {
        return Err(Refusal::Full(room as u32));
    }
    Ok(count as u32)
}
