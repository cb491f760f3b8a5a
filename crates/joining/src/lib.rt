// Retrace joining: each contour is entered from the nearest point of the path so far, to which the path is walked back.
#![tactic(auto)]

ghost use Rattle.std.specs.Prelude.{◌≡◌, ◌+◌, ◌*◌, ◌≤◌, ◌<◌, length, IfOk};
ghost use Rattle.rules.specs.HandedOver.{Plate, plate_of, contours};
ghost use Rattle.rules.specs.Retrace.{retrace_from, retrace};
ghost use Rattle.start.specs.OrientedContours.{oriented_of};
ghost use Rattle.contours.specs.ContourOf.{contour_of};
ghost use Rattle.packed_contours.specs.PackedNumbers.{InLengths};
ghost use Rattle.path_points.specs.Wrote.{Wrote};
ghost use Rattle.path_points.specs.WriterState.{reached, SameWriter};
ghost use Rattle.joining.specs.SliceLengths.{LongEnough};
ghost use Rattle.joining.specs.SetUp.{SetUp};
ghost use Rattle.joining.specs.JoinState.{CanJoin, JoinedByRules, path_count};

use caches::{seed_caches, set_up, settle};
use contours::first_end;
use emission::{emit, enter};
use frame::Frame;
use grid::{Grid, polyline_bounding_box};
use path_points::{Full, PathWriter};
use plate::checked_input::{CheckedInput, PlatePoints};
use rules::Mark;
use start::{OrientedContour, choose_start_contour};
use waiting::{choose_waiting, stop_waiting};

// Contours enter the path one after the other, until nobody waits or the path is full.
fn join_waiting(
    frame: &Frame<'_>,
    layers: &[u32],
    writer: &mut PathWriter<'_>,
    distances: &mut [f64],
) -> Result<(), Full>
    requires grid { writer.old.grid.spatial ≡ frame.now.grid.spatial }
    requires joining { CanJoin frame.now.points.now layers.now frame.now.grid.spatial frame.now.layout writer.old.room writer.old.count
        writer.old.path.now writer.old.marks.now writer.old.work.now distances.old }
    ensures same { SameWriter writer.old writer.new }
    ensures fits { IfOk result (λ _. writer.new.count ≤ writer.old.room) }
    ensures joined { JoinedByRules frame.now.points.now layers.now frame.now.grid.spatial frame.now.layout writer.old.room writer.old.count
        writer.old.path.now writer.old.marks.now writer.old.work.now distances.old
        (reached writer.old.room writer.new.count result) writer.new.path.now writer.new.marks.now }
{
    let points = PlatePoints {
        coordinates: frame.points,
    };
    let mut turn: u32 = 0;
    // A rule of the project: the documents name `let .. else` with `break` here.
    loop {
        let Some(candidate) = choose_waiting(&*distances, layers, writer.work(), frame.layout)
        else {
            break;
        };
        turn += 1;
        enter(&points, &mut *writer, candidate.contour, candidate.entry)?;
        // `so_far` would lend the whole writer, and `work` is lent beside it. The path is lent as `&mut` first: of a slice of the writer that is
        // lent as `&` alone the proof knows no more than the length afterwards.
        let end = 2 * writer.count as usize;
        let points_so_far = &mut *writer.path;
        let work = &mut *writer.work;
        let path = &*points_so_far;
        settle(
            frame,
            &mut *distances,
            work,
            turn,
            candidate.contour,
            &path[..end],
        );
    }
    Ok(())
}

// Joins the contours of a plate behind the one that leads, s, on a path with no point. The other contours wait.
fn join_from(
    checked: &CheckedInput<'_>,
    frame: &Frame<'_>,
    writer: &mut PathWriter<'_>,
    distances: &mut [f64],
    s: OrientedContour,
) -> Result<(), Full>
    requires grid { writer.old.grid.spatial ≡ frame.now.grid.spatial }
    requires none { writer.old.count ≡ 0 }
    requires placed { InLengths checked.now.input.lengths.now (contour_of s.contour) }
    requires set_up { SetUp checked.now.input frame.now writer.old.room s.contour.number distances.old writer.old.work.now }
    ensures same { SameWriter writer.old writer.new }
    ensures fits { IfOk result (λ _. writer.new.count ≤ writer.old.room) }
    ensures wrote { let i = checked.now.input in
        (p : Plate) → p.points ≡ i.points.now → p.lengths ≡ i.lengths.now → p.layers ≡ i.layers.now →
        Wrote i.points.now (retrace_from p writer.old.grid.spatial (oriented_of s) (contours p)) writer.old.room
        (reached writer.old.room writer.new.count result) writer.old.path.now writer.new.path.now writer.old.marks.now writer.new.marks.now }
{
    let c = s.contour;
    let points = PlatePoints {
        coordinates: frame.points,
    };
    let landing = Mark::Start(first_end(c, s.reversed));
    emit(&points, &mut *writer, c, landing)?;
    // As in `join_waiting`.
    let end = 2 * writer.count as usize;
    let points_so_far = &mut *writer.path;
    let work = &mut *writer.work;
    let path = &*points_so_far;
    seed_caches(frame, &mut *distances, work, &path[..end]);
    join_waiting(frame, checked.input.layers, &mut *writer, &mut *distances)
}

// Joins the contours of a plate by retracing: how many points the path has, where there is room for them.
pub fn join_retrace(
    checked: &CheckedInput<'_>,
    room: u32,
    path: &mut [f64],
    marks: &mut [u32],
    work: &mut [u32],
    distances: &mut [f64],
) -> Result<u32, Full>
    requires { LongEnough room checked.now.input.lengths.now path.old marks.old work.old distances.old }
    ensures wrote { Wrote checked.now.input.points.now (retrace (plate_of checked.now.input)) room (path_count room result)
        path.old path.new marks.old marks.new }
    ensures fits { IfOk result (λ n. n ≤ room) }
{
    let Some(s) = choose_start_contour(checked) else {
        return Ok(0);
    };
    let input = checked.input;
    let grid = Grid::new(polyline_bounding_box(input.points));
    let frame = set_up(
        input.points,
        input.lengths,
        grid,
        room,
        &mut *distances,
        &mut *work,
    );
    stop_waiting(&mut *work, frame.layout, s.contour.number);
    let mut writer = PathWriter {
        grid,
        room,
        path,
        marks,
        work,
        count: 0,
    };
    join_from(checked, &frame, &mut writer, distances, s)?;
    Ok(writer.count)
}
