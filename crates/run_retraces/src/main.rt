// Replays the reference's recorded plates by the retrace call. Standard input holds them as words (crate `run_words`): the number of rows, then
// the rows. A row has twelve words (the number of coordinates, the number of lengths, the number of layers, width, height, 0 for Outside,
// 1 for Inside or 2 for Home, the lengths of the path, marks, u32 work and f64 work slices, x and y of the parked point), the coordinates,
// the lengths, the layers, the call's seven numbers and three lengths, and the path and the marks slices as the call leaves them. Prints how
// many rows there were and how many differed.
#![tactic(auto)]

use results::RetraceResult;
use run_rows::{RowOutcome, RowPlate, Start, parts_at, plate_at, replay, sizes_at, start_at};
use run_words::Place;
use std::alloc::{AllocError, Global};
use std::io;
use twillharbor::{twillharbor_retrace, twillharbor_retrace_home};

// A text of as many bytes, or more, is no list.
const ROOM: usize = 393216;

const MOST_ROWS: u64 = 23130;

// What the call answers: number, place, points, cuts, back-steps, jumps and touches.
const NUMBERS: usize = 7;

// How long the cuts, the back-steps, and the jumps and touches are.
const LENGTHS: usize = 3;

// The lengths of a row's slices.
#[derive(Clone, Copy)]
struct RetraceSizes {
    points: usize,
    lengths: usize,
    layers: usize,
    path: usize,
    marks: usize,
    work: usize,
    distances: usize,
}

impl RetraceSizes {
    // Whether one is above its limit.
    fn are_too_large(self) -> bool {
        40 < self.points
            || 12 < self.lengths
            || 16 < self.layers
            || 128 < self.path
            || 128 < self.marks
            || 16640 < self.work
            || 16 < self.distances
    }
}

// The slices that the call is lent.
#[derive(Drop)]
struct LentSlices {
    path: Vec<f64>,
    marks: Vec<u32>,
    work: Vec<u32>,
    distances: Vec<f64>,
}

impl LentSlices {
    // Every element of the path is 100, and every mark 0xa5a5a5a5.
    fn new(alloc: Global, s: RetraceSizes) -> Result<LentSlices, AllocError> {
        Ok(LentSlices {
            path: vec![in alloc; 100.0f64; s.path]?,
            marks: vec![in alloc; 2779096485u32; s.marks]?,
            work: vec![in alloc; 7u32; s.work]?,
            distances: vec![in alloc; 9.0f64; s.distances]?,
        })
    }

    fn retrace(&mut self, plate: &RowPlate) -> RetraceResult {
        let (points, lengths, layers) = plate.slices();
        let (path, marks) = (self.path.as_mut_slice(), self.marks.as_mut_slice());
        let (work, distances) = (self.work.as_mut_slice(), self.distances.as_mut_slice());
        match plate.start {
            Start::Centre {
                width,
                height,
                inside,
            } => twillharbor_retrace(
                points, lengths, layers, width, height, inside, path, marks, work, distances,
            ),
            Start::Home { x, y } => twillharbor_retrace_home(
                points, lengths, layers, x, y, path, marks, work, distances,
            ),
        }
    }
}

// The call's lengths stand here.
fn lengths_agree(at: Place<'_>, r: RetraceResult) -> bool {
    r.cut_length == at.read()
        && r.back_step_length == at.after(1).read()
        && r.jump_length == at.after(2).read()
}

// The call's numbers, lengths, path and marks stand here.
fn call_agrees(
    alloc: Global,
    at: Place<'_>,
    plate: &RowPlate,
    s: RetraceSizes,
) -> Result<bool, AllocError> {
    let mut lent = LentSlices::new(alloc, s)?;
    let r = lent.retrace(plate);
    let numbers = [
        r.number,
        r.place,
        r.points,
        r.cuts,
        r.back_steps,
        r.jumps,
        r.touches,
    ];
    let lengths = at.after(NUMBERS);
    let path = lengths.after(LENGTHS);
    let marks = path.after(s.path);
    Ok(
        at.unlike(&numbers) == 0
            && lengths_agree(lengths, r)
            && path.unlike(lent.path.as_slice()) == 0
            && marks.unlike(lent.marks.as_slice()) == 0,
    )
}

// A row whose coordinates start here. A length or a layer that is no u32 differs; one with a size above its limit is broken.
fn sized_row<'a>(
    alloc: Global,
    at: Place<'a>,
    start: Start,
    s: RetraceSizes,
) -> Result<Option<RowOutcome<'a>>, AllocError> {
    if s.are_too_large() {
        return Ok(None);
    }
    let parts = parts_at(at, s.points, s.lengths, s.layers);
    let answers = parts.end;
    let plate = plate_at(alloc, parts, start)?;
    let agrees = call_agrees(alloc, answers, &plate, s)?;
    Ok(Some(RowOutcome {
        agrees: plate.fits && agrees,
        end: answers
            .after(NUMBERS + LENGTHS)
            .after(s.path)
            .after(s.marks),
    }))
}

// The row that begins here.
fn row_at(alloc: Global, at: Place<'_>) -> Result<Option<RowOutcome<'_>>, AllocError> {
    let Some(sizes) = sizes_at::<10>(at) else {
        return Ok(None);
    };
    let [
        points,
        lengths,
        layers,
        width,
        height,
        strategy,
        path,
        marks,
        work,
        distances,
    ] = sizes;
    let Some(start) = start_at(at.after(10), width, height, strategy) else {
        return Ok(None);
    };
    let handed = RetraceSizes {
        points: points as usize,
        lengths: lengths as usize,
        layers: layers as usize,
        path: path as usize,
        marks: marks as usize,
        work: work as usize,
        distances: distances as usize,
    };
    sized_row(alloc, at.after(12), start, handed)
}

fn main(rt: HostRuntime) -> io::Result<()> {
    replay(&rt, ROOM, MOST_ROWS, row_at)
}
