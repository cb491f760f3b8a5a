// Replays recorded paths by the check call. Standard input holds them as words (crate `run_words`): the number of rows, then the rows. A row has
// five words (the number of coordinates, the number of lengths, the lengths of the path, marks and work slices), the coordinates, the
// lengths, the path and the marks, and then the call's number and its place. Prints how many rows there were and how many differed.
#![tactic(auto)]

use run_rows::{RowOutcome, replay, sizes_at, words_at};
use run_words::Place;
use std::alloc::{AllocError, Global};
use std::io;
use twillharbor::twillharbor_check_path;

// A text of as many bytes, or more, is no list.
const ROOM: usize = 262144;

const MOST_ROWS: u64 = 15420;

// What the call answers: number and place.
const NUMBERS: usize = 2;

// What each number of the work slice is when it is lent.
const LENT: u32 = 7;

// The number of a path that does not draw the plate, as C's struct has it.
const NOT_DRAWN: u32 = 12;

// The lengths of a row's slices.
#[derive(Clone, Copy)]
struct PathSizes {
    points: usize,
    lengths: usize,
    path: usize,
    marks: usize,
    work: usize,
}

// What is handed over.
#[derive(Drop)]
struct PathOnPlate {
    points: Vec<f64>,
    lengths: Vec<u32>,
    path: Vec<f64>,
    marks: Vec<u32>,
}

impl PathOnPlate {
    // The call's number and place stand here. Where it refuses, but for a path that does not draw the plate, the work slice stays as it was
    // lent.
    fn agrees(&self, alloc: Global, at: Place<'_>, work: usize) -> Result<bool, AllocError> {
        let mut lent = vec![in alloc; LENT; work]?;
        let r = twillharbor_check_path(
            self.points.as_slice(),
            self.lengths.as_slice(),
            self.path.as_slice(),
            self.marks.as_slice(),
            lent.as_mut_slice(),
        );
        let free = r.number == 0 || r.number == NOT_DRAWN;
        let kept = lent.iter().all(|&n| n == LENT);
        let same = u64::from(r.number) == at.read() && r.place == at.after(1).read();
        Ok(same && (free || kept))
    }
}

// A row whose coordinates start here. A length or a mark that is no u32 differs; one with a size above its limit is broken.
fn sized_row<'a>(
    alloc: Global,
    points: Place<'a>,
    s: PathSizes,
) -> Result<Option<RowOutcome<'a>>, AllocError> {
    if 64 < s.points || 16 < s.lengths || 128 < s.path || 128 < s.marks || 64 < s.work {
        return Ok(None);
    }
    let lengths = points.after(s.points);
    let path = lengths.after(s.lengths);
    let marks = path.after(s.path);
    let answer = marks.after(s.marks);
    let plate = PathOnPlate {
        points: words_at(alloc, points, s.points)?,
        lengths: words_at(alloc, lengths, s.lengths)?,
        path: words_at(alloc, path, s.path)?,
        marks: words_at(alloc, marks, s.marks)?,
    };
    let fit = lengths.unlike(plate.lengths.as_slice()) == 0
        && marks.unlike(plate.marks.as_slice()) == 0;
    let agrees = plate.agrees(alloc, answer, s.work)?;
    Ok(Some(RowOutcome {
        agrees: fit && agrees,
        end: answer.after(NUMBERS),
    }))
}

// The row that begins here.
fn row_at(alloc: Global, at: Place<'_>) -> Result<Option<RowOutcome<'_>>, AllocError> {
    let Some(sizes) = sizes_at::<5>(at) else {
        return Ok(None);
    };
    let [points, lengths, path, marks, work] = sizes;
    let handed = PathSizes {
        points: points as usize,
        lengths: lengths as usize,
        path: path as usize,
        marks: marks as usize,
        work: work as usize,
    };
    sized_row(alloc, at.after(5), handed)
}

fn main(rt: HostRuntime) -> io::Result<()> {
    replay(&rt, ROOM, MOST_ROWS, row_at)
}
