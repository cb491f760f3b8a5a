// Replays recorded paths with marks by the contours call. Standard input holds them as words (crate `run_words`): the number of rows, then the
// rows. A row has five words (the lengths of the path, marks, points, lengths and work slices), the path and the marks, the call's number,
// place, points and contours, and the points and the lengths slices as the call leaves them. Prints how many rows there were and how many
// differed.
#![tactic(auto)]

use run_rows::{RowOutcome, replay, sizes_at, words_at};
use run_words::Place;
use std::alloc::{AllocError, Global};
use std::io;
use twillharbor::twillharbor_contours;

// A text of as many bytes, or more, is no list.
const ROOM: usize = 393216;

const MOST_ROWS: u64 = 23130;

// What the call answers: number, place, points and contours.
const NUMBERS: usize = 4;

// What each number of the work slice is when it is lent.
const LENT: u32 = 7;

// The numbers of the refusals after which the work slice is as it was lent.
const MISCOUNTED: u32 = 3;

const WORK_SHORT: u32 = 5;

// The lengths of a row's slices.
#[derive(Clone, Copy)]
struct ContourSizes {
    path: usize,
    marks: usize,
    points: usize,
    lengths: usize,
    work: usize,
}

// What is handed over.
#[derive(Drop)]
struct PathWithMarks {
    path: Vec<f64>,
    marks: Vec<u32>,
}

impl PathWithMarks {
    // The call's numbers, points and lengths stand here. Every coordinate lent is 100, and every length 0xa5a5a5a5. Where it refuses what
    // it was handed before it looks at the marks, the work slice stays as it was lent.
    fn agrees(&self, alloc: Global, at: Place<'_>, s: ContourSizes) -> Result<bool, AllocError> {
        let mut points = vec![in alloc; 100.0f64; s.points]?;
        let mut lengths = vec![in alloc; 2779096485u32; s.lengths]?;
        let mut work = vec![in alloc; LENT; s.work]?;
        let r = twillharbor_contours(
            self.path.as_slice(),
            self.marks.as_slice(),
            points.as_mut_slice(),
            lengths.as_mut_slice(),
            work.as_mut_slice(),
        );
        let free = r.number < MISCOUNTED || WORK_SHORT < r.number;
        let kept = work.iter().all(|&n| n == LENT);
        let refusal = u64::from(r.number) == at.read() && r.place == at.after(1).read();
        let counts = at.after(2).unlike(&[r.points, r.contours]) == 0;
        let drawn = at.after(NUMBERS);
        let same = drawn.unlike(points.as_slice()) == 0
            && drawn.after(s.points).unlike(lengths.as_slice()) == 0;
        Ok(refusal && counts && same && (free || kept))
    }
}

// A row whose path starts here. A mark that is no u32 differs; a row with a size above its limit is broken.
fn sized_row<'a>(
    alloc: Global,
    path: Place<'a>,
    s: ContourSizes,
) -> Result<Option<RowOutcome<'a>>, AllocError> {
    if 64 < s.path || 64 < s.marks || 64 < s.points || 32 < s.lengths || 160 < s.work {
        return Ok(None);
    }
    let marks = path.after(s.path);
    let answer = marks.after(s.marks);
    let marked = PathWithMarks {
        path: words_at(alloc, path, s.path)?,
        marks: words_at(alloc, marks, s.marks)?,
    };
    let fit = marks.unlike(marked.marks.as_slice()) == 0;
    let agrees = marked.agrees(alloc, answer, s)?;
    Ok(Some(RowOutcome {
        agrees: fit && agrees,
        end: answer.after(NUMBERS).after(s.points).after(s.lengths),
    }))
}

// The row that begins here.
fn row_at(alloc: Global, at: Place<'_>) -> Result<Option<RowOutcome<'_>>, AllocError> {
    let Some(sizes) = sizes_at::<5>(at) else {
        return Ok(None);
    };
    let [path, marks, points, lengths, work] = sizes;
    let handed = ContourSizes {
        path: path as usize,
        marks: marks as usize,
        points: points as usize,
        lengths: lengths as usize,
        work: work as usize,
    };
    sized_row(alloc, at.after(5), handed)
}

fn main(rt: HostRuntime) -> io::Result<()> {
    replay(&rt, ROOM, MOST_ROWS, row_at)
}
