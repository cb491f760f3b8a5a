// Replays the reference's recorded plates by the start, order and straight calls. Standard input holds them as words (crate `run_words`): the
// number of rows, then the rows. A row has eleven words (the number of coordinates, the number of lengths, the number of layers, width,
// height, 0 for Outside, 1 for Inside or 2 for Home, the lengths of the order, path and work slices, x and y of the parked point), the
// coordinates, the lengths, the layers, and then each call's numbers, followed by its slice as the call leaves it. Prints how many rows
// there were and how many differed.
#![tactic(auto)]

use run_rows::{RowOutcome, RowPlate, Start, parts_at, plate_at, replay, sizes_at, start_at};
use run_words::Place;
use std::alloc::{AllocError, Global};
use std::io;
use twillharbor::{
    twillharbor_order, twillharbor_order_home, twillharbor_start, twillharbor_start_home,
    twillharbor_straight, twillharbor_straight_home,
};

// A text of as many bytes, or more, is no list.
const ROOM: usize = 393216;

const MOST_ROWS: u64 = 23130;

// The lengths of a row's slices.
#[derive(Clone, Copy)]
struct PlateSizes {
    points: usize,
    lengths: usize,
    layers: usize,
    order: usize,
    path: usize,
    work: usize,
}

// A recorded plate, and the lengths of the slices that its calls are lent.
#[derive(Drop)]
struct RecordedPlate {
    plate: RowPlate,
    sizes: PlateSizes,
}

impl RecordedPlate {
    // The start call's numbers stand here.
    fn start_agrees(&self, at: Place<'_>) -> bool {
        let (points, lengths, layers) = self.plate.slices();
        let r = match self.plate.start {
            Start::Centre {
                width,
                height,
                inside,
            } => twillharbor_start(points, lengths, layers, width, height, inside),
            Start::Home { x, y } => twillharbor_start_home(points, lengths, layers, x, y),
        };
        at.unlike(&[r.number, r.place, r.contour, r.reversed]) == 0
    }

    // The order call's numbers and entries stand here. The entries lent are 0xa5a5a5a5.
    fn order_agrees(&self, alloc: Global, at: Place<'_>) -> Result<bool, AllocError> {
        let (points, lengths, layers) = self.plate.slices();
        let mut entries = vec![in alloc; 2779096485u32; self.sizes.order]?;
        let mut work = vec![in alloc; 7u32; self.sizes.work]?;
        let (order, lent) = (entries.as_mut_slice(), work.as_mut_slice());
        let r = match self.plate.start {
            Start::Centre {
                width,
                height,
                inside,
            } => twillharbor_order(points, lengths, layers, width, height, inside, order, lent),
            Start::Home { x, y } => {
                twillharbor_order_home(points, lengths, layers, x, y, order, lent)
            }
        };
        let same = at.unlike(&[r.number, r.place, r.entries]) == 0
            && at.after(3).unlike(entries.as_slice()) == 0;
        Ok(same)
    }

    // The straight call's numbers and path stand here. Every element of the path lent is 100.
    fn straight_agrees(&self, alloc: Global, at: Place<'_>) -> Result<bool, AllocError> {
        let (points, lengths, layers) = self.plate.slices();
        let mut path = vec![in alloc; 100.0f64; self.sizes.path]?;
        let mut work = vec![in alloc; 9u32; self.sizes.work]?;
        let (part, lent) = (path.as_mut_slice(), work.as_mut_slice());
        let r = match self.plate.start {
            Start::Centre {
                width,
                height,
                inside,
            } => twillharbor_straight(points, lengths, layers, width, height, inside, part, lent),
            Start::Home { x, y } => {
                twillharbor_straight_home(points, lengths, layers, x, y, part, lent)
            }
        };
        let same = at.unlike(&[r.number, r.place, r.points]) == 0
            && at.after(3).unlike(path.as_slice()) == 0;
        Ok(same)
    }
}

// A row whose coordinates start here. A length or a layer that is no u32 differs; one with a size above its limit is broken.
fn sized_row<'a>(
    alloc: Global,
    at: Place<'a>,
    start: Start,
    s: PlateSizes,
) -> Result<Option<RowOutcome<'a>>, AllocError> {
    if 40 < s.points
        || 12 < s.lengths
        || 16 < s.layers
        || 64 < s.order
        || 64 < s.path
        || 64 < s.work
    {
        return Ok(None);
    }
    let parts = parts_at(at, s.points, s.lengths, s.layers);
    let answers = parts.end;
    let plate = plate_at(alloc, parts, start)?;
    let fit = plate.fits;
    let recorded = RecordedPlate { plate, sizes: s };
    let orders = answers.after(4);
    let lines = orders.after(3).after(s.order);
    let started = recorded.start_agrees(answers);
    let order = recorded.order_agrees(alloc, orders)?;
    let straight = recorded.straight_agrees(alloc, lines)?;
    Ok(Some(RowOutcome {
        agrees: fit && started && order && straight,
        end: lines.after(3).after(s.path),
    }))
}

// The row that begins here.
fn row_at(alloc: Global, at: Place<'_>) -> Result<Option<RowOutcome<'_>>, AllocError> {
    let Some(sizes) = sizes_at::<9>(at) else {
        return Ok(None);
    };
    let [
        points,
        lengths,
        layers,
        width,
        height,
        strategy,
        order,
        path,
        work,
    ] = sizes;
    let Some(start) = start_at(at.after(9), width, height, strategy) else {
        return Ok(None);
    };
    let handed = PlateSizes {
        points: points as usize,
        lengths: lengths as usize,
        layers: layers as usize,
        order: order as usize,
        path: path as usize,
        work: work as usize,
    };
    sized_row(alloc, at.after(11), start, handed)
}

fn main(rt: HostRuntime) -> io::Result<()> {
    replay(&rt, ROOM, MOST_ROWS, row_at)
}
