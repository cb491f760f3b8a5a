// Replays the reference's recorded answers. Standard input holds them as words (crate `run_words`): the number of rows, then eight words a row
// (a.x, a.y, b.x, b.y, number, place, squared, plain; floats as bit patterns). Prints how many rows there were and how many differed.
#![tactic(auto)]

use run_rows::{RowOutcome, replay};
use run_words::Place;
use std::alloc::{AllocError, Global};
use std::io;
use twillharbor::twillharbor_distance;

// A text of as many bytes, or more, is no list.
const ROOM: usize = 262144;

const MOST_ROWS: u64 = 1900;

// The row that begins here.
fn row_at(_alloc: Global, at: Place<'_>) -> Result<Option<RowOutcome<'_>>, AllocError> {
    let mut points = [0.0f64; 4];
    at.read_into(&mut points);
    let [ax, ay, bx, by] = points;
    let r = twillharbor_distance(ax, ay, bx, by);
    let agrees = at.after(4).unlike(&[r.number, r.place]) == 0
        && at.after(6).unlike(&[r.squared, r.plain]) == 0;
    let end = at.after(8);
    Ok(Some(RowOutcome { agrees, end }))
}

fn main(rt: HostRuntime) -> io::Result<()> {
    replay(&rt, ROOM, MOST_ROWS, row_at)
}
