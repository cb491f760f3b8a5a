// Boundary runs of the contours call (document 02, ticket 6): for each case one line with its name, the lengths of the path, marks, points,
// lengths and work slices, and the call's number, place, points and contours. Where there are contours it tells the first length and the
// last, and how many coordinates of the picture are those that the path has in the same place.
#![tactic(auto)]

ghost use Rattle.std.specs.Prelude.{◌+◌, ◌≤◌};
ghost use Rattle.rules.specs.Limits.{most_points};

use results::ContoursResult;
use rules::{BACK_STEP, CUT, JUMP, TOUCH};
use run_boundary::{
    ABOVE, HIGHEST_VERTEX, LINES, MOST_POINTS, along, points_along, set_last, tell, to_and_fro,
};
use std::io;
use twillharbor::twillharbor_contours;

// A path with its marks.
#[derive(Clone, Copy)]
struct PathSlices<'a> {
    path: &'a [f64],
    marks: &'a [u32],
}

// The lengths of the slices that the call is lent.
#[derive(Clone, Copy)]
struct Room {
    points: usize,
    lengths: usize,
    work: usize,
}

// Room for each contour, with work for 65,536 path points.
const ROOM: Room = Room {
    points: 2 * MOST_POINTS,
    lengths: MOST_POINTS,
    work: 4 * MOST_POINTS,
};

// The difference that makes references fall by one, as u32 numbers wrap.
const DOWN: u32 = u32::MAX;

// How many coordinates of the picture the path has in the same place.
fn in_place(points: &[f64], path: &[f64]) -> usize {
    let mut same: usize = 0;
    for (x, y) in points.iter().zip(path) {
        if *x == *y {
            same = same.saturating_add(1);
        }
    }
    same
}

// What the slices hold after a result.
fn tell_drawn<R: Print>(
    rt: &R,
    r: ContoursResult,
    points: &[f64],
    lengths: &[u32],
    path: &[f64],
) -> io::Result<()> {
    let contours = lengths.get(..r.contours as usize).unwrap_or(&[]);
    let drawn = points
        .get(..(r.points as usize).saturating_mul(2))
        .unwrap_or(&[]);
    if let [first, ..] = contours {
        if let [.., last] = contours {
            let same = in_place(drawn, path);
            let _ = print!(rt; ", lengths {first} to {last}, {same} coordinates in place");
        }
    }
    let _ = println!(rt; "");
    Ok(())
}

// The contours call with slices of these lengths.
fn recover<R: Print + AllocGlobal>(
    rt: &R,
    name: &str,
    h: PathSlices<'_>,
    room: Room,
) -> io::Result<()> {
    let mut points = vec![in rt.alloc(); 7.0f64; room.points]?;
    let mut lengths = vec![in rt.alloc(); 7u32; room.lengths]?;
    let mut work = vec![in rt.alloc(); 7u32; room.work]?;
    let r = twillharbor_contours(
        h.path,
        h.marks,
        points.as_mut_slice(),
        lengths.as_mut_slice(),
        work.as_mut_slice(),
    );
    let slices = [
        h.path.len(),
        h.marks.len(),
        room.points,
        room.lengths,
        room.work,
    ];
    let numbers = [
        u64::from(r.number),
        r.place,
        u64::from(r.points),
        u64::from(r.contours),
    ];
    tell(rt, name, &slices, &numbers)?;
    if r.number == 0 {
        tell_drawn(rt, r, points.as_slice(), lengths.as_slice(), h.path)
    } else {
        let _ = println!(rt; "");
        Ok(())
    }
}

// A path of two points, (ax, 0) and (0, by), along a cut.
fn line<R: Print + AllocGlobal>(rt: &R, name: &str, ax: f64, by: f64) -> io::Result<()> {
    let h = PathSlices {
        path: &[ax, 0.0, 0.0, by],
        marks: &[0, 0, CUT, 0],
    };
    let room = Room {
        points: 4,
        lengths: 1,
        work: 8,
    };
    recover(rt, name, h, room)
}

// Few path points, with slices that are long enough.
fn few<R: Print + AllocGlobal>(rt: &R, name: &str, path: &[f64], marks: &[u32]) -> io::Result<()> {
    let room = Room {
        points: 8,
        lengths: 4,
        work: 16,
    };
    recover(rt, name, PathSlices { path, marks }, room)
}

// 0 and -0 are equal as numbers, and their bits differ.
fn zeros<R: Print + AllocGlobal>(rt: &R) -> io::Result<()> {
    let zeros = [0.0, 0.0, -0.0, 0.0];
    few(rt, "0 and -0, a touch", &zeros, &[0, 0, TOUCH, 1])?;
    few(rt, "0 and -0, a jump", &zeros, &[0, 0, JUMP, 1])?;
    few(rt, "0 and -0, a cut", &zeros, &[0, 0, CUT, 0])?;
    let back = [0, 0, CUT, 0, BACK_STEP, 0];
    few(rt, "back to 0", &[0.0, 0.0, 1.0, 0.0, 0.0, 0.0], &back)?;
    few(rt, "back to -0", &[0.0, 0.0, 1.0, 0.0, -0.0, 0.0], &back)
}

// Parts of a path and of marks along the contour of two points, (0,0)(0,0): each case has the lengths of the slices.
fn slices<R: Print + AllocGlobal>(rt: &R) -> io::Result<()> {
    let path = [0.0f64; 6];
    let marks = [0, 0, CUT, 0, BACK_STEP, 0];
    for (places, kinds, points, lengths, work) in [
        (4usize, 4usize, 4usize, 1usize, 8usize),
        (4, 4, 5, 2, 9),
        (4, 4, 4, 1, 7),
        (4, 4, 3, 1, 8),
        (4, 4, 4, 0, 8),
        (4, 4, 0, 0, 8),
        (6, 6, 4, 1, 12),
        (6, 6, 4, 1, 11),
        (2, 2, 2, 1, 4),
        (0, 0, 0, 0, 0),
        (0, 0, 4, 1, 8),
        (0, 2, 4, 1, 8),
        (2, 0, 4, 1, 8),
        (3, 4, 4, 1, 8),
        (5, 4, 4, 1, 8),
        (3, 3, 4, 1, 8),
        (4, 2, 4, 1, 8),
        (4, 6, 4, 1, 8),
        (4, 3, 4, 1, 8),
        (4, 5, 4, 1, 8),
        (4, 2, 0, 0, 0),
    ] {
        let h = PathSlices {
            path: &path[..places.min(6)],
            marks: &marks[..kinds.min(6)],
        };
        let room = Room {
            points,
            lengths,
            work,
        };
        recover(rt, "2 points", h, room)?;
    }
    Ok(())
}

// Of two faults that which is tested first is told.
fn in_order<R: Print + AllocGlobal>(rt: &R) -> io::Result<()> {
    let none = Room {
        points: 0,
        lengths: 0,
        work: 8,
    };
    let short = Room { work: 7, ..none };
    let kinds = PathSlices {
        path: &[0.0, 0.0, 0.0, 1.0],
        marks: &[5, 0, 5, 0],
    };
    let off = PathSlices {
        path: &[0.0, 0.0, 0.0, ABOVE],
        ..kinds
    };
    recover(rt, "next above 1000000 at 3, kinds 5", off, short)?;
    recover(rt, "kinds 5", kinds, short)?;
    recover(rt, "kinds 5", kinds, none)?;
    let again = PathSlices {
        marks: &[0, 1, JUMP, 1],
        ..kinds
    };
    recover(rt, "vertex 1, a jump to 1", again, none)?;
    let missing = PathSlices {
        marks: &[0, 1, JUMP, 2],
        ..kinds
    };
    recover(rt, "vertex 1, a jump to 2", missing, none)?;
    let full = PathSlices {
        marks: &[0, 0, JUMP, 1],
        ..kinds
    };
    recover(rt, "vertex 0, a jump to 1", full, none)
}

// Starts and cuts at the limit of vertices, and where one more wraps to 0.
fn starts_and_cuts<R: Print + AllocGlobal>(rt: &R) -> io::Result<()> {
    let last = HIGHEST_VERTEX;
    let point = [0.0, 0.0];
    few(rt, "start on 65535", &point, &[0, last])?;
    few(rt, "start on 65536", &point, &[0, last + 1])?;
    few(rt, "start on 4294967295", &point, &[0, u32::MAX])?;
    let pair = [0.0, 0.0, 1.0, 0.0];
    let up = [0, last - 1, CUT, last - 1];
    few(rt, "start on 65534, cut 65534", &pair, &up)?;
    let down = [0, last, CUT, last - 1];
    few(rt, "start on 65535, cut 65534", &pair, &down)?;
    let beyond = [0, last, CUT, last];
    few(rt, "start on 65535, cut 65535", &pair, &beyond)?;
    let wrapped = [0, 0, CUT, u32::MAX];
    few(rt, "start on 0, cut 4294967295", &pair, &wrapped)
}

// Jumps and touches there.
fn jumps_and_touches<R: Print + AllocGlobal>(rt: &R) -> io::Result<()> {
    let last = HIGHEST_VERTEX;
    let pair = [0.0, 0.0, 1.0, 0.0];
    few(rt, "start on 0, jump to 65535", &pair, &[0, 0, JUMP, last])?;
    let beyond = [0, 0, JUMP, last + 1];
    few(rt, "start on 0, jump to 65536", &pair, &beyond)?;
    let wrapped = [0, 0, JUMP, u32::MAX];
    few(rt, "start on 0, jump to 4294967295", &pair, &wrapped)?;
    let same = [0.0, 0.0, 0.0, 0.0];
    few(
        rt,
        "start on 0, touch of 65535",
        &same,
        &[0, 0, TOUCH, last],
    )?;
    let beyond = [0, 0, TOUCH, last + 1];
    few(rt, "start on 0, touch of 65536", &same, &beyond)
}

// A back-step over the last number there is, one over its own pair, and the last number as a kind.
fn steps_and_kinds<R: Print + AllocGlobal>(rt: &R) -> io::Result<()> {
    let back = [0.0, 0.0, 1.0, 0.0, 0.0, 0.0];
    let wrapped = [0, 0, CUT, 0, BACK_STEP, u32::MAX];
    few(rt, "back to path point 4294967295", &back, &wrapped)?;
    let own = [0, 0, CUT, 0, BACK_STEP, 1];
    few(rt, "back to path point 1", &back, &own)?;
    let pair = [0.0, 0.0, 1.0, 0.0];
    few(rt, "kind 4294967295", &pair, &[0, 0, u32::MAX, 1])
}

// Marks of this kind over all of the slice, with the references r, r + step, r + 2 step and so on.
fn mark_on(marks: &mut [u32], kind: u32, r: u32, step: u32) {
    let mut reference = r;
    for mark in marks.chunks_exact_mut(2) {
        mark[0] = kind;
        mark[1] = reference;
        reference = reference.wrapping_add(step);
    }
}

// The marks of n path points: a start on vertex r, and then marks of this kind, with the references from, from + step and so on.
fn marks_of<R: AllocGlobal>(
    rt: &R,
    n: usize,
    r: u32,
    kind: u32,
    from: u32,
    step: u32,
) -> io::Result<Vec<u32>>
    requires { n ≤ most_points + 2 }
{
    let mut marks = vec![in rt.alloc(); 0u32; 2 * n]?;
    if let Some((first, later)) = marks.as_mut_slice().split_at_mut_checked(2) {
        mark_on(first, 0, r, 0);
        mark_on(later, kind, from, step);
    }
    Ok(marks)
}

// A path along a line, over these marks.
fn along_in_room<R: Print + AllocGlobal>(
    rt: &R,
    name: &str,
    marks: &[u32],
    room: Room,
) -> io::Result<()> {
    let mut path = vec![in rt.alloc(); 0.0f64; marks.len()]?;
    along(path.as_mut_slice());
    let h = PathSlices {
        path: path.as_slice(),
        marks,
    };
    recover(rt, name, h, room)
}

// The same with room for each vertex, and work just enough.
fn along_marks<R: Print + AllocGlobal>(rt: &R, name: &str, marks: &[u32]) -> io::Result<()> {
    let room = Room {
        work: marks.len().saturating_mul(2),
        ..ROOM
    };
    along_in_room(rt, name, marks, room)
}

// A start and 65,535 cuts, along a contour of 65,536 points: slices as long as they have to be, and each one short.
fn one_contour<R: Print + AllocGlobal>(rt: &R) -> io::Result<()> {
    let marks = marks_of(rt, MOST_POINTS, 0, CUT, 0, 1)?;
    let exact = Room { lengths: 1, ..ROOM };
    let work = Room {
        work: exact.work - 1,
        ..exact
    };
    let points = Room {
        points: exact.points - 1,
        ..exact
    };
    let lengths = Room {
        lengths: 0,
        ..exact
    };
    for room in [exact, work, points, lengths] {
        along_in_room(rt, "one contour of 65536", marks.as_slice(), room)?;
    }
    let last = HIGHEST_VERTEX;
    let down = marks_of(rt, MOST_POINTS, last, CUT, last - 1, DOWN)?;
    let name = "one contour of 65536, from its end";
    along_in_room(rt, name, down.as_slice(), exact)
}

// The same path with another last mark, path point 65,535's.
fn last_mark<R: Print + AllocGlobal>(rt: &R, name: &str, kind: u32, r: u32) -> io::Result<()> {
    let mut marks = marks_of(rt, MOST_POINTS, 0, CUT, 0, 1)?;
    set_last(marks.as_mut_slice(), kind, r);
    let two = Room { lengths: 2, ..ROOM };
    let _ = print!(rt; "one contour of 65536, ");
    along_in_room(rt, name, marks.as_slice(), two)
}

fn last_marks<R: Print + AllocGlobal>(rt: &R) -> io::Result<()> {
    let last = HIGHEST_VERTEX;
    last_mark(rt, "last a jump to 65535", JUMP, last)?;
    last_mark(rt, "last a jump to 65536", JUMP, last + 1)?;
    last_mark(rt, "last a jump to 65534", JUMP, last - 1)?;
    last_mark(rt, "last a touch of 65535", TOUCH, last)?;
    last_mark(rt, "last cut 65535", CUT, last)?;
    last_mark(rt, "last cut 65533", CUT, last - 2)?;
    last_mark(rt, "last back to 65533", BACK_STEP, MOST_POINTS as u32 - 3)?;
    last_mark(rt, "last a start", 0, last)?;
    last_mark(rt, "last kind 5", 5, last)
}

// 65,536 contours of a point, and a path point more.
fn single_points<R: Print + AllocGlobal>(rt: &R) -> io::Result<()> {
    let jumps = marks_of(rt, MOST_POINTS, 0, JUMP, 1, 1)?;
    along_marks(rt, "65536 contours", jumps.as_slice())?;
    let short = Room {
        lengths: MOST_POINTS - 1,
        ..ROOM
    };
    along_in_room(rt, "65536 contours", jumps.as_slice(), short)?;
    let more = marks_of(rt, MOST_POINTS + 1, 0, JUMP, 1, 1)?;
    along_marks(rt, "65537 contours", more.as_slice())?;
    let cuts = marks_of(rt, MOST_POINTS + 1, 0, CUT, 0, 1)?;
    along_marks(rt, "one contour of 65537", cuts.as_slice())?;
    let last = HIGHEST_VERTEX;
    let down = marks_of(rt, MOST_POINTS, last, JUMP, last - 1, DOWN)?;
    let name = "65536 contours, the last first";
    along_marks(rt, name, down.as_slice())?;
    let pairs = marks_of(rt, MOST_POINTS / 2, 0, JUMP, 2, 2)?;
    let name = "32768 contours, every second missing";
    along_marks(rt, name, pairs.as_slice())
}

// All points are (0, 0).
fn touching_points<R: Print + AllocGlobal>(rt: &R) -> io::Result<()> {
    let path = vec![in rt.alloc(); 0.0f64; 2 * MOST_POINTS]?;
    let mut marks = marks_of(rt, MOST_POINTS, 0, TOUCH, 1, 1)?;
    let touches = PathSlices {
        path: path.as_slice(),
        marks: marks.as_slice(),
    };
    recover(rt, "65536 contours of (0,0)", touches, ROOM)?;
    set_last(marks.as_mut_slice(), JUMP, HIGHEST_VERTEX);
    let jump = PathSlices {
        path: path.as_slice(),
        marks: marks.as_slice(),
    };
    recover(rt, "65536 contours of (0,0), last a jump", jump, ROOM)
}

// All landings are on vertices 32,768 and above, which are as many as the path points.
fn far<R: Print + AllocGlobal>(rt: &R) -> io::Result<()> {
    let half = MOST_POINTS / 2;
    let first = half as u32;
    let last = HIGHEST_VERTEX;
    let up = marks_of(rt, half, first, JUMP, first + 1, 1)?;
    along_marks(rt, "landings from 32768 to 65535", up.as_slice())?;
    let down = marks_of(rt, half, last, JUMP, last - 1, DOWN)?;
    along_marks(rt, "landings from 65535 to 32768", down.as_slice())?;
    let cuts = marks_of(rt, half, first, CUT, first, 1)?;
    along_marks(rt, "cuts from 32768 to 65535", cuts.as_slice())?;
    let beyond = marks_of(rt, half + 1, first, JUMP, first + 1, 1)?;
    along_marks(rt, "landings from 32768 to 65536", beyond.as_slice())?;
    let mut again = marks_of(rt, half, first, JUMP, first + 1, 1)?;
    set_last(again.as_mut_slice(), JUMP, first);
    let name = "landings from 32768, the first again";
    along_marks(rt, name, again.as_slice())
}

// Landings on vertices that leave the same remainder, when divided by the number of path points.
fn alike<R: Print + AllocGlobal>(rt: &R) -> io::Result<()> {
    let mut marks = marks_of(rt, 256, 256, JUMP, 512, 256)?;
    for (name, vertex) in [("0", 0u32), ("1", 1), ("256", 256), ("65280", 65280)] {
        set_last(marks.as_mut_slice(), JUMP, vertex);
        let _ = print!(rt; "landings on 256, 512 and so on to 65280, then on ");
        along_marks(rt, name, marks.as_slice())?;
    }
    let two = marks_of(rt, 2, HIGHEST_VERTEX - 1, JUMP, 2, 1)?;
    along_marks(rt, "landings on 65534 and 2", two.as_slice())
}

// A cut and 65,536 back-steps along it, to and fro: a path may have more points than vertices.
fn back_steps<R: Print + AllocGlobal>(rt: &R) -> io::Result<()> {
    let points = MOST_POINTS + 2;
    let mut path = vec![in rt.alloc(); 0.0f64; 2 * points]?;
    to_and_fro(path.as_mut_slice(), [0.0, 0.0, 1.0, 0.0]);
    let mut marks = marks_of(rt, points, 0, BACK_STEP, u32::MAX, 1)?;
    if let Some(mark) = marks.as_mut_slice().get_mut(2..4) {
        mark_on(mark, CUT, 0, 0);
    }
    let room = Room {
        points: 4,
        lengths: 1,
        work: 4 * points,
    };
    let back = PathSlices {
        path: path.as_slice(),
        marks: marks.as_slice(),
    };
    recover(rt, "65536 back-steps", back, room)?;
    let short = Room {
        work: room.work - 1,
        ..room
    };
    recover(rt, "65536 back-steps", back, short)?;
    back_steps_altered(rt, path.as_slice(), marks, room)
}

// The last back-step is along a later pair, is to a point with other bits, or is another mark.
fn back_steps_altered<R: Print + AllocGlobal>(
    rt: &R,
    path: &[f64],
    marks: Vec<u32>,
    room: Room,
) -> io::Result<()> {
    let mut altered = marks;
    for (kind, reference) in [
        (BACK_STEP, MOST_POINTS as u32),
        (BACK_STEP, MOST_POINTS as u32 - 2),
        (BACK_STEP, 1),
        (CUT, 0),
        (JUMP, 2),
        (JUMP, 1),
    ] {
        set_last(altered.as_mut_slice(), kind, reference);
        let h = PathSlices {
            path,
            marks: altered.as_slice(),
        };
        let more = Room {
            points: 6,
            lengths: 2,
            ..room
        };
        let _ = print!(rt; "65535 back-steps, then kind {kind} with reference {reference}");
        recover(rt, "", h, more)?;
    }
    Ok(())
}

fn main(rt: HostRuntime) -> io::Result<()> {
    for (name, ax, by) in LINES {
        line(&rt, name, ax, by)?;
    }
    zeros(&rt)?;
    slices(&rt)?;
    in_order(&rt)?;
    starts_and_cuts(&rt)?;
    jumps_and_touches(&rt)?;
    steps_and_kinds(&rt)?;
    one_contour(&rt)?;
    last_marks(&rt)?;
    single_points(&rt)?;
    touching_points(&rt)?;
    far(&rt)?;
    alike(&rt)?;
    back_steps(&rt)
}
