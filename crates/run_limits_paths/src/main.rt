// Boundary runs of the check call's refusals (document 02, ticket 7): for each case one line with its name, the lengths of the path, marks
// and work slices, and the call's number and place.
#![tactic(auto)]

ghost use Rattle.std.specs.Prelude.{◌≤◌};
ghost use Rattle.rules.specs.Limits.{most_points};

use rules::{BACK_STEP, CUT, JUMP, TOUCH};
use run_boundary::{
    ABOVE, HIGHEST_VERTEX, LINES, MOST_CONTOURS, MOST_POINTS, points_along, set_last, tell,
    to_and_fro,
};
use std::io;
use twillharbor::twillharbor_check_path;

// A plate, and a path with its marks.
#[derive(Clone, Copy)]
struct PlateSlices<'a> {
    points: &'a [f64],
    lengths: &'a [u32],
    path: &'a [f64],
    marks: &'a [u32],
}

impl<'a> PlateSlices<'a> {
    // The same with the first n numbers of the path and of its marks.
    fn first(self, n: usize) -> PlateSlices<'a> {
        PlateSlices {
            path: &self.path[..n.min(self.path.len())],
            marks: &self.marks[..n.min(self.marks.len())],
            ..self
        }
    }
}

// A plate and the path along all its points in their order.
fn drawn<'a>(points: &'a [f64], lengths: &'a [u32], marks: &'a [u32]) -> PlateSlices<'a> {
    PlateSlices {
        points,
        lengths,
        path: points,
        marks,
    }
}

// The check call with a work slice of this length.
fn check<R: Print + AllocGlobal>(
    rt: &R,
    name: &str,
    h: PlateSlices<'_>,
    work: usize,
) -> io::Result<()> {
    let mut lent = vec![in rt.alloc(); 7u32; work]?;
    let r = twillharbor_check_path(h.points, h.lengths, h.path, h.marks, lent.as_mut_slice());
    let lengths = [h.path.len(), h.marks.len(), work];
    tell(rt, name, &lengths, &[u64::from(r.number), r.place])?;
    let _ = println!(rt; "");
    Ok(())
}

// A plate of one contour of two points, (ax, 0) and (0, by), whose path is the contour.
fn line<R: Print + AllocGlobal>(rt: &R, name: &str, ax: f64, by: f64) -> io::Result<()> {
    let points = [ax, 0.0, 0.0, by];
    check(rt, name, drawn(&points, &[2], &[0, 0, CUT, 0]), 3)
}

// The line from (1000000,0) to (0,1000000), and a path that may have other bits at 0 and at 3: these are of path points 0 and 1.
fn line_path<R: Print + AllocGlobal>(rt: &R, name: &str, ax: f64, by: f64) -> io::Result<()> {
    let h = PlateSlices {
        points: &[1000000.0, 0.0, 0.0, 1000000.0],
        lengths: &[2],
        path: &[ax, 0.0, 0.0, by],
        marks: &[0, 0, CUT, 0],
    };
    check(rt, name, h, 3)
}

fn path_coordinates<R: Print + AllocGlobal>(rt: &R) -> io::Result<()> {
    line_path(rt, "path, 1000000 at 0 and 3", 1000000.0, 1000000.0)?;
    line_path(rt, "path, next above 1000000 at 0", ABOVE, 1000000.0)?;
    line_path(rt, "path, next above 1000000 at 3", 1000000.0, ABOVE)?;
    line_path(rt, "path, NaN at 0", f64::NAN, 1000000.0)?;
    line_path(rt, "path, NaN at 3", 1000000.0, f64::NAN)?;
    line_path(rt, "path, NaN at 0 and 3", f64::NAN, f64::NAN)
}

// Two contours of a point, (0,0) and (-0,0): they touch, and their bits differ.
fn zeros<R: Print + AllocGlobal>(rt: &R) -> io::Result<()> {
    let points = [0.0, 0.0, -0.0, 0.0];
    let touch = drawn(&points, &[1, 1], &[0, 0, TOUCH, 1]);
    check(rt, "0 and -0, a touch", touch, 4)?;
    let same = PlateSlices {
        path: &[0.0; 4],
        ..touch
    };
    check(rt, "0 and -0, a path of 0", same, 4)?;
    let jump = PlateSlices {
        marks: &[0, 0, JUMP, 1],
        ..touch
    };
    check(rt, "0 and -0, a jump", jump, 4)
}

// Parts of a path and of marks that are a point longer than the contour of two points, (0,0)(0,0): each case has the lengths of the path, the
// marks and the work slice.
fn miscounted<R: Print + AllocGlobal>(rt: &R) -> io::Result<()> {
    let path = [0.0f64; 6];
    let marks = [0, 0, CUT, 0, BACK_STEP, 0];
    for (places, kinds, work) in [
        (4usize, 4usize, 3usize),
        (4, 4, 2),
        (6, 6, 3),
        (2, 2, 3),
        (0, 0, 3),
        (3, 4, 3),
        (5, 4, 3),
        (4, 2, 3),
        (4, 6, 3),
        (4, 3, 3),
        (4, 5, 3),
        (3, 4, 2),
        (4, 2, 2),
        (4, 6, 2),
    ] {
        let h = PlateSlices {
            points: &[0.0; 4],
            lengths: &[2],
            path: &path[..places.min(6)],
            marks: &marks[..kinds.min(6)],
        };
        check(rt, "2 points", h, work)?;
    }
    Ok(())
}

// What is wrong with the plate is told before the path's and the marks' lengths and the work.
fn plate_first<R: Print + AllocGlobal>(rt: &R) -> io::Result<()> {
    let off = PlateSlices {
        points: &[0.0, 0.0, 0.0, ABOVE],
        lengths: &[2],
        path: &[0.0; 3],
        marks: &[0; 2],
    };
    check(rt, "next above 1000000 at 3", off, 0)?;
    let one = PlateSlices {
        lengths: &[1],
        ..off
    };
    check(rt, "length 1, 4 coordinates", one, 0)?;
    let wrapped = PlateSlices {
        lengths: &[u32::MAX, 1],
        ..off
    };
    check(rt, "lengths 4294967295 and 1", wrapped, 0)?;
    let many = PlateSlices {
        lengths: &[0; MOST_CONTOURS + 1],
        ..off
    };
    check(rt, "4097 contours", many, 0)
}

fn empty_contours<R: Print + AllocGlobal>(rt: &R) -> io::Result<()> {
    let none = drawn(&[], &[0; MOST_CONTOURS], &[]);
    check(rt, "4096 empty contours", none, MOST_CONTOURS)?;
    check(rt, "4096 empty contours", none, MOST_CONTOURS - 1)?;
    let point = PlateSlices {
        path: &[0.0; 2],
        marks: &[0; 2],
        ..none
    };
    check(rt, "4096 empty contours", point, MOST_CONTOURS)?;
    let more = drawn(&[], &[0; MOST_CONTOURS + 1], &[]);
    check(rt, "4097 empty contours", more, MOST_CONTOURS + 1)
}

// Marks of this kind over all of the slice, with the references r, r + 1, r + 2 and so on.
fn mark_on(marks: &mut [u32], kind: u32, r: u32) {
    for (mark, reference) in marks.chunks_exact_mut(2).zip(r..) {
        mark[0] = kind;
        mark[1] = reference;
    }
}

// The marks of n path points: a start on vertex 0, and then marks of this kind, with the references r, r + 1, r + 2 and so on.
fn marks_of<R: AllocGlobal>(rt: &R, n: usize, kind: u32, r: u32) -> io::Result<Vec<u32>>
    requires { n ≤ most_points }
{
    let mut marks = vec![in rt.alloc(); 0u32; 2 * n]?;
    if let Some(later) = marks.as_mut_slice().get_mut(2..) {
        mark_on(later, kind, r);
    }
    Ok(marks)
}

// A start and 4,095 jumps, over 4,096 contours of a point.
fn single_points<R: Print + AllocGlobal>(rt: &R) -> io::Result<()> {
    let points = points_along(rt, MOST_CONTOURS)?;
    let marks = marks_of(rt, MOST_CONTOURS, JUMP, 1)?;
    let h = drawn(points.as_slice(), &[1; MOST_CONTOURS], marks.as_slice());
    let all = 2 * MOST_CONTOURS;
    let name = "4096 contours of a point";
    check(rt, name, h, all)?;
    check(rt, name, h, all - 1)?;
    check(rt, name, h.first(all - 2), all)?;
    check(rt, name, h.first(0), all)
}

// The same path with another last mark, path point 4,095's.
fn last_mark<R: Print + AllocGlobal>(rt: &R, name: &str, kind: u32, r: u32) -> io::Result<()> {
    let points = points_along(rt, MOST_CONTOURS)?;
    let mut marks = marks_of(rt, MOST_CONTOURS, JUMP, 1)?;
    set_last(marks.as_mut_slice(), kind, r);
    let h = drawn(points.as_slice(), &[1; MOST_CONTOURS], marks.as_slice());
    let _ = print!(rt; "4096 contours of a point, ");
    check(rt, name, h, 2 * MOST_CONTOURS)
}

fn last_marks<R: Print + AllocGlobal>(rt: &R) -> io::Result<()> {
    let last = MOST_CONTOURS as u32 - 1;
    last_mark(rt, "last jump to 4095", JUMP, last)?;
    last_mark(rt, "last jump to 4094", JUMP, last - 1)?;
    last_mark(rt, "last jump to 4096", JUMP, last + 1)?;
    last_mark(rt, "last jump to 4294967295", JUMP, u32::MAX)?;
    last_mark(rt, "last touch", TOUCH, last)?;
    last_mark(rt, "last start", 0, last)?;
    last_mark(rt, "last kind 5", 5, last)
}

// The last jump goes to the first contour, which was entered.
fn entered_again<R: Print + AllocGlobal>(rt: &R) -> io::Result<()> {
    let points = points_along(rt, MOST_CONTOURS)?;
    let mut path = points_along(rt, MOST_CONTOURS)?;
    if let [.., x, _] = path.as_mut_slice() {
        *x = 0.0;
    }
    let mut marks = marks_of(rt, MOST_CONTOURS, JUMP, 1)?;
    set_last(marks.as_mut_slice(), JUMP, 0);
    let h = PlateSlices {
        path: path.as_slice(),
        ..drawn(points.as_slice(), &[1; MOST_CONTOURS], marks.as_slice())
    };
    let name = "4096 contours of a point, the first again";
    check(rt, name, h, 2 * MOST_CONTOURS)
}

// A start and 4,095 touches: all points are (0, 0).
fn touching_points<R: Print + AllocGlobal>(rt: &R) -> io::Result<()> {
    let points = [0.0f64; 2 * MOST_CONTOURS];
    let mut marks = marks_of(rt, MOST_CONTOURS, TOUCH, 1)?;
    let touches = drawn(&points, &[1; MOST_CONTOURS], marks.as_slice());
    check(rt, "4096 contours of (0,0)", touches, 2 * MOST_CONTOURS)?;
    set_last(marks.as_mut_slice(), JUMP, MOST_CONTOURS as u32 - 1);
    let jump = drawn(&points, &[1; MOST_CONTOURS], marks.as_slice());
    check(rt, "4096 contours of (0,0)", jump, 2 * MOST_CONTOURS)
}

// A start and 65,535 cuts, along a contour of 65,536 points.
fn one_contour<R: Print + AllocGlobal>(rt: &R) -> io::Result<()> {
    let points = points_along(rt, MOST_POINTS)?;
    let marks = marks_of(rt, MOST_POINTS, CUT, 0)?;
    let h = drawn(points.as_slice(), &[MOST_POINTS as u32], marks.as_slice());
    let name = "65536 points";
    check(rt, name, h, MOST_POINTS + 1)?;
    check(rt, name, h, MOST_POINTS)?;
    check(rt, name, h.first(2 * MOST_POINTS - 2), MOST_POINTS + 1)?;
    check(rt, name, h.first(0), MOST_POINTS + 1)
}

// The same path with another last mark, path point 65,535's.
fn last_cut<R: Print + AllocGlobal>(rt: &R, name: &str, kind: u32, r: u32) -> io::Result<()> {
    let points = points_along(rt, MOST_POINTS)?;
    let mut marks = marks_of(rt, MOST_POINTS, CUT, 0)?;
    set_last(marks.as_mut_slice(), kind, r);
    let h = drawn(points.as_slice(), &[MOST_POINTS as u32], marks.as_slice());
    check(rt, name, h, MOST_POINTS + 1)
}

fn last_cuts<R: Print + AllocGlobal>(rt: &R) -> io::Result<()> {
    last_cut(rt, "65536 points, last cut 65534", CUT, HIGHEST_VERTEX - 1)?;
    last_cut(rt, "65536 points, last cut 65535", CUT, HIGHEST_VERTEX)?;
    last_cut(rt, "65536 points, last cut 65533", CUT, HIGHEST_VERTEX - 2)?;
    last_cut(rt, "65536 points, a jump to the last", JUMP, HIGHEST_VERTEX)
}

// Contours of 32,768 points each: no cut leads from one to the other.
fn two_contours<R: Print + AllocGlobal>(rt: &R) -> io::Result<()> {
    let points = points_along(rt, MOST_POINTS)?;
    let cuts = marks_of(rt, MOST_POINTS, CUT, 0)?;
    let mut jump = marks_of(rt, MOST_POINTS, CUT, 0)?;
    if let Some(mark) = jump.as_mut_slice().get_mut(MOST_POINTS..MOST_POINTS + 2) {
        mark_on(mark, JUMP, 32768);
    }
    let h = drawn(points.as_slice(), &[32768, 32768], cuts.as_slice());
    let name = "2 contours of 32768 points";
    check(rt, name, h, MOST_POINTS + 2)?;
    let both = PlateSlices {
        marks: jump.as_slice(),
        ..h
    };
    check(rt, name, both, MOST_POINTS + 2)?;
    check(rt, name, both, MOST_POINTS + 1)
}

// A cut and 65,536 back-steps along it, to and fro: a path may have more points than a plate.
fn back_steps<R: Print + AllocGlobal>(rt: &R) -> io::Result<()> {
    let mut path = vec![in rt.alloc(); 0.0f64; 2 * MOST_POINTS + 4]?;
    to_and_fro(path.as_mut_slice(), [0.0, 0.0, 1.0, 0.0]);
    let mut marks = vec![in rt.alloc(); 0u32; 2 * MOST_POINTS + 4]?;
    if let Some((first, later)) = marks.as_mut_slice().split_at_mut_checked(4) {
        set_last(first, CUT, 0);
        mark_on(later, BACK_STEP, 0);
    }
    let h = PlateSlices {
        points: &[0.0, 0.0, 1.0, 0.0],
        lengths: &[2],
        path: path.as_slice(),
        marks: marks.as_slice(),
    };
    check(rt, "2 points, 65536 back-steps", h, 3)?;
    let mut altered = marks.clone()?;
    if let Some(mark) = altered
        .as_mut_slice()
        .get_mut(2 * MOST_POINTS..2 * MOST_POINTS + 2)
    {
        mark_on(mark, BACK_STEP, MOST_POINTS as u32);
    }
    let later = PlateSlices {
        marks: altered.as_slice(),
        ..h
    };
    let name = "2 points, 65536 back-steps, one along a later pair";
    check(rt, name, later, 3)
}

fn too_many_points<R: Print + AllocGlobal>(rt: &R) -> io::Result<()> {
    let points = vec![in rt.alloc(); 0.0f64; 2 * MOST_POINTS + 2]?;
    let h = PlateSlices {
        points: points.as_slice(),
        lengths: &[MOST_POINTS as u32 + 1],
        path: &[0.0; 2],
        marks: &[0; 2],
    };
    check(rt, "65537 points", h, MOST_POINTS + 2)
}

fn main(rt: HostRuntime) -> io::Result<()> {
    for (name, ax, by) in LINES {
        line(&rt, name, ax, by)?;
    }
    path_coordinates(&rt)?;
    zeros(&rt)?;
    miscounted(&rt)?;
    plate_first(&rt)?;
    empty_contours(&rt)?;
    single_points(&rt)?;
    last_marks(&rt)?;
    entered_again(&rt)?;
    touching_points(&rt)?;
    one_contour(&rt)?;
    last_cuts(&rt)?;
    two_contours(&rt)?;
    back_steps(&rt)?;
    too_many_points(&rt)
}
