// Boundary runs of the table of refusals (document 01, with document 02's bad layer and parked point): for each case one line with its name, its number and
// its place, and the entries or points where the call counts them. A line of the retrace call has the lengths of the path, marks, u32 work
// and f64 work slices, and number, place, points, cuts, back-steps, jumps and touches, and how long the cuts, the back-steps, and the jumps and
// touches are.
#![tactic(auto)]

use results::RetraceResult;
use run_boundary::{
    ABOVE, BELOW, FIXED_WORK, MOST_CONTOURS, MOST_POINTS, points_along, tell, to_and_fro,
};
use std::fmt::Display;
use std::io;
use twillharbor::{
    twillharbor_order, twillharbor_order_home, twillharbor_retrace, twillharbor_retrace_home,
    twillharbor_start, twillharbor_start_home, twillharbor_straight, twillharbor_straight_home,
};

// Contours with their layers.
#[derive(Clone, Copy)]
struct LayeredPlate<'a> {
    points: &'a [f64],
    lengths: &'a [u32],
    layers: &'a [u32],
}

// Contours of no point.
const EMPTY: LayeredPlate<'static> = LayeredPlate {
    points: &[],
    lengths: &[0; MOST_CONTOURS],
    layers: &[0; MOST_CONTOURS],
};

const TOO_MANY_EMPTY: LayeredPlate<'static> = LayeredPlate {
    points: &[],
    lengths: &[0; MOST_CONTOURS + 1],
    layers: &[0; MOST_CONTOURS + 1],
};

// The points of one contour, which is of layer 0.
fn one_contour<'a>(points: &'a [f64], length: &'a [u32; 1]) -> LayeredPlate<'a> {
    LayeredPlate {
        points,
        lengths: length,
        layers: &[0],
    }
}

// The lengths of the slices that the retrace call is lent.
#[derive(Clone, Copy)]
struct LentLengths {
    path: usize,
    marks: usize,
    work: usize,
    distances: usize,
}

// A line with the call's numbers.
fn show<R: Print, N: Display>(rt: &R, name: &str, numbers: &[N]) -> io::Result<()> {
    tell(rt, name, &[], numbers)?;
    let _ = println!(rt; "");
    Ok(())
}

// The start call, Outside, on a plate of 10 by 10. The order and the straight call below have the same plate.
fn start<R: Print>(rt: &R, name: &str, p: LayeredPlate<'_>) -> io::Result<()> {
    let r = twillharbor_start(p.points, p.lengths, p.layers, 10, 10, false);
    show(rt, name, &[r.number, r.place])
}

fn order<R: Print>(
    rt: &R,
    name: &str,
    p: LayeredPlate<'_>,
    entries: &mut [u32],
    work: &mut [u32],
) -> io::Result<()> {
    let r = twillharbor_order(p.points, p.lengths, p.layers, 10, 10, false, entries, work);
    show(rt, name, &[r.number, r.place, r.entries])
}

fn straight<R: Print>(
    rt: &R,
    name: &str,
    p: LayeredPlate<'_>,
    path: &mut [f64],
    work: &mut [u32],
) -> io::Result<()> {
    let r = twillharbor_straight(p.points, p.lengths, p.layers, 10, 10, false, path, work);
    show(rt, name, &[r.number, r.place, r.points])
}

fn numbers_of(r: RetraceResult) -> [u64; 10] {
    [
        u64::from(r.number),
        u64::from(r.place),
        u64::from(r.points),
        u64::from(r.cuts),
        u64::from(r.back_steps),
        u64::from(r.jumps),
        u64::from(r.touches),
        r.cut_length,
        r.back_step_length,
        r.jump_length,
    ]
}

// The retrace call, Inside, on a plate of no width and height, with slices of these lengths.
fn retrace<R: Print + AllocGlobal>(
    rt: &R,
    name: &str,
    p: LayeredPlate<'_>,
    lent: LentLengths,
) -> io::Result<()> {
    let mut path = vec![in rt.alloc(); 0.0f64; lent.path]?;
    let mut marks = vec![in rt.alloc(); 0u32; lent.marks]?;
    let mut work = vec![in rt.alloc(); 0u32; lent.work]?;
    let mut distances = vec![in rt.alloc(); 0.0f64; lent.distances]?;
    let r = twillharbor_retrace(
        p.points,
        p.lengths,
        p.layers,
        0,
        0,
        true,
        path.as_mut_slice(),
        marks.as_mut_slice(),
        work.as_mut_slice(),
        distances.as_mut_slice(),
    );
    let lengths = [lent.path, lent.marks, lent.work, lent.distances];
    let _ = print!(rt; "retrace, ");
    tell(rt, name, &lengths, &numbers_of(r))?;
    let _ = println!(rt; "");
    Ok(())
}

// The start call on one contour of two points, (ax, 0) and (0, by).
fn line_start<R: Print>(rt: &R, name: &str, ax: f64, by: f64) -> io::Result<()> {
    start(rt, name, one_contour(&[ax, 0.0, 0.0, by], &[2]))
}

fn coordinates<R: Print>(rt: &R) -> io::Result<()> {
    line_start(rt, "start, 1000000 at 0", 1000000.0, 0.0)?;
    line_start(rt, "start, 1000000 at 3", 0.0, 1000000.0)?;
    line_start(rt, "start, -1000000 at 0", -1000000.0, 0.0)?;
    line_start(rt, "start, -1000000 at 3", 0.0, -1000000.0)?;
    line_start(rt, "start, next above 1000000 at 0", ABOVE, 0.0)?;
    line_start(rt, "start, next above 1000000 at 3", 0.0, ABOVE)?;
    line_start(rt, "start, next below -1000000 at 0", BELOW, 0.0)?;
    line_start(rt, "start, next below -1000000 at 3", 0.0, BELOW)
}

fn empty_contours<R: Print>(rt: &R) -> io::Result<()> {
    start(rt, "start, 4096 empty contours", EMPTY)?;
    let name = "order, 4096 empty contours, work 4096";
    order(rt, name, EMPTY, &mut [0; 2], &mut [0; MOST_CONTOURS])?;
    let name = "order, 4096 empty contours, work 4095";
    order(rt, name, EMPTY, &mut [0; 2], &mut [0; MOST_CONTOURS - 1])?;
    start(rt, "start, 4097 empty contours", TOO_MANY_EMPTY)?;
    let name = "order, 4097 empty contours, work 4097";
    let mut work = [0u32; MOST_CONTOURS + 1];
    order(rt, name, TOO_MANY_EMPTY, &mut [0; 2], &mut work)
}

fn many_points<R: Print + AllocGlobal>(rt: &R) -> io::Result<()> {
    let points = vec![in rt.alloc(); 0.0f64; 2 * MOST_POINTS]?;
    let mut path = vec![in rt.alloc(); 0.0f64; 2 * MOST_POINTS]?;
    let p = one_contour(points.as_slice(), &[MOST_POINTS as u32]);
    start(rt, "start, 65536 points", p)?;
    let name = "straight, 65536 points, path 131072";
    straight(rt, name, p, path.as_mut_slice(), &mut [0; 1])?;
    let mut shorter = vec![in rt.alloc(); 0.0f64; 2 * MOST_POINTS - 2]?;
    let name = "straight, 65536 points, path 131070";
    straight(rt, name, p, shorter.as_mut_slice(), &mut [0; 1])?;
    let more = vec![in rt.alloc(); 0.0f64; 2 * MOST_POINTS + 2]?;
    let p = one_contour(more.as_slice(), &[MOST_POINTS as u32 + 1]);
    start(rt, "start, 65537 points", p)
}

fn sums<R: Print>(rt: &R) -> io::Result<()> {
    let twice = LayeredPlate {
        points: &[],
        lengths: &[4294967295, 4294967295],
        layers: &[0, 0],
    };
    start(rt, "start, lengths 4294967295 and 4294967295", twice)?;
    let wrapped = LayeredPlate {
        points: &[],
        lengths: &[4294967295, 1],
        layers: &[0, 0],
    };
    start(rt, "start, lengths 4294967295 and 1, no point", wrapped)
}

fn short_slices<R: Print>(rt: &R) -> io::Result<()> {
    let three = one_contour(&[0.0; 3], &[1]);
    start(rt, "start, length 1, 3 coordinates", three)?;
    let one = one_contour(&[0.0; 2], &[1]);
    let name = "order, 1 contour, order slice 1";
    order(rt, name, one, &mut [0; 1], &mut [0; 1])?;
    let two = LayeredPlate {
        points: &[0.0; 4],
        lengths: &[1, 1],
        layers: &[0, 0],
    };
    let name = "order, 2 contours, work 1";
    order(rt, name, two, &mut [0; 4], &mut [0; 1])?;
    let name = "straight, 2 contours, work 1";
    straight(rt, name, two, &mut [0.0; 4], &mut [0; 1])
}

// The retrace call on one contour of two points, (ax, 0) and (0, by).
fn line_retrace<R: Print + AllocGlobal>(rt: &R, name: &str, ax: f64, by: f64) -> io::Result<()> {
    let lent = LentLengths {
        path: 4,
        marks: 4,
        work: 10 + 8 + FIXED_WORK,
        distances: 1,
    };
    retrace(rt, name, one_contour(&[ax, 0.0, 0.0, by], &[2]), lent)
}

fn coordinates_retrace<R: Print + AllocGlobal>(rt: &R) -> io::Result<()> {
    line_retrace(rt, "-1000000 at 0", -1000000.0, 0.0)?;
    line_retrace(rt, "1000000 at 3", 0.0, 1000000.0)?;
    line_retrace(rt, "next below -1000000 at 0", BELOW, 0.0)?;
    line_retrace(rt, "next above 1000000 at 3", 0.0, ABOVE)
}

// The retrace call with slices of each of these lengths: of the path, the marks, the u32 and the f64 work.
fn retrace_each<R: Print + AllocGlobal>(
    rt: &R,
    name: &str,
    p: LayeredPlate<'_>,
    cases: &[(usize, usize, usize, usize)],
) -> io::Result<()> {
    for &(path, marks, work, distances) in cases {
        let lent = LentLengths {
            path,
            marks,
            work,
            distances,
        };
        retrace(rt, name, p, lent)?;
    }
    Ok(())
}

// C = 0: u32 work of 8 x 4,096 + 16,384 is enough.
fn empty_contours_retrace<R: Print + AllocGlobal>(rt: &R) -> io::Result<()> {
    let work = 8 * MOST_CONTOURS + FIXED_WORK;
    let cases = [
        (0, 0, work, MOST_CONTOURS),
        (0, 0, work - 1, MOST_CONTOURS),
        (0, 0, work, MOST_CONTOURS - 1),
        (0, 0, work - 1, MOST_CONTOURS - 1),
    ];
    retrace_each(rt, "4096 empty contours", EMPTY, &cases)
}

// The result has 4,096 points: C = 4,096 is enough, with u32 work of 4,096 + 4 x 4,096 + 8 x 4,096 + 16,384.
fn single_points_retrace<R: Print + AllocGlobal>(rt: &R) -> io::Result<()> {
    let points = points_along(rt, MOST_CONTOURS)?;
    let p = LayeredPlate {
        points: points.as_slice(),
        lengths: &[1; MOST_CONTOURS],
        layers: &[0; MOST_CONTOURS],
    };
    let room = 2 * MOST_CONTOURS;
    let work = 13 * MOST_CONTOURS + FIXED_WORK;
    let cases = [
        (room, room, work, MOST_CONTOURS),
        (room, room, work - 1, MOST_CONTOURS),
        (room, room, work, MOST_CONTOURS - 1),
        (room, room, work - 1, MOST_CONTOURS - 1),
        (room - 1, room, work - 1, MOST_CONTOURS),
        (room, room - 1, work - 1, MOST_CONTOURS),
        (room - 1, room, work - 2, MOST_CONTOURS),
    ];
    retrace_each(rt, "4096 contours of a point", p, &cases)
}

fn too_many_contours_retrace<R: Print + AllocGlobal>(rt: &R) -> io::Result<()> {
    let work = 8 * (MOST_CONTOURS + 1) + FIXED_WORK;
    let cases = [(0, 0, work, MOST_CONTOURS + 1)];
    retrace_each(rt, "4097 empty contours", TOO_MANY_EMPTY, &cases)
}

// What is enough for 65,536 points of one contour: C = 65,536, with u32 work of 65,536 + 4 x 65,536 + 8 + 16,384.
const ROOM: usize = 2 * MOST_POINTS;

const WORK: usize = 5 * MOST_POINTS + 8 + FIXED_WORK;

fn most_points_retrace<R: Print + AllocGlobal>(rt: &R) -> io::Result<()> {
    let points = points_along(rt, MOST_POINTS)?;
    let cases = [
        (ROOM, ROOM, WORK, 1),
        (ROOM, ROOM, WORK - 1, 1),
        (ROOM, ROOM, WORK, 0),
        (ROOM, ROOM, WORK - 1, 0),
        (ROOM - 2, ROOM, WORK - 1, 1),
        (ROOM, ROOM - 2, WORK - 1, 1),
    ];
    let p = one_contour(points.as_slice(), &[MOST_POINTS as u32]);
    retrace_each(rt, "65536 points", p, &cases)
}

// Points in two opposite corners in turn: no plate's segments are longer together.
fn farthest_points_retrace<R: Print + AllocGlobal>(rt: &R) -> io::Result<()> {
    let mut points = vec![in rt.alloc(); 0.0f64; 2 * MOST_POINTS]?;
    let corners = [-1000000.0, -1000000.0, 1000000.0, 1000000.0];
    to_and_fro(points.as_mut_slice(), corners);
    let p = one_contour(points.as_slice(), &[MOST_POINTS as u32]);
    let name = "65536 points from corner to corner";
    retrace_each(rt, name, p, &[(ROOM, ROOM, WORK, 1)])
}

fn too_many_points_retrace<R: Print + AllocGlobal>(rt: &R) -> io::Result<()> {
    let points = vec![in rt.alloc(); 0.0f64; 2 * MOST_POINTS + 2]?;
    let p = one_contour(points.as_slice(), &[MOST_POINTS as u32 + 1]);
    retrace_each(rt, "65537 points", p, &[(ROOM, ROOM, WORK, 1)])
}

// The four calls, with slices that are enough for one point in 4,096 contours: C = 1, with u32 work of 1 + 4 + 8 x 4,096 + 16,384.
fn four_calls<R: Print + AllocGlobal>(rt: &R, name: &str, p: LayeredPlate<'_>) -> io::Result<()> {
    let mut work = [0u32; MOST_CONTOURS];
    let _ = print!(rt; "start, ");
    start(rt, name, p)?;
    let _ = print!(rt; "order, ");
    order(rt, name, p, &mut [0; 2], &mut work)?;
    let _ = print!(rt; "straight, ");
    straight(rt, name, p, &mut [0.0; 2], &mut work)?;
    let enough = 5 + 8 * MOST_CONTOURS + FIXED_WORK;
    retrace_each(rt, name, p, &[(2, 2, enough, MOST_CONTOURS)])
}

// 4,096 contours of which the last alone has a point.
fn last_alone() -> [u32; MOST_CONTOURS] {
    let mut lengths = [0u32; MOST_CONTOURS];
    lengths[MOST_CONTOURS - 1] = 1;
    lengths
}

// Each case: the layers of the last two contours; the others are of layer 0.
fn last_layers<R: Print + AllocGlobal>(rt: &R) -> io::Result<()> {
    for (name, one, last) in [
        ("layer 15 at 4095 of 4096", 0, 15),
        ("layer 16 at 4095 of 4096", 0, 16),
        ("layer 16 at 4094 and 4095", 16, 16),
    ] {
        let mut layers = [0u32; MOST_CONTOURS];
        layers[MOST_CONTOURS - 2] = one;
        layers[MOST_CONTOURS - 1] = last;
        let p = LayeredPlate {
            points: &[0.0; 2],
            lengths: &last_alone(),
            layers: &layers,
        };
        four_calls(rt, name, p)?;
    }
    Ok(())
}

// The place is the number of contours, even where the first layer is above 15.
fn miscounted_layers<R: Print + AllocGlobal>(rt: &R) -> io::Result<()> {
    let short = LayeredPlate {
        points: &[0.0; 2],
        lengths: &last_alone(),
        layers: &[0; MOST_CONTOURS - 1],
    };
    four_calls(rt, "4096 contours, 4095 layers", short)?;
    let long = LayeredPlate {
        layers: &[0; MOST_CONTOURS + 1],
        ..short
    };
    four_calls(rt, "4096 contours, 4097 layers", long)?;
    let high = LayeredPlate {
        layers: &[16; MOST_CONTOURS - 1],
        ..short
    };
    four_calls(rt, "4096 contours, 4095 layers of 16", high)
}

// Refusals 1 and 2 are tested before the layers.
fn layers_after_counts<R: Print + AllocGlobal>(rt: &R) -> io::Result<()> {
    let short = LayeredPlate {
        points: &[],
        lengths: &[0; MOST_CONTOURS + 1],
        layers: &[16; MOST_CONTOURS],
    };
    four_calls(rt, "4097 empty contours, 4096 layers of 16", short)?;
    let high = LayeredPlate {
        layers: &[16; MOST_CONTOURS + 1],
        ..short
    };
    four_calls(rt, "4097 empty contours of layer 16", high)?;
    let points = vec![in rt.alloc(); 0.0f64; 2 * MOST_POINTS + 2]?;
    let none = LayeredPlate {
        points: points.as_slice(),
        lengths: &[MOST_POINTS as u32 + 1],
        layers: &[],
    };
    four_calls(rt, "65537 points, no layer", none)?;
    let one = LayeredPlate {
        layers: &[16],
        ..none
    };
    four_calls(rt, "65537 points of layer 16", one)
}

// A contour of one point, its layer, and a parked point.
#[derive(Clone, Copy)]
struct ParkedPlate {
    point: [f64; 2],
    layer: u32,
    x: f64,
    y: f64,
}

// The four calls from a parked point, with slices that are enough for one point: C = 1, with u32 work of 1 + 4 + 8 + 16,384.
fn four_home_calls<R: Print>(rt: &R, name: &str, p: ParkedPlate) -> io::Result<()> {
    let (points, x, y) = (p.point, p.x, p.y);
    let lengths = [1u32];
    let layers = [p.layer];
    let a = twillharbor_start_home(&points, &lengths, &layers, x, y);
    let _ = print!(rt; "start home, ");
    show(rt, name, &[a.number, a.place])?;
    let b = twillharbor_order_home(&points, &lengths, &layers, x, y, &mut [0; 2], &mut [0; 1]);
    let _ = print!(rt; "order home, ");
    show(rt, name, &[b.number, b.place, b.entries])?;
    let c = twillharbor_straight_home(&points, &lengths, &layers, x, y, &mut [0.0; 2], &mut [0; 1]);
    let _ = print!(rt; "straight home, ");
    show(rt, name, &[c.number, c.place, c.points])?;
    let d = twillharbor_retrace_home(
        &points,
        &lengths,
        &layers,
        x,
        y,
        &mut [0.0; 2],
        &mut [0; 2],
        &mut [0; 5 + 8 + FIXED_WORK],
        &mut [0.0; 1],
    );
    let _ = print!(rt; "retrace home, ");
    show(rt, name, &numbers_of(d))
}

// Each case: where the parked point is.
fn parked<R: Print>(rt: &R) -> io::Result<()> {
    for (name, x, y) in [
        ("1000000, -1000000", 1000000.0, -1000000.0),
        ("-1000000, 1000000", -1000000.0, 1000000.0),
        ("next above 1000000 as x", ABOVE, 0.0),
        ("next below -1000000 as x", BELOW, 0.0),
        ("next above 1000000 as y", 0.0, ABOVE),
        ("next below -1000000 as y", 0.0, BELOW),
    ] {
        let p = ParkedPlate {
            point: [0.0; 2],
            layer: 0,
            x,
            y,
        };
        four_home_calls(rt, name, p)?;
    }
    Ok(())
}

// The parked point is tested after the layers and before the coordinates: in the second case the place tells which was refused.
fn parked_between<R: Print>(rt: &R) -> io::Result<()> {
    let all = ParkedPlate {
        point: [ABOVE, 0.0],
        layer: 16,
        x: ABOVE,
        y: ABOVE,
    };
    four_home_calls(rt, "layer 16, all next above 1000000", all)?;
    let both = ParkedPlate {
        layer: 0,
        x: 0.0,
        ..all
    };
    let name = "coordinate 0 and y next above 1000000";
    four_home_calls(rt, name, both)?;
    let contour = ParkedPlate {
        y: 1000000.0,
        ..both
    };
    four_home_calls(rt, "coordinate 0 next above 1000000", contour)
}

fn main(rt: HostRuntime) -> io::Result<()> {
    coordinates(&rt)?;
    empty_contours(&rt)?;
    many_points(&rt)?;
    sums(&rt)?;
    short_slices(&rt)?;
    coordinates_retrace(&rt)?;
    empty_contours_retrace(&rt)?;
    single_points_retrace(&rt)?;
    too_many_contours_retrace(&rt)?;
    most_points_retrace(&rt)?;
    farthest_points_retrace(&rt)?;
    too_many_points_retrace(&rt)?;
    last_layers(&rt)?;
    miscounted_layers(&rt)?;
    layers_after_counts(&rt)?;
    parked(&rt)?;
    parked_between(&rt)
}
