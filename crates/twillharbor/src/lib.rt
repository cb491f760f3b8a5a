// The C interface: its functions take slices and numbers one by one, under one name for each way to start.
#![tactic(auto)]

ghost use Rattle.std.specs.Prelude.{◌≡◌, ◌*◌, ◌/◌, length, take};
ghost use Rattle.rules.specs.HandedOver.{plate, plate_of, parked_plate, contours_of, WorkKept};
ghost use Rattle.rules.specs.Calls.{distance_call, start_call, order_call, straight_call};
ghost use Rattle.statement.specs.PathCheck.{DividesByPoints, FirstFault, check_call};
ghost use Rattle.contour_recovery.specs.ContourRecovery.{recovery_call};
ghost use Rattle.file_format.specs.PlateFile.{write_call, read_call};
ghost use Rattle.results.specs.Results.{distance_result, start_result, order_result, straight_result, check_result, write_result, read_result, contours_result};
ghost use Rattle.twillharbor.specs.Arguments.{point_of, strategy_of};
ghost use Rattle.twillharbor.specs.RetraceStruct.{Retraced};

use order::order_call;
use path_check::check_path;
use plate_file::{read_file, write_file};
use point::distance_call;
use recovery::recover_contours;
use results::{
    CheckResult, ContoursResult, DistanceResult, OrderResult, ReadFileResult, RetraceResult,
    StartResult, StraightResult, WriteFileResult, check_result, contours_result, distance_result,
    order_result, read_result, retrace_result, start_result, straight_result, write_result,
};
use retrace::retrace_call;
use rules::{Input, Point, StartPointStrategy};
use start::start_call;
use straight::straight_call;

#[unsafe(no_mangle)]
pub extern "C" fn twillharbor_distance(ax: f64, ay: f64, bx: f64, by: f64) -> DistanceResult
    ensures { result ≡ distance_result (distance_call (point_of ax ay) (point_of bx by)) }
{
    distance_result(distance_call(Point { x: ax, y: ay }, Point { x: bx, y: by }))
}

// What a `bool` means in C alone, so no `From`.
#[tactic(auto, unfolding(crate::specs::Arguments::strategy_of, rules::specs::Tools::pick))]
fn strategy_of(inside: bool) -> StartPointStrategy
    ensures { result ≡ strategy_of inside }
{
    if inside {
        return StartPointStrategy::Inside;
    }
    StartPointStrategy::Outside
}

// What a call with a plate's size is handed.
fn sized<'a>(
    points: &'a [f64],
    lengths: &'a [u32],
    layers: &'a [u32],
    width: u32,
    height: u32,
    inside: bool,
) -> Input<'a>
    ensures { plate_of result ≡ plate points.now lengths.now layers.now width height (strategy_of inside) }
{
    Input {
        points,
        lengths,
        layers,
        width,
        height,
        strategy: strategy_of(inside),
    }
}

// What a call with a parked point is handed.
#[tactic(auto, unfolding(rules::specs::HandedOver::parked_plate))]
fn parked<'a>(points: &'a [f64], lengths: &'a [u32], layers: &'a [u32], x: f64, y: f64) -> Input<'a>
    ensures { plate_of result ≡ parked_plate points.now lengths.now layers.now x y }
{
    Input {
        points,
        lengths,
        layers,
        width: 0,
        height: 0,
        strategy: StartPointStrategy::Home(Point { x, y }),
    }
}

#[unsafe(no_mangle)]
pub extern "C" fn twillharbor_start(
    points: &[f64],
    lengths: &[u32],
    layers: &[u32],
    width: u32,
    height: u32,
    inside: bool,
) -> StartResult
    ensures { result ≡ start_result (start_call (plate points.now lengths.now layers.now width height (strategy_of inside))) }
{
    let input = sized(points, lengths, layers, width, height, inside);
    start_result(start_call(&input))
}

#[unsafe(no_mangle)]
pub extern "C" fn twillharbor_start_home(
    points: &[f64],
    lengths: &[u32],
    layers: &[u32],
    home_x: f64,
    home_y: f64,
) -> StartResult
    ensures { result ≡ start_result (start_call (parked_plate points.now lengths.now layers.now home_x home_y)) }
{
    let home = parked(points, lengths, layers, home_x, home_y);
    start_result(start_call(&home))
}

#[unsafe(no_mangle)]
pub extern "C" fn twillharbor_order(
    points: &[f64],
    lengths: &[u32],
    layers: &[u32],
    width: u32,
    height: u32,
    inside: bool,
    order: &mut [u32],
    work: &mut [u32],
) -> OrderResult
    ensures { let p = plate points.now lengths.now layers.now width height (strategy_of inside) in
        let o = order_call p order.old (length work.old) in
        (result ≡ order_result o.answer) × (order.new ≡ o.order) × WorkKept o.answer work.old work.new }
{
    let input = sized(points, lengths, layers, width, height, inside);
    order_result(order_call(&input, order, work))
}

#[unsafe(no_mangle)]
pub extern "C" fn twillharbor_order_home(
    points: &[f64],
    lengths: &[u32],
    layers: &[u32],
    home_x: f64,
    home_y: f64,
    order: &mut [u32],
    work: &mut [u32],
) -> OrderResult
    ensures { let p = parked_plate points.now lengths.now layers.now home_x home_y in
        let o = order_call p order.old (length work.old) in
        (result ≡ order_result o.answer) × (order.new ≡ o.order) × WorkKept o.answer work.old work.new }
{
    let home = parked(points, lengths, layers, home_x, home_y);
    order_result(order_call(&home, order, work))
}

#[unsafe(no_mangle)]
pub extern "C" fn twillharbor_straight(
    points: &[f64],
    lengths: &[u32],
    layers: &[u32],
    width: u32,
    height: u32,
    inside: bool,
    path: &mut [f64],
    work: &mut [u32],
) -> StraightResult
    ensures { let p = plate points.now lengths.now layers.now width height (strategy_of inside) in
        let o = straight_call p path.old (length work.old) in
        (result ≡ straight_result o.answer) × (path.new ≡ o.path) × WorkKept o.answer work.old work.new }
{
    let input = sized(points, lengths, layers, width, height, inside);
    straight_result(straight_call(&input, path, work))
}

#[unsafe(no_mangle)]
pub extern "C" fn twillharbor_straight_home(
    points: &[f64],
    lengths: &[u32],
    layers: &[u32],
    home_x: f64,
    home_y: f64,
    path: &mut [f64],
    work: &mut [u32],
) -> StraightResult
    ensures { let p = parked_plate points.now lengths.now layers.now home_x home_y in
        let o = straight_call p path.old (length work.old) in
        (result ≡ straight_result o.answer) × (path.new ≡ o.path) × WorkKept o.answer work.old work.new }
{
    let home = parked(points, lengths, layers, home_x, home_y);
    straight_result(straight_call(&home, path, work))
}

// `Retraced` (specs/RetraceStruct.antt): answer and slices are those of the rules. Where the number is 0 and a contour holds a point, what was written divides
// as the path statement (statement/specs/PathStatement.antt) says; where it is 0, the layers never fall along it. In all that was written, with number 0 or 6,
// the landings are near (statement/specs/HowNear.antt).
#[unsafe(no_mangle)]
pub extern "C" fn twillharbor_retrace(
    points: &[f64],
    lengths: &[u32],
    layers: &[u32],
    width: u32,
    height: u32,
    inside: bool,
    path: &mut [f64],
    marks: &mut [u32],
    work: &mut [u32],
    distances: &mut [f64],
) -> RetraceResult
    ensures { Retraced (plate points.now lengths.now layers.now width height (strategy_of inside))
        path.old marks.old work.old distances.old path.new marks.new work.new distances.new result }
{
    let input = sized(points, lengths, layers, width, height, inside);
    retrace_result(retrace_call(&input, path, marks, work, distances))
}

// The path statement covers Home: the same promises, of the plate with the parked point.
#[unsafe(no_mangle)]
pub extern "C" fn twillharbor_retrace_home(
    points: &[f64],
    lengths: &[u32],
    layers: &[u32],
    home_x: f64,
    home_y: f64,
    path: &mut [f64],
    marks: &mut [u32],
    work: &mut [u32],
    distances: &mut [f64],
) -> RetraceResult
    ensures { Retraced (parked_plate points.now lengths.now layers.now home_x home_y)
        path.old marks.old work.old distances.old path.new marks.new work.new distances.new result }
{
    let home = parked(points, lengths, layers, home_x, home_y);
    retrace_result(retrace_call(&home, path, marks, work, distances))
}

// Where the number is 0, the marks divide the path (statement/specs/PathCheck.antt); where it is 12, the place is the first fault.
#[unsafe(no_mangle)]
pub extern "C" fn twillharbor_check_path(
    points: &[f64],
    lengths: &[u32],
    path: &[f64],
    marks: &[u32],
    work: &mut [u32],
) -> CheckResult
    ensures { let xs = points.now in
        let cs = contours_of lengths.now in
        let n = length path.now / 2 in
        let a = check_call xs lengths.now path.now marks.now (length work.old) in
        (result ≡ check_result a) × WorkKept a work.old work.new
        × (result.number ≡ 0 → DividesByPoints cs xs n path.now marks.now)
        × (result.number ≡ 12 → FirstFault cs xs n path.now marks.now result.place) }
{
    check_result(check_path(points, lengths, path, marks, work))
}

// The contours of a path with marks, over the starts of `points` and `lengths`. Where the number is 0, the marks divide the path over them.
#[unsafe(no_mangle)]
pub extern "C" fn twillharbor_contours(
    path: &[f64],
    marks: &[u32],
    points: &mut [f64],
    lengths: &mut [u32],
    work: &mut [u32],
) -> ContoursResult
    ensures { let o = recovery_call path.now marks.now points.old lengths.old (length work.old) in
        let xs = take (2 * result.points) points.new in
        let cs = contours_of (take result.contours lengths.new) in
        (result ≡ contours_result o.answer) × (points.new ≡ o.points) × (lengths.new ≡ o.lengths) × WorkKept o.answer work.old work.new
        × (result.number ≡ 0 → DividesByPoints cs xs (length path.now / 2) path.now marks.now) }
{
    contours_result(recover_contours(path, marks, points, lengths, work))
}

// The file of a path, over the start of `file`.
#[unsafe(no_mangle)]
pub extern "C" fn twillharbor_write_file(path: &[f64], file: &mut [u8]) -> WriteFileResult
    ensures { let o = write_call path.now file.old in
        (result ≡ write_result o.answer) × (file.new ≡ o.file) }
{
    write_result(write_file(path, file))
}

// The path of a file, over the start of `path`.
#[unsafe(no_mangle)]
pub extern "C" fn twillharbor_read_file(file: &[u8], path: &mut [f64]) -> ReadFileResult
    ensures { let o = read_call file.now path.old in
        (result ≡ read_result o.answer) × (path.new ≡ o.path) }
{
    read_result(read_file(file, path))
}
