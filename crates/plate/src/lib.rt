// The input checks that the calls share: refusals 1 to 3, 13 and 4, in their order, the parked point's 4 before the contours'.
#![tactic(auto)]

ghost use Rattle.std.specs.Prelude.{◌≡◌, ◌*◌, ◌≤◌, ◌<◌, length, [], ◌∷◌, IfOk, IfSome, IsNone};
ghost use Rattle.rules.specs.Limits.{most_contours, most_path_points};
ghost use Rattle.rules.specs.Tools.{sum};
ghost use Rattle.rules.specs.HandedOver.{answer_of, gives, in_range, first_off, first_bad, refused_by, out_of_range, off_the_plate};
ghost use Rattle.rules.specs.HandedOver.{bad_layer_count, bad_layer, contour_rows, parked_coordinates, plate_rows, plate_of};
ghost use Rattle.plate.specs.Answer.{count_rows};
ghost use Rattle.plate.specs.Sound.{counted};

pub mod checked_input;

use crate::checked_input::CheckedInput;
use rules::{HIGHEST_LAYER, Input, Refusal, StartPointStrategy};

// A plate has at most so many contours and points.
const MOST_CONTOURS: usize = 4096;

const MOST_POINTS: u64 = 65536;

pub const PLATE_LIMIT: f64 = 1000000.0;

// Whether x is a number of magnitude at most limit.
#[tactic(auto, unfolding(rules::specs::HandedOver::in_range))]
pub fn in_range(limit: f64, x: f64) -> bool
    ensures { result ≡ in_range limit x }
{
    -limit <= x && x <= limit
}

// The sum of the lengths: 4,096 of them cannot wrap a u64.
fn point_count(lengths: &[u32]) -> u64
    requires { length lengths.now ≤ most_contours }
    ensures { result ≡ sum lengths.now }
{
    lengths.iter().map(|&n| u64::from(n)).sum()
}

// The place of the first number that is out of range. This and first_bad are one line each, over two tests; a function of the test that did for both would be
// `position` itself.
pub fn first_off(limit: f64, numbers: &[f64]) -> Option<usize>
    ensures found { IfSome result (λ i. (i < length numbers.now) × (i ≡ first_off limit 0 numbers.now)) }
    ensures none { IsNone result → first_off limit 0 numbers.now ≡ length numbers.now }
{
    numbers.iter().position(|&x| !in_range(limit, x))
}

// The number of the first contour with a layer above the highest. (No one function with first_off: see there.)
fn first_bad(layers: &[u32]) -> Option<usize>
    ensures found { IfSome result (λ j. (j < length layers.now) × (j ≡ first_bad 0 layers.now)) }
    ensures none { IsNone result → first_bad 0 layers.now ≡ length layers.now }
{
    layers.iter().position(|&l| HIGHEST_LAYER < l)
}

// Refusals 1 to 3, or the number of points.
#[tactic(auto, unfolding(crate::specs::Answer::count_rows, rules::specs::Tools::pick, rules::specs::HandedOver::answer_of, rules::specs::HandedOver::number_of, rules::specs::HandedOver::place_of, rules::specs::HandedOver::refusal, rules::specs::HandedOver::refused_by, rules::specs::HandedOver::too_many_contours, rules::specs::HandedOver::too_many_points, rules::specs::HandedOver::miscounted))]
fn check_counts(points: &[f64], lengths: &[u32]) -> Result<u32, Refusal>
    ensures { answer_of result ≡ refused_by (count_rows points.now lengths.now) (gives (sum lengths.now)) }
{
    if MOST_CONTOURS < lengths.len() {
        return Err(Refusal::TooManyContours);
    }
    let total = point_count(lengths);
    if MOST_POINTS < total {
        return Err(Refusal::TooManyPoints);
    }
    if points.len() as u64 != 2 * total {
        return Err(Refusal::Miscounted);
    }
    Ok(total as u32)
}

// Refusal 4, of numbers whose places fit 32 bits.
pub fn check_range(limit: f64, numbers: &[f64]) -> Result<(), Refusal>
    requires { length numbers.now ≤ 2 * most_path_points }
    ensures { answer_of result ≡ refused_by (out_of_range limit numbers.now ∷ []) (gives tt) }
{
    match first_off(limit, numbers) {
        Some(k) => Err(Refusal::OffThePlate(k as u32)),
        None => Ok(()),
    }
}

// Refusal 4, of the parked point, its place within that point. No closure for each strategy: C hands the strategy over as a value, which this same match
// would have to turn into the closure, and only Home has a point to look at.
#[tactic(auto, unfolding(rules::specs::Tools::pick, rules::specs::HandedOver::answer_of, rules::specs::HandedOver::first_off, rules::specs::HandedOver::refused_by, rules::specs::HandedOver::out_of_range, rules::specs::HandedOver::off_the_plate, rules::specs::HandedOver::parked_coordinates))]
fn check_parked(strategy: StartPointStrategy) -> Result<(), Refusal>
    ensures { answer_of result ≡ refused_by (off_the_plate (parked_coordinates strategy) ∷ []) (gives tt) }
{
    match strategy {
        StartPointStrategy::Outside | StartPointStrategy::Inside => Ok(()),
        StartPointStrategy::Home(parked) => check_range(PLATE_LIMIT, &[parked.x, parked.y]),
    }
}

// Refusal 13, of the layers of at most 4,096 contours.
#[tactic(auto, unfolding(rules::specs::Tools::pick, rules::specs::HandedOver::answer_of, rules::specs::HandedOver::number_of, rules::specs::HandedOver::place_of, rules::specs::HandedOver::refusal, rules::specs::HandedOver::refused_by, rules::specs::HandedOver::bad_layer_count, rules::specs::HandedOver::bad_layer))]
fn check_layers(contours: usize, layers: &[u32]) -> Result<(), Refusal>
    requires { contours ≤ most_contours }
    ensures { answer_of result ≡ refused_by (bad_layer_count contours layers.now ∷ bad_layer layers.now ∷ []) (gives tt) }
{
    if layers.len() != contours {
        return Err(Refusal::BadLayer(contours as u32));
    }
    if let Some(j) = first_bad(layers) {
        return Err(Refusal::BadLayer(j as u32));
    }
    Ok(())
}

// Refusals 1 to 4, of contours without layers, or the number of points.
pub fn check_contours(points: &[f64], lengths: &[u32]) -> Result<u32, Refusal>
    ensures { answer_of result ≡ refused_by (contour_rows points.now lengths.now) (gives (sum lengths.now)) }
{
    let count = check_counts(points, lengths)?;
    check_range(PLATE_LIMIT, points)?;
    Ok(count)
}

// Refusals 1 to 3, 13 and 4, the parked point's 4 before the contours'.
pub fn check<'a>(input: &Input<'a>) -> Result<CheckedInput<'a>, Refusal>
    ensures answer { answer_of (counted result) ≡ refused_by (plate_rows (plate_of input.now)) (gives (sum input.now.lengths.now)) }
    ensures same { IfOk result (λ c. c.input ≡ input.now) }
{
    check_counts(input.points, input.lengths)?;
    check_layers(input.lengths.len(), input.layers)?;
    check_parked(input.strategy)?;
    check_range(PLATE_LIMIT, input.points)?;
    Ok(CheckedInput { input: *input })
}
