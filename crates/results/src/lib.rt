// The structs of the C interface, made from the answers of the calls. A result's number is 0; a refusal has its number and its place, and 0 in every
// other field.
#![tactic(auto)]

ghost use Rattle.std.specs.Prelude.{◌≡◌, ℕ, Err};
ghost use Rattle.rules.specs.HandedOver.{refuses, refusal, answer_of};
ghost use Rattle.plate_laws.specs.Rows.{Other};
ghost use Rattle.contour_recovery.specs.ContourRecovery.{recovery_answer};
ghost use Rattle.results.specs.Results.{told, distance_result, start_result, order_result, straight_result, retrace_result, check_result, write_result, read_result, contours_result};
ghost use Rattle.results.specs.Refusals.{PlaceOf32};

use rules::{Recovered, RecoveryRefusal, Refusal, Totals};

// The paper's number and place of a refusal; 12 has a place of 64 bits, and is none of these.
#[tactic(auto, unfolding(rules::specs::HandedOver::number_of, rules::specs::HandedOver::place_of, rules::specs::HandedOver::refusal))]
fn numbers_of(r: Refusal) -> (u32, u32)
    requires { PlaceOf32 r }
    ensures { refusal {A = ℕ} r ≡ refuses result.0 result.1 }
{
    match r {
        Refusal::TooManyContours => (1, 0),
        Refusal::TooManyPoints => (2, 0),
        Refusal::Miscounted => (3, 0),
        Refusal::OffThePlate(place) => (4, place),
        Refusal::WorkShort(place) => (5, place),
        Refusal::Full(place) => (6, place),
        Refusal::Blank => (7, 0),
        Refusal::BlockDamaged(place) => (8, place),
        Refusal::WrongEnd(place) => (9, place),
        Refusal::NotDrawn(_) => unreachable!(),
        Refusal::BadLayer(place) => (13, place),
    }
}

// The number and place of an answer, and what it carries: of a refusal, `zeros`. No `T: Default` in their place: its clause tells what holds of a default, and
// not which value it is, and so the callers would have to show that it is 0. (No `From` below: it can require nothing, and `check_result` is as the others.)
#[tactic(auto, using(crate::specs::Refusals::of_other), unfolding(crate::specs::Results::told, rules::specs::HandedOver::answer_of))]
fn told<T: Copy>(answer: Result<T, Refusal>, zeros: T) -> (u32, u32, T)
    requires { Other 12 (answer_of answer) }
    ensures { result ≡ told (answer_of answer) zeros }
{
    match answer {
        Ok(value) => (0, 0, value),
        Err(r) => {
            let (number, place) = numbers_of(r);
            (number, place, zeros)
        }
    }
}

#[repr(C)]
#[derive(Clone, Copy)]
pub struct DistanceResult {
    pub number: u32,
    pub place: u32,
    pub squared: f64,
    pub plain: f64,
}

pub fn distance_result(answer: Result<(f64, f64), Refusal>) -> DistanceResult
    requires { Other 12 (answer_of answer) }
    ensures { result ≡ distance_result (answer_of answer) }
{
    let (number, place, (squared, plain)) = told(answer, (0.0, 0.0));
    DistanceResult {
        number,
        place,
        squared,
        plain,
    }
}

#[repr(C)]
#[derive(Clone, Copy)]
pub struct StartResult {
    pub number: u32,
    pub place: u32,
    pub contour: u32,
    pub reversed: u32,
}

pub fn start_result(answer: Result<(u32, bool), Refusal>) -> StartResult
    requires { Other 12 (answer_of answer) }
    ensures { result ≡ start_result (answer_of answer) }
{
    let (number, place, (contour, reversed)) = told(answer, (0, false));
    StartResult {
        number,
        place,
        contour,
        reversed: u32::from(reversed),
    }
}

// The four structs of one number, here and below, are as C names them.
#[repr(C)]
#[derive(Clone, Copy)]
pub struct OrderResult {
    pub number: u32,
    pub place: u32,
    pub entries: u32,
}

#[tactic(auto, using(crate::proofs::AnswerStructs::order_told))]
pub fn order_result(answer: Result<u32, Refusal>) -> OrderResult
    requires { Other 12 (answer_of answer) }
    ensures { result ≡ order_result (answer_of answer) }
{
    let (number, place, entries) = told(answer, 0);
    OrderResult {
        number,
        place,
        entries,
    }
}

#[repr(C)]
#[derive(Clone, Copy)]
pub struct StraightResult {
    pub number: u32,
    pub place: u32,
    pub points: u32,
}

#[tactic(auto, using(crate::proofs::AnswerStructs::straight_told))]
pub fn straight_result(answer: Result<u32, Refusal>) -> StraightResult
    requires { Other 12 (answer_of answer) }
    ensures { result ≡ straight_result (answer_of answer) }
{
    let (number, place, count) = told(answer, 0);
    StraightResult {
        number,
        place,
        points: count,
    }
}

#[repr(C)]
#[derive(Clone, Copy)]
pub struct RetraceResult {
    pub number: u32,
    pub place: u32,
    pub points: u32,
    pub cuts: u32,
    pub back_steps: u32,
    pub jumps: u32,
    pub touches: u32,
    pub cut_length: u64,
    pub back_step_length: u64,
    pub jump_length: u64,
}

#[tactic(auto, using(crate::proofs::AnswerStructs::retrace_told))]
pub fn retrace_result(answer: Result<Totals, Refusal>) -> RetraceResult
    requires { Other 12 (answer_of answer) }
    ensures { result ≡ retrace_result (answer_of answer) }
{
    let (number, place, totals) = told(answer, Totals::default());
    RetraceResult {
        number,
        place,
        points: totals.points,
        cuts: totals.cuts,
        back_steps: totals.back_steps,
        jumps: totals.jumps,
        touches: totals.touches,
        cut_length: totals.cut_length,
        back_step_length: totals.back_step_length,
        jump_length: totals.jump_length,
    }
}

#[repr(C)]
#[derive(Clone, Copy)]
pub struct CheckResult {
    pub number: u32,
    pub place: u64,
}

#[tactic(auto, using(plate_laws::specs::Rows::refused), unfolding(crate::specs::Results::check_result, rules::specs::HandedOver::answer_of, rules::specs::HandedOver::number_of, rules::specs::HandedOver::place_of, rules::specs::HandedOver::refusal))]
pub fn check_result(answer: Result<(), Refusal>) -> CheckResult
    ensures { result ≡ check_result (answer_of answer) }
{
    match answer {
        Ok(()) => CheckResult {
            number: 0,
            place: 0,
        },
        Err(Refusal::NotDrawn(place)) => CheckResult { number: 12, place },
        Err(r) => {
            let (number, place) = numbers_of(r);
            CheckResult {
                number,
                place: u64::from(place),
            }
        }
    }
}

#[repr(C)]
#[derive(Clone, Copy)]
pub struct WriteFileResult {
    pub number: u32,
    pub place: u32,
    pub bytes: u32,
}

#[tactic(auto, using(crate::proofs::AnswerStructs::write_told))]
pub fn write_result(answer: Result<u32, Refusal>) -> WriteFileResult
    requires { Other 12 (answer_of answer) }
    ensures { result ≡ write_result (answer_of answer) }
{
    let (number, place, bytes) = told(answer, 0);
    WriteFileResult {
        number,
        place,
        bytes,
    }
}

#[repr(C)]
#[derive(Clone, Copy)]
pub struct ReadFileResult {
    pub number: u32,
    pub place: u32,
    pub points: u32,
}

#[tactic(auto, using(crate::proofs::AnswerStructs::read_told))]
pub fn read_result(answer: Result<u32, Refusal>) -> ReadFileResult
    requires { Other 12 (answer_of answer) }
    ensures { result ≡ read_result (answer_of answer) }
{
    let (number, place, points) = told(answer, 0);
    ReadFileResult {
        number,
        place,
        points,
    }
}

// The paper's number and place of a refusal of recovered contours.
#[tactic(auto, unfolding(contour_recovery::specs::ContourRecovery::recovery_answer))]
fn recovery_numbers_of(r: RecoveryRefusal) -> (u32, u64)
    ensures { recovery_answer (Err r) ≡ refuses result.0 result.1 }
{
    match r {
        RecoveryRefusal::PathMiscounted => (3, 0),
        RecoveryRefusal::PathOffThePlate(place) => (4, place),
        RecoveryRefusal::PathWorkShort => (5, 0),
        RecoveryRefusal::NoRoom => (6, 0),
        RecoveryRefusal::MarksInconsistent(place) => (10, place),
        RecoveryRefusal::VertexMissing(place) => (11, place),
    }
}

#[repr(C)]
#[derive(Clone, Copy)]
pub struct ContoursResult {
    pub number: u32,
    pub place: u64,
    pub points: u32,
    pub contours: u32,
}

#[tactic(auto, unfolding(crate::specs::Results::contours_result, contour_recovery::specs::ContourRecovery::recovery_answer))]
pub fn contours_result(answer: Result<Recovered, RecoveryRefusal>) -> ContoursResult
    ensures { result ≡ contours_result (recovery_answer answer) }
{
    match answer {
        Ok(recovered) => ContoursResult {
            number: 0,
            place: 0,
            points: recovered.points,
            contours: recovered.contours,
        },
        Err(r) => {
            let (number, place) = recovery_numbers_of(r);
            ContoursResult {
                number,
                place,
                points: 0,
                contours: 0,
            }
        }
    }
}
