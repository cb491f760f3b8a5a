// The check of a path from elsewhere: whether its marks divide it as the path statement says.
#![tactic(auto)]

ghost use Rattle.std.specs.Prelude.{◌≡◌, List, [], ◌∷◌, ℕ, ◌+◌, ◌*◌, ◌/◌, ◌≤◌, ◌<◌, length, IfSome, IsNone};
ghost use Rattle.rules.specs.Limits.{most_contours};
ghost use Rattle.rules.specs.Tools.{sum, first_failing};
ghost use Rattle.rules.specs.HandedOver.{Contour, contours_of, gives, refused_by, answer_of, WorkKept};
ghost use Rattle.statement.specs.PathCheck as rule;
ghost use Rattle.path_rules.specs.Parts.{TalliedBy, SameWords};
ghost use Rattle.path_check.specs.LeftOut.{TellsLeftOut};

use path_rules::{PlatePath, UNENTERED, Words};
use plate::check_contours;
use rules::Refusal;

// The words before the first path point, where every contour takes part.
// It carries `v`, the next contour's first vertex, and takes no `contours::Contours`: an empty contour's word is written too, and those leave it out.
#[tactic(auto, using(crate::specs::Labels::next_end))]
fn label<'a>(lengths: &[u32], work: &'a mut [u32], total: usize) -> Words<'a>
    requires total { total ≡ sum lengths.now }
    requires count { length lengths.now ≤ most_contours }
    requires room { total + length lengths.now ≤ length work.old }
    ensures total { length result.vertices.now ≡ total }
    ensures tallied { (ms : List ℕ) → TalliedBy (contours_of lengths.now) result ms 0 }
{
    let (vertices, contours) = work.split_at_mut(total);
    let mut v: usize = 0;
    for (j, &length) in lengths.iter().enumerate() {
        let end = v + length as usize;
        vertices[v..end].fill(2 * j as u32);
        contours[j] = UNENTERED;
        v = end;
    }
    Words { vertices, contours }
}

// The first path point that breaks a rule. A `for` and no chain: each point that keeps the rules alters the words that the next is tested by.
fn first_failing(checked: &mut PlatePath<'_, '_>) -> Option<usize>
    requires { (length checked.old.marks.now ≡ length checked.old.path.now)
        × (length checked.old.path.now ≡ 2 * (length checked.old.path.now / 2)) }
    ensures same { SameWords checked.old.words checked.new.words }
    ensures found { (cs : List Contour) → TalliedBy cs checked.old.words checked.old.marks.now 0 →
        let n = length checked.old.path.now / 2 in
        IfSome result
        (λ i. (i < n) × (i ≡ first_failing (rule.keeps_rules cs checked.old.points.now checked.old.path.now checked.old.marks.now) 0 n)) }
    ensures none { (cs : List Contour) → TalliedBy cs checked.old.words checked.old.marks.now 0 →
        let n = length checked.old.path.now / 2 in
        IsNone result →
        (first_failing (rule.keeps_rules cs checked.old.points.now checked.old.path.now checked.old.marks.now) 0 n ≡ n)
        × TalliedBy cs checked.new.words checked.old.marks.now n }
{
    for i in 0..checked.path.len() / 2 {
        if !checked.keeps_rules(i) {
            return Some(i);
        }
        checked.words.tally(checked.marks, i);
    }
    None
}

// Whether vertex v's contour is unentered, or there is a segment from v to v + 1 and it is uncut.
fn leaves_out(words: &Words<'_>, v: usize) -> bool
    requires { v < length words.now.vertices.now }
    ensures { TellsLeftOut words.now v result }
{
    words.contour_word(v) == UNENTERED || words.is_open(v)
}

// Whether no contour is unentered and no segment uncut.
fn is_complete(words: &Words<'_>) -> bool
    ensures { (cs : List Contour) (ms : List ℕ) (n : ℕ) → length ms ≡ 2 * n → TalliedBy cs words.now ms n →
        result ≡ rule.complete cs ms }
{
    !(0..words.vertices.len()).any(|v| leaves_out(words, v))
}

// Refusal 12, over the contours that the work slice's words say.
pub fn check_division(checked: &mut PlatePath<'_, '_>) -> Result<(), Refusal>
    requires { (length checked.old.marks.now ≡ length checked.old.path.now)
        × (length checked.old.path.now ≡ 2 * (length checked.old.path.now / 2)) }
    ensures same { SameWords checked.old.words checked.new.words }
    ensures answer { (cs : List Contour) → TalliedBy cs checked.old.words checked.old.marks.now 0 →
        answer_of result
        ≡ refused_by (rule.not_drawn cs checked.old.points.now (length checked.old.path.now / 2) checked.old.path.now checked.old.marks.now ∷ []) (gives tt) }
{
    let count = checked.path.len() / 2;
    if let Some(place) = first_failing(checked) {
        return Err(Refusal::NotDrawn(place as u64));
    }
    if !is_complete(&checked.words) {
        return Err(Refusal::NotDrawn(count as u64));
    }
    Ok(())
}

// The check of a path from elsewhere, of `points` cut into contours by `lengths`.
pub fn check_path<'a>(
    points: &'a [f64],
    lengths: &[u32],
    path: &'a [f64],
    marks: &'a [u32],
    work: &mut [u32],
) -> Result<(), Refusal>
    ensures { let a = rule.check_call points.now lengths.now path.now marks.now (length work.old) in
        (answer_of result ≡ a) × WorkKept a work.old work.new }
{
    let total = check_contours(points, lengths)? as usize;
    if path.len() % 2 != 0 || marks.len() != path.len() {
        return Err(Refusal::Miscounted);
    }
    if work.len() < total + lengths.len() {
        return Err(Refusal::WorkShort(0));
    }
    let words = label(lengths, work, total);
    let mut checked = PlatePath {
        points,
        path,
        marks,
        words,
    };
    check_division(&mut checked)
}
