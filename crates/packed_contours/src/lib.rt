// Contours packed in the work slice, one number each: the caller lends nothing but numbers.
#![tactic(auto)]

ghost use Rattle.std.specs.Prelude.{◌≡◌, map, ◌++◌, ◌∷◌, ℕ, ◌+◌, ◌-◌, ◌*◌, ◌≤◌, ◌<◌, length, get_or, take, drop, IfSome, IsNone};
ghost use Rattle.rules.specs.Limits.{most_contours, most_points};
ghost use Rattle.rules.specs.Tools.{pick, sum};
ghost use Rattle.rules.specs.HandedOver.{contours_from, over};
ghost use Rattle.packed_contours.specs.PackedNumbers.{number_unit, sense_unit, packed, number_in, first_in};
ghost use Rattle.packed_contours.specs.UnpackedNumbers.{UnpackedFrom};

use contours::{ContourRange, Contours};
use rules::Vertex;

// What the number of a contour, and whether it is reversed, count in a word.
const NUMBER_UNIT: u32 = 65536;

const SENSE_UNIT: u32 = 268435456;

// What a word of the work slice says of a contour: its first vertex, its number, and whether it is reversed.
#[derive(Clone, Copy)]
pub struct Packed {
    pub first: Vertex,
    pub number: u32,
    pub reversed: bool,
    ghost small: { first.0 < most_points },
    ghost few: { number < most_contours },
}

impl Packed {
    // A contour in a sense.
    pub fn of(c: ContourRange, reversed: bool) -> Packed
        requires few { c.number < most_contours }
        requires small { c.first.0 < most_points }
        ensures number { result.number ≡ c.number }
        ensures first { result.first.0 ≡ c.first.0 }
        ensures reversed { result.reversed ≡ reversed }
    {
        Packed {
            first: c.first,
            number: c.number,
            reversed,
        }
    }
}

impl From<u32> for Packed {
    ghost from_gives = { λ word p. UnpackedFrom word p.number p.first.0 p.reversed };

    fn from(word: u32) -> Packed {
        Packed {
            first: Vertex(word % NUMBER_UNIT),
            number: word % SENSE_UNIT / NUMBER_UNIT,
            reversed: word / SENSE_UNIT == 1,
        }
    }
}

impl From<Packed> for u32 {
    ghost from_gives = { λ p word. word ≡ p.number * number_unit + p.first.0 + pick p.reversed sense_unit 0 };

    #[tactic(auto, unfolding(rules::specs::Tools::pick))]
    fn from(p: Packed) -> u32 {
        let sense = if p.reversed { SENSE_UNIT } else { 0 };
        p.number * NUMBER_UNIT + p.first.0 + sense
    }
}

// The contour of a packed number.
pub fn contour_at(lengths: &[u32], word: u32) -> ContourRange
    requires listed { number_in word < length lengths.now }
    requires some { 0 < get_or lengths.now (number_in word) 0 }
    ensures number { result.number ≡ number_in word }
    ensures first { result.first.0 ≡ first_in word }
    ensures last { result.last + 1 ≡ get_or lengths.now (number_in word) 0 }
{
    let packed = Packed::from(word);
    let size = lengths[packed.number as usize];
    ContourRange {
        number: packed.number,
        first: packed.first,
        last: size - 1,
    }
}

// The first place of a number.
pub fn place_of(words: &[u32], word: u32) -> Option<usize>
    ensures found { IfSome result (λ i. (i < length words.now) × (get_or words.now i 0 ≡ word) × ((j : ℕ) → j < i → get_or words.now j 0 ≡ word → ⊥)) }
    ensures missing { IsNone result → (j : ℕ) → j < length words.now → get_or words.now j 0 ≡ word → ⊥ }
{
    words.iter().position(|&w| w == word)
}

// Writes the contours that are not empty, packed, to the start of the work slice, and answers how many they are.
pub fn list_contours(lengths: &[u32], work: &mut [u32]) -> usize
    requires few { length lengths.now ≤ most_contours }
    requires small { sum lengths.now ≤ most_points }
    requires room { length lengths.now ≤ length work.old }
    ensures few { result ≤ length lengths.now }
    ensures count { result ≡ length (contours_from 0 0 lengths.now) }
    ensures words { work.new ≡ over (map packed (contours_from 0 0 lengths.now)) work.old }
{
    // It is the answer too, and so no `enumerate`.
    let mut n: usize = 0;
    for c in Contours::of(lengths) {
        work[n] = Packed::of(c, false).into();
        n += 1;
    }
    n
}

// Moves the number at k down to s, as word, and those from s on up by one.
pub fn move_down(work: &mut [u32], s: usize, k: usize, word: u32)
    requires below { s ≤ k }
    requires inside { k < length work.old }
    ensures { work.new ≡ take s work.old ++ (word ∷ (take (k - s) (drop s work.old) ++ drop (k + 1) work.old)) }
{
    work.copy_within(s..k, s + 1);
    work[s] = word;
}
