// Words of a text: sixteen lowercase hexadecimal digits and one separator each, floats as bit patterns. A word that is missing or not
// hexadecimal reads as all ones: no recorded number or answer is that, only a coordinate may be (a NaN).
#![tactic(auto)]

ghost use Rattle.std.specs.Prelude.{◌≡◌, Bool, ℕ, ◌+◌, ◌≤◌, ◌<◌, eqb, min, length, take, drop, MatchOption, IfSome};
ghost use Rattle.run_words.specs.Words.{hex_digit, spelled, word, ends_at, float_of, low_half, words_as, has_bits, unlike};

use std::num::f64_from_bits_with_nan;

// The digits of a word and its separator.
pub const WORD_BYTES: usize = 17;

// No `Option`: `word` of specs/ says all ones for a missing word, and what is read into a slice needs a number.
const NO_WORD: u64 = u64::MAX;

// The value of a hexadecimal digit. `to_digit` takes capital letters too.
#[tactic(auto, unfolding(crate::specs::Words::hex_digit))]
fn digit(b: u8) -> Option<u64>
    ensures value { MatchOption result (hex_digit b ≡ 16) (λ d. d ≡ hex_digit b) }
    ensures below { IfSome result (λ d. d < 16) }
{
    match b {
        b'0'..=b'9' => Some(u64::from(b - b'0')),
        b'a'..=b'f' => Some(u64::from(b - b'a') + 10),
        _ => None,
    }
}

// The number that these digits spell.
fn parse(digits: &[u8]) -> u64
    requires { length digits.now ≤ 16 }
    ensures { result ≡ spelled 0 digits.now }
{
    let mut value: u64 = 0;
    for &b in digits {
        let Some(d) = digit(b) else {
            return NO_WORD;
        };
        value = value * 16 + d;
    }
    value
}

// The word of this number. A function of its own, of a text and a number: a word that is asked for twice is then read once.
#[tactic(auto, using(crate::proofs::Places::present, crate::proofs::Places::missing))]
fn word_at(text: &[u8], number: usize) -> u64
    ensures { result ≡ word text.now number }
{
    if number < text.len() / WORD_BYTES {
        let first = WORD_BYTES * number;
        parse(&text[first..first + 16])
    } else {
        NO_WORD
    }
}

// What a word can be recorded for.
pub trait Recorded: Copy {
    // what a word is taken as, and whether a value is what a word says
    ghost of_word: { ℕ → Self };

    ghost is_word: { Self → ℕ → Bool };

    fn of_word(word: u64) -> Self
        ensures { result ≡ of_word word };

    fn is_word(self, word: u64) -> bool
        ensures { result ≡ is_word self word };
}

// The word is a bit pattern.
impl Recorded for f64 {
    ghost of_word = { float_of };

    ghost is_word = { has_bits };

    // Every NaN pattern is the one NaN.
    fn of_word(word: u64) -> f64 {
        f64_from_bits_with_nan(word)
    }

    // Whether it is a number, or an infinity, with this pattern.
    #[tactic(auto, unfolding(crate::specs::Words::has_bits))]
    fn is_word(self, word: u64) -> bool {
        !self.is_nan() && self.to_bits() == word
    }
}

// The word's low half is the number.
impl Recorded for u32 {
    ghost of_word = { low_half };

    ghost is_word = { eqb };

    fn of_word(word: u64) -> u32 {
        (word % 4294967296) as u32
    }

    fn is_word(self, word: u64) -> bool {
        u64::from(self) == word
    }
}

// A place in a text: the word of this number, or behind the last word.
#[derive(Clone, Copy, Debug, PartialEq, Eq)]
pub struct Place<'a> {
    pub text: &'a [u8],
    pub word: usize,
}

impl<'a> Place<'a> {
    // The place so many words on. No text has a word at the greatest number.
    pub fn after(self, words: usize) -> Place<'a>
        ensures text { result.text.now ≡ self.entry.text.now }
        ensures word { result.word ≡ min (self.entry.word + words) usize.MAX }
    {
        Place {
            text: self.text,
            word: self.word.saturating_add(words),
        }
    }

    // The word that stands here.
    pub fn read(self) -> u64
        ensures { result ≡ word self.entry.text.now self.entry.word }
    {
        word_at(self.text, self.word)
    }

    // Whether the text has as many words as stand before this place, and nothing behind them.
    pub fn is_end(self) -> bool
        ensures { result ≡ ends_at self.entry.text.now self.entry.word }
    {
        self.text.len() / WORD_BYTES == self.word && self.text.len() % WORD_BYTES == 0
    }

    // Each element becomes what its word says: the words from here on.
    pub fn read_into<T: Recorded>(self, xs: &mut [T])
        ensures { xs.new ≡ words_as T.of_word self.entry.text.now self.entry.word (length xs.old) }
    {
        for (k, x) in xs.iter_mut().enumerate() {
            *x = T::of_word(word_at(self.text, self.word.saturating_add(k)));
        }
    }

    // How many of the elements are not the words from here on. No `filter` and `count`: tried, and the proof did not close. What such a chain gives is found
    // where the clause is a `count_by` of the numbered elements, and `unlike` of specs/ goes from word to word.
    pub fn unlike<T: Recorded>(self, xs: &[T]) -> usize
        ensures { result ≡ unlike T.is_word self.entry.text.now self.entry.word xs.now }
    {
        let mut differ: usize = 0;
        for (k, x) in xs.iter().enumerate() {
            if !x.is_word(word_at(self.text, self.word.saturating_add(k))) {
                differ += 1;
            }
        }
        differ
    }
}
