// Replays a text of recorded rows: the first word is the number of rows, and each row tells where the next begins.
#![tactic(auto)]

ghost use Rattle.std.specs.Prelude.{◌≡◌, ◌+◌, ◌-◌, ◌/◌, ◌≤◌, ◌&&◌, eqb, min, length, IfOk, IfSome};
ghost use Rattle.run_words.specs.Words.{float_of, low_half, words_as, unlike};
ghost use Rattle.run_rows.specs.Starts.{start};

use run_words::{Place, Recorded, WORD_BYTES};
use std::alloc::{AllocError, Global};
use std::io;
use std::io::{ErrorKind, Read};

// A row that was read: whether the call answers what it says, and the place behind it.
#[derive(Clone, Copy, Debug, PartialEq, Eq)]
pub struct RowOutcome<'a> {
    pub agrees: bool,
    pub end: Place<'a>,
}

// How many of the rows differ. A broken row, with a size above its limit, counts as one that differs, and is the last that is read, since
// what follows it cannot be; a text that does not end with the last row has one more that differs.
fn differing<F: Fn(Global, Place<'_>) -> Result<Option<RowOutcome<'_>>, AllocError>>(
    alloc: Global,
    first: Place<'_>,
    rows: u64,
    row_at: F,
) -> Result<u64, AllocError>
    requires { F.IsAlwaysCallable row_at }
{
    let mut differ: u64 = 0;
    let mut at = first;
    for _row in 0..rows {
        let Some(row) = row_at(alloc, at)? else {
            return Ok(differ.saturating_add(1));
        };
        differ = differ.saturating_add(u64::from(!row.agrees));
        at = row.end;
    }
    Ok(differ.saturating_add(u64::from(!at.is_end())))
}

// Replays standard input, a text of less than `room` bytes and at most `most` rows, and prints how many rows there were and how many differed.
// No more than `room` bytes are read. A read that fails ends the text, and a line that cannot be written is lost: neither is an error of the run.
pub fn replay<
    R: Input + Print + AllocGlobal,
    F: Fn(Global, Place<'_>) -> Result<Option<RowOutcome<'_>>, AllocError>,
>(rt: &R, room: usize, most: u64, row_at: F) -> io::Result<()>
    requires { F.IsAlwaysCallable row_at }
{
    let mut text = Vec::new(rt.alloc());
    if let Err(e) = rt.reader().take(room as u64).read_to_end(&mut text) {
        if e.kind() == ErrorKind::OutOfMemory {
            return Err(e);
        }
    }
    let head = Place {
        text: text.as_slice(),
        word: 0,
    };
    let rows = head.read();
    if room <= text.len() || most < rows {
        let _ = println!(rt; "no list");
        return Ok(());
    }
    let differ = differing(rt.alloc(), head.after(1), rows, row_at)?;
    let _ = println!(rt; "{rows} rows, {differ} differ");
    Ok(())
}

// What so many words say, from this place on.
pub fn words_at<T: Recorded + Drop>(
    alloc: Global,
    at: Place<'_>,
    n: usize,
) -> Result<Vec<T>, AllocError>
    ensures { IfOk result (λ v. v.items ≡ words_as T.of_word at.entry.text.now at.entry.word n) }
{
    let mut xs = vec![in alloc; T::of_word(0); n]?;
    at.read_into(xs.as_mut_slice());
    Ok(xs)
}

// The sizes that a row begins with: none where one is no u32, or where the text has no such word.
pub fn sizes_at<const N: usize>(at: Place<'_>) -> Option<[u32; N]>
    ensures there { IfSome result (λ s. at.entry.word ≤ length at.entry.text.now / 17) }
    ensures read { IfSome result (λ s. s ≡ words_as low_half at.entry.text.now at.entry.word N) }
    ensures fit { IfSome result (λ s. unlike eqb at.entry.text.now at.entry.word s ≡ 0) }
{
    let mut sizes = [0u32; N];
    at.read_into(&mut sizes);
    if at.text.len() / WORD_BYTES < at.word || at.unlike(&sizes) != 0 {
        return None;
    }
    Some(sizes)
}

// Where a recorded path starts. The programs match on it, and take no closure: each call has a name for either case, with other parameters.
#[derive(Clone, Copy)]
pub enum Start {
    Centre {
        width: u32,
        height: u32,
        inside: bool,
    },
    Home {
        x: f64,
        y: f64,
    },
}

// The start that a row tells: 0 for Outside, 1 for Inside or 2 for Home, whose point stands here.
#[tactic(auto, unfolding(run_words::specs::Words::words_as))]
pub fn start_at(at: Place<'_>, width: u32, height: u32, strategy: u32) -> Option<Start>
    ensures { result ≡ start at.entry.text.now at.entry.word width height strategy }
{
    match strategy {
        0 | 1 => Some(Start::Centre {
            width,
            height,
            inside: strategy == 1,
        }),
        2 => {
            let mut home = [0.0f64; 2];
            at.read_into(&mut home);
            let [x, y] = home;
            Some(Start::Home { x, y })
        }
        _ => None,
    }
}

// What the calls on a recorded plate are handed.
#[derive(Drop)]
pub struct RowPlate {
    pub points: Vec<f64>,
    pub lengths: Vec<u32>,
    pub layers: Vec<u32>,
    pub start: Start,
    // Whether each length and each layer is a u32. No `Option` of a plate: the calls are made on one that does not fit, too.
    pub fits: bool,
}

impl RowPlate {
    // Points, lengths and layers.
    pub fn slices(&self) -> (&[f64], &[u32], &[u32])
        ensures points { result.0.now ≡ self.now.points.items }
        ensures lengths { result.1.now ≡ self.now.lengths.items }
        ensures layers { result.2.now ≡ self.now.layers.items }
    {
        (
            self.points.as_slice(),
            self.lengths.as_slice(),
            self.layers.as_slice(),
        )
    }
}

// Where the parts of a plate begin, and where the last of them ends.
#[derive(Clone, Copy)]
pub struct Parts<'a> {
    pub points: Place<'a>,
    pub lengths: Place<'a>,
    pub layers: Place<'a>,
    pub end: Place<'a>,
}

// The parts of a plate whose coordinates start here: how many coordinates, lengths and layers there are.
pub fn parts_at(at: Place<'_>, coordinates: usize, contours: usize, layered: usize) -> Parts<'_>
    ensures points { result.points ≡ at.entry }
    ensures lengths_text { result.lengths.text.now ≡ at.entry.text.now }
    ensures lengths { result.lengths.word ≡ min (at.entry.word + coordinates) usize.MAX }
    ensures layers_text { result.layers.text.now ≡ at.entry.text.now }
    ensures layers { result.layers.word ≡ min (result.lengths.word + contours) usize.MAX }
    ensures end_text { result.end.text.now ≡ at.entry.text.now }
    ensures end { result.end.word ≡ min (result.layers.word + layered) usize.MAX }
{
    let lengths = at.after(coordinates);
    let layers = lengths.after(contours);
    Parts {
        points: at,
        lengths,
        layers,
        end: layers.after(layered),
    }
}

// What the words from one place to another say.
fn words_between<T: Recorded + Drop>(
    alloc: Global,
    from: Place<'_>,
    to: Place<'_>,
) -> Result<Vec<T>, AllocError>
    ensures { IfOk result (λ v. v.items ≡ words_as T.of_word from.entry.text.now from.entry.word (to.entry.word - from.entry.word)) }
{
    words_at(alloc, from, to.word.saturating_sub(from.word))
}

// The plate whose parts stand at these places.
pub fn plate_at(alloc: Global, at: Parts<'_>, start: Start) -> Result<RowPlate, AllocError>
    ensures points { let from = at.entry.points in let to = at.entry.lengths in
        IfOk result (λ p. p.points.items ≡ words_as float_of from.text.now from.word (to.word - from.word)) }
    ensures lengths { let from = at.entry.lengths in let to = at.entry.layers in
        IfOk result (λ p. p.lengths.items ≡ words_as low_half from.text.now from.word (to.word - from.word)) }
    ensures layers { let from = at.entry.layers in let to = at.entry.end in
        IfOk result (λ p. p.layers.items ≡ words_as low_half from.text.now from.word (to.word - from.word)) }
    ensures start { IfOk result (λ p. p.start ≡ start) }
    ensures fits { let l = at.entry.lengths in let m = at.entry.layers in IfOk result
        (λ p. p.fits ≡ (eqb (unlike eqb l.text.now l.word p.lengths.items) 0 && eqb (unlike eqb m.text.now m.word p.layers.items) 0)) }
{
    let points = words_between(alloc, at.points, at.lengths)?;
    let lengths = words_between(alloc, at.lengths, at.layers)?;
    let layers = words_between(alloc, at.layers, at.end)?;
    let fits = at.lengths.unlike(lengths.as_slice()) == 0
        && at.layers.unlike(layers.as_slice()) == 0;
    Ok(RowPlate {
        points,
        lengths,
        layers,
        start,
        fits,
    })
}
