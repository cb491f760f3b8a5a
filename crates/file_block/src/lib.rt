// One block of a plate file (document 02, ticket 2): 512 bytes, written and tested.
#![tactic(auto)]

ghost use Rattle.std.specs.Prelude.{◌≡◌, ◌*◌, ◌/◌, ◌≤◌, eqb, length};
ghost use Rattle.std.specs.Float.{binary64};
ghost use Rattle.std.specs.Float.Ieee.{of_bits};
ghost use Rattle.rules.specs.HandedOver.{in_range, plate_limit, first_off};
ghost use Rattle.plate_laws.specs.Lists.{All};
ghost use Rattle.little_endian.specs.Bytes.{from_bytes, floats};
ghost use Rattle.little_endian.specs.Numbers.{NoNan};
ghost use Rattle.file_format.specs.PlateFile.{block, count_in, sound};
ghost use Rattle.file_block.specs.Checks.{Checked};

use file_format::{
    BLOCK_BYTES, BLOCK_POINTS, COUNT_AT, FIRST_CHECK_AT, PLACES_AT, SECOND_CHECK_AT, ZEROS_AT,
};
use little_endian::{put, put_f64s, read};
use plate::{PLATE_LIMIT, in_range};

const SIGN_BIT: u64 = 1 << 63;

const INFINITY_BITS: u64 = f64::to_bits(f64::INFINITY);

// The two checks of a block.
#[derive(Clone, Copy)]
struct Checks {
    first: u64,
    second: u64,
}

// 126 words: their sums stay far below 2^64, so that one remainder at the end is enough. (No `from_le_bytes` here and in `all_on_plate`: its contract has
// another definition of the number, a sum over the bytes. `read`'s is that of the whole file format, so that one definition serves all.)
fn sum_words(bytes: &[u8]) -> Checks
    requires { 504 ≤ length bytes.now }
    ensures { Checked bytes.now result.first result.second }
{
    let mut first: u64 = 0;
    let mut second: u64 = 0;
    let (words, _) = bytes[..FIRST_CHECK_AT].as_chunks::<4>();
    for word in words {
        first += read::<4>(word, 0);
        second += first;
    }
    Checks {
        first: first % 4294967296,
        second: second % 4294967296,
    }
}

// Block `number`, of the coordinates of up to 31 points.
pub fn write_block(bytes: &mut [u8], number: u64, coordinates: &[f64])
    requires whole { length bytes.old ≡ 512 }
    requires few { length coordinates.now ≤ 62 }
    requires numbers { All NoNan coordinates.now }
    ensures { bytes.new ≡ block number coordinates.now }
{
    put::<4>(bytes, 0, number);
    put::<2>(bytes, COUNT_AT, (coordinates.len() / 2) as u64);
    put::<2>(bytes, ZEROS_AT, 0);
    put_f64s(bytes, PLACES_AT, coordinates);
    bytes[PLACES_AT + 8 * coordinates.len()..FIRST_CHECK_AT].fill(0);
    let checks = sum_words(bytes);
    put::<4>(bytes, FIRST_CHECK_AT, checks.first);
    put::<4>(bytes, SECOND_CHECK_AT, checks.second);
}

// Whether all the bytes are zeros.
fn is_clear(bytes: &[u8]) -> bool
    ensures { result ≡ eqb (from_bytes bytes.now) 0 }
{
    for &b in bytes {
        if b != 0 {
            return false;
        }
    }
    true
}

// Whether a bit pattern is that of a number on the plate: a pattern beyond the infinities' is a NaN's. No `is_nan`: `from_bits` takes no pattern of a NaN.
fn on_plate(bits: u64) -> bool
    ensures { result ≡ in_range plate_limit (of_bits binary64 bits) }
{
    if INFINITY_BITS < bits % SIGN_BIT {
        return false;
    }
    in_range(PLATE_LIMIT, f64::from_bits(bits))
}

// Whether the coordinates whose bit patterns these are are on the plate.
fn all_on_plate(places: &[u8]) -> bool
    ensures { let n = length places.now / 8 in result ≡ eqb (first_off plate_limit 0 (floats n places.now)) n }
{
    let (patterns, _) = places.as_chunks::<8>();
    patterns
        .iter()
        .all(|pattern| on_plate(read::<8>(pattern, 0)))
}

pub fn count_in(bytes: &[u8; BLOCK_BYTES]) -> usize
    ensures { result ≡ count_in bytes.now }
{
    read::<2>(bytes, COUNT_AT) as usize
}

// Whether 512 bytes are block `number`, undamaged.
pub fn is_sound(bytes: &[u8; BLOCK_BYTES], number: u64) -> bool
    ensures { result ≡ sound number bytes.now }
{
    if read::<4>(bytes, 0) != number {
        return false;
    }
    let n = count_in(bytes);
    if BLOCK_POINTS < n {
        return false;
    }
    if read::<2>(bytes, ZEROS_AT) != 0 {
        return false;
    }
    let unused = PLACES_AT + 16 * n;
    if !is_clear(&bytes[unused..FIRST_CHECK_AT]) {
        return false;
    }
    let checks = sum_words(bytes);
    if read::<4>(bytes, FIRST_CHECK_AT) != checks.first {
        return false;
    }
    if read::<4>(bytes, SECOND_CHECK_AT) != checks.second {
        return false;
    }
    all_on_plate(&bytes[PLACES_AT..unused])
}
