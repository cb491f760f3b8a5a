// Replays recorded plate files by the write and the read call. Standard input holds them as words (crate `run_words`): the number of rows, then
// the rows. A row has six words (the lengths of the path and the file slice; the write call's number, place and bytes; the number of
// readings), the path, the file slice as the call leaves it, eight bytes to a word, and the readings. A reading has seven words (where
// what is read begins and ends in the written file twice over, the length of the path slice, the number of altered bytes; the read call's
// number, place and points), a word for each altered byte, its place times 256 and its value, and the path slice as the call leaves it.
// Prints how many rows there were and how many differed.
#![tactic(auto)]

use run_rows::{RowOutcome, replay, sizes_at, words_at};
use run_words::Place;
use std::alloc::{AllocError, Global};
use std::io;
use twillharbor::{twillharbor_read_file, twillharbor_write_file};

// A text of as many bytes, or more, is no list.
const ROOM: usize = 262144;

const MOST_ROWS: u64 = 15420;

// What a file slice holds in each byte when it is lent.
const LENT: u8 = 165;

// Three blocks twice over.
const TWICE: usize = 3072;

// Byte k of the words from this place on: the first byte of a word is its two highest digits.
fn byte_at(at: Place<'_>, k: usize) -> u8 {
    at.after(k / 8).read().to_be_bytes()[k % 8]
}

// Whether the bytes are those of the words from this place on.
fn bytes_agree(at: Place<'_>, bytes: &[u8]) -> bool {
    bytes
        .iter()
        .enumerate()
        .all(|(k, &byte)| byte == byte_at(at, k))
}

// Where a file's words begin, and how many bytes it has.
#[derive(Clone, Copy)]
struct File<'a> {
    words: Place<'a>,
    bytes: usize,
}

impl<'a> File<'a> {
    // The file twice over, or bytes that are as lent where it has none.
    fn twice(self, alloc: Global) -> Result<Vec<u8>, AllocError> {
        let mut bytes = vec![in alloc; LENT; TWICE]?;
        if self.bytes == 0 {
            return Ok(bytes);
        }
        for (k, byte) in bytes.iter_mut().enumerate() {
            *byte = byte_at(self.words, k % self.bytes);
        }
        Ok(bytes)
    }
}

// Alters as many bytes as `count` says: those of the words from this place on, each a place times 256 and a value.
fn alter(at: Place<'_>, count: usize, bytes: &mut [u8]) {
    for k in 0..count {
        let w = at.after(k).read();
        if let Some(byte) = bytes.get_mut((w / 256) as usize) {
            *byte = (w % 256) as u8;
        }
    }
}

// What is read: from where to where, into how long a slice, after how many bytes were altered.
#[derive(Clone, Copy)]
struct ReadRange {
    from: usize,
    to: usize,
    room: usize,
    altered: usize,
}

// A reading that begins here. One with a size above its limit is broken, and what follows it cannot be read.
fn sized_reading<'a>(
    alloc: Global,
    at: Place<'a>,
    file: File<'_>,
    r: ReadRange,
) -> Result<Option<RowOutcome<'a>>, AllocError> {
    if TWICE < r.to || r.to < r.from || 192 < r.room || 64 < r.altered {
        return Ok(None);
    }
    let alterations = at.after(7);
    let then = alterations.after(r.altered);
    let mut bytes = file.twice(alloc)?;
    alter(alterations, r.altered, bytes.as_mut_slice());
    let mut path = vec![in alloc; 100.0f64; r.room]?;
    let Some(part) = bytes.as_slice().get(r.from..r.to) else {
        return Ok(None);
    };
    let read = twillharbor_read_file(part, path.as_mut_slice());
    let numbers = [read.number, read.place, read.points];
    let agrees = at.after(4).unlike(&numbers) == 0 && then.unlike(path.as_slice()) == 0;
    Ok(Some(RowOutcome {
        agrees,
        end: then.after(r.room),
    }))
}

// The reading that begins here.
fn reading_at<'a>(
    alloc: Global,
    at: Place<'a>,
    file: File<'_>,
) -> Result<Option<RowOutcome<'a>>, AllocError> {
    let Some(sizes) = sizes_at::<4>(at) else {
        return Ok(None);
    };
    let [from, to, room, altered] = sizes;
    let r = ReadRange {
        from: from as usize,
        to: to as usize,
        room: room as usize,
        altered: altered as usize,
    };
    sized_reading(alloc, at, file, r)
}

// The readings of a file, the first at the end of `row`: whether all agree, and the row before them.
fn readings_at<'a>(
    alloc: Global,
    row: RowOutcome<'a>,
    file: File<'_>,
    readings: u32,
) -> Result<Option<RowOutcome<'a>>, AllocError> {
    let mut whole = row;
    for _reading in 0..readings {
        let Some(reading) = reading_at(alloc, whole.end, file)? else {
            return Ok(None);
        };
        whole = RowOutcome {
            agrees: whole.agrees && reading.agrees,
            end: reading.end,
        };
    }
    Ok(Some(whole))
}

// The lengths of a row's slices, how many bytes were written, and how many readings there are.
#[derive(Clone, Copy)]
struct FileSizes {
    path: usize,
    room: usize,
    bytes: usize,
    readings: u32,
}

// A row that begins here: the write call, then the readings.
fn sized_row<'a>(
    alloc: Global,
    at: Place<'a>,
    s: FileSizes,
) -> Result<Option<RowOutcome<'a>>, AllocError> {
    if 128 < s.path || 1600 < s.room {
        return Ok(None);
    }
    let words = at.after(6).after(s.path);
    let path = words_at(alloc, at.after(6), s.path)?;
    let mut file = vec![in alloc; LENT; s.room]?;
    let r = twillharbor_write_file(path.as_slice(), file.as_mut_slice());
    let same = bytes_agree(words, file.as_slice());
    let row = RowOutcome {
        agrees: at.after(2).unlike(&[r.number, r.place, r.bytes]) == 0 && same,
        end: words.after(s.room.div_ceil(8)),
    };
    let written = File {
        words,
        bytes: s.bytes,
    };
    readings_at(alloc, row, written, s.readings)
}

// The row that begins here.
fn row_at(alloc: Global, at: Place<'_>) -> Result<Option<RowOutcome<'_>>, AllocError> {
    let Some(sizes) = sizes_at::<6>(at) else {
        return Ok(None);
    };
    let [path, room, _, _, bytes, readings] = sizes;
    let handed = FileSizes {
        path: path as usize,
        room: room as usize,
        bytes: bytes as usize,
        readings,
    };
    sized_row(alloc, at, handed)
}

fn main(rt: HostRuntime) -> io::Result<()> {
    replay(&rt, ROOM, MOST_ROWS, row_at)
}
