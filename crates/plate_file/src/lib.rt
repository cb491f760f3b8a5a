// The plate file (document 02, ticket 2): the writer and the reader.
#![tactic(auto)]

ghost use Rattle.std.specs.Prelude.{◌≡◌, ◌+◌, ◌*◌, ◌/◌, ◌≤◌, length};
ghost use Rattle.rules.specs.HandedOver.{answer_of, gives, over};
ghost use Rattle.plate_laws.specs.Lists.{All};
ghost use Rattle.little_endian.specs.Numbers.{NoNan};
ghost use Rattle.file_format.specs.PlateFile.{write_file, read_file, coordinates_of, write_call, read_call};
ghost use Rattle.file_laws.specs.PointCounts.{counted};

use file_block::{count_in, is_sound, write_block};
use file_format::{BLOCK_BYTES, BLOCK_POINTS, PLACES_AT};
use little_endian::read_f64s;
use plate::{PLATE_LIMIT, check_range};
use rules::{MOST_PATH_POINTS, Refusal};

// The coordinates of a full block.
const BLOCK_NUMBERS: usize = 62;

// The file of a path that has room.
fn write_blocks(path: &[f64], file: &mut [u8])
    requires room { 512 * (length path.now / 62 + 1) ≤ length file.old }
    requires numbers { All NoNan path.now }
    ensures { file.new ≡ over (write_file path.now) file.old }
{
    // By an index: of the blocks that chunks_exact_mut lends, a proof knows no element afterwards. The path is cut by the same index, since its last share
    // may be empty, which chunks would leave out.
    for i in 0..path.len() / BLOCK_NUMBERS + 1 {
        let from = BLOCK_BYTES * i;
        let left = &path[BLOCK_NUMBERS * i..];
        let share = left.len().min(BLOCK_NUMBERS);
        write_block(
            &mut file[from..from + BLOCK_BYTES],
            i as u64,
            &left[..share],
        );
    }
}

// The writer: the file of a path, which is a caller's slice of coordinates. It gives how many bytes the file has.
pub fn write_file(path: &[f64], file: &mut [u8]) -> Result<u32, Refusal>
    ensures answer { answer_of result ≡ (write_call path.now file.old).answer }
    ensures file { file.new ≡ (write_call path.now file.old).file }
{
    let points = path.len() / 2;
    if MOST_PATH_POINTS < points {
        return Err(Refusal::TooManyPoints);
    }
    if path.len() % 2 != 0 {
        return Err(Refusal::Miscounted);
    }
    check_range(PLATE_LIMIT, path)?;
    let bytes = BLOCK_BYTES * (points / BLOCK_POINTS + 1);
    if file.len() < bytes {
        return Err(Refusal::Full(0));
    }
    write_blocks(path, file);
    Ok(bytes as u32)
}

// What the blocks of a file say: how many points there are, or why it is refused.
fn scan_blocks(file: &[u8]) -> Result<u32, Refusal>
    ensures { answer_of result ≡ counted (read_file file.now) }
{
    let (blocks, _) = file.as_chunks::<BLOCK_BYTES>();
    for (i, block) in blocks.iter().enumerate() {
        if !is_sound(block, i as u64) {
            return Err(Refusal::BlockDamaged(i as u32));
        }
        let n = count_in(block);
        let total = BLOCK_POINTS * i + n;
        if MOST_PATH_POINTS < total {
            return Err(Refusal::TooManyPoints);
        }
        if n < BLOCK_POINTS {
            let to = BLOCK_BYTES * (i + 1);
            if to < file.len() {
                return Err(Refusal::WrongEnd(to as u32));
            }
            return Ok(total as u32);
        }
    }
    Err(Refusal::WrongEnd(file.len() as u32))
}

// The coordinates of a file that reads as so many.
fn copy_blocks(file: &[u8], path: &mut [f64])
    requires whole { length path.old ≡ 2 * (length path.old / 2) }
    requires reads { counted (read_file file.now) ≡ gives (length path.old / 2) }
    ensures { path.new ≡ coordinates_of (read_file file.now) }
{
    let (blocks, _) = file.as_chunks::<BLOCK_BYTES>();
    // The path is cut by an index: of the shares that chunks_mut lends, a proof knows no element afterwards.
    for (i, block) in blocks.iter().enumerate() {
        let from = BLOCK_NUMBERS * i;
        let share = (path.len() - from).min(BLOCK_NUMBERS);
        read_f64s(block, PLACES_AT, &mut path[from..from + share]);
    }
}

// The reader: nothing is written before every test has passed. It gives how many points were read.
pub fn read_file(file: &[u8], path: &mut [f64]) -> Result<u32, Refusal>
    ensures answer { answer_of result ≡ (read_call file.now path.old).answer }
    ensures path { path.new ≡ (read_call file.now path.old).path }
{
    let points = scan_blocks(file)?;
    let numbers = 2 * points as usize;
    if path.len() < numbers {
        return Err(Refusal::Full(0));
    }
    copy_blocks(file, &mut path[..numbers]);
    Ok(points)
}
