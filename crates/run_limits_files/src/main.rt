// Boundary runs of the plate file's calls (document 02, ticket 2): for each case one line with its name, the lengths of the path and the
// file slice, the call's three numbers, and how many elements of the output it altered, those beyond its slice counted.
#![tactic(auto)]

ghost use Rattle.std.specs.Prelude.{◌≤◌};

use run_boundary::{ABOVE, BELOW, tell};
use std::io;
use twillharbor::{twillharbor_read_file, twillharbor_write_file};

// What a file slice holds in each byte when it is lent, and a path slice in each place.
const LENT_BYTE: u8 = 165;

const LENT_PLACE: f64 = 100.0;

const MOST_BYTES: usize = 1600;

const MOST_PLACES: usize = 130;

// The write call with a file slice of this length.
fn write<R: Print>(rt: &R, name: &str, path: &[f64], room: usize) -> io::Result<()>
    requires { room ≤ 1600 }
{
    let mut file = [LENT_BYTE; MOST_BYTES];
    let r = twillharbor_write_file(path, &mut file[..room]);
    let altered = file.iter().filter(|&&byte| byte != LENT_BYTE).count();
    let numbers = [r.number, r.place, r.bytes];
    tell(rt, name, &[path.len(), room], &numbers)?;
    let _ = println!(rt; ", altered {altered}");
    Ok(())
}

// The read call with a path slice of this length.
fn read<R: Print>(rt: &R, name: &str, file: &[u8], room: usize) -> io::Result<()>
    requires { room ≤ 130 }
{
    let mut path = [LENT_PLACE; MOST_PLACES];
    let r = twillharbor_read_file(file, &mut path[..room]);
    let altered = path.iter().filter(|&&place| place != LENT_PLACE).count();
    let numbers = [r.number, r.place, r.points];
    tell(rt, name, &[room, file.len()], &numbers)?;
    let _ = println!(rt; ", altered {altered}");
    Ok(())
}

// A path of two points, the file slice just long enough and too short.
fn line<R: Print>(rt: &R, name: &str, ax: f64, by: f64) -> io::Result<()> {
    let path = [ax, 0.0, 0.0, by];
    write(rt, name, &path, 512)?;
    write(rt, name, &path, 0)
}

fn coordinates<R: Print>(rt: &R) -> io::Result<()> {
    line(rt, "write, 1000000 at 0", 1000000.0, 0.0)?;
    line(rt, "write, -1000000 at 3", 0.0, -1000000.0)?;
    line(rt, "write, next above 1000000 at 0", ABOVE, 0.0)?;
    line(rt, "write, next above 1000000 at 3", 0.0, ABOVE)?;
    line(rt, "write, next below -1000000 at 0", BELOW, 0.0)?;
    line(rt, "write, next below -1000000 at 3", 0.0, BELOW)?;
    line(rt, "write, NaN at 0", f64::NAN, 0.0)?;
    line(rt, "write, NaN at 3", 0.0, f64::NAN)?;
    line(rt, "write, infinity at 0", f64::INFINITY, 0.0)?;
    line(rt, "write, -infinity at 3", 0.0, f64::NEG_INFINITY)
}

// Each case: how many coordinates of 1/2, and the length of the file slice.
fn written<R: Print>(rt: &R) -> io::Result<()> {
    let path = [0.5f64; 128];
    for (numbers, room) in [
        (0usize, 0usize),
        (0, 511),
        (0, 512),
        (0, 513),
        (1, 512),
        (1, 0),
        (2, 512),
        (3, 512),
        (60, 512),
        (61, 512),
        (62, 512),
        (62, 1023),
        (62, 1024),
        (62, 1025),
        (63, 1024),
        (64, 1024),
        (122, 1024),
        (124, 1024),
        (124, 1535),
        (124, 1536),
        (124, 1537),
        (125, 1536),
        (126, 1536),
    ] {
        write(rt, "write", &path[..numbers.min(128)], room.min(MOST_BYTES))?;
    }
    Ok(())
}

// The first bytes of the file of so many coordinates of 1/2 and of zeros behind it: each case has the number of coordinates, and the
// lengths of the file and the path slice.
fn read_parts<R: Print>(rt: &R, cases: &[(usize, usize, usize)]) -> io::Result<()> {
    let path = [0.5f64; 128];
    for &(numbers, length, room) in cases {
        let mut file = [0u8; 2048];
        let _ = twillharbor_write_file(&path[..numbers.min(128)], &mut file);
        read(rt, "read", &file[..length.min(2048)], room.min(MOST_PLACES))?;
    }
    Ok(())
}

fn one_block<R: Print>(rt: &R) -> io::Result<()> {
    read_parts(
        rt,
        &[
            (60, 0, 60),
            (60, 1, 60),
            (60, 511, 60),
            (60, 512, 60),
            (60, 512, 59),
            (60, 512, 61),
            (60, 512, 0),
            (60, 513, 60),
            (60, 1024, 0),
        ],
    )
}

fn more_blocks<R: Print>(rt: &R) -> io::Result<()> {
    read_parts(
        rt,
        &[
            (62, 511, 62),
            (62, 512, 62),
            (62, 700, 62),
            (62, 1023, 62),
            (62, 1024, 62),
            (62, 1024, 61),
            (62, 1024, 63),
            (62, 1025, 62),
            (124, 1024, 124),
            (124, 1535, 124),
            (124, 1536, 124),
            (124, 1536, 123),
            (124, 2048, 124),
            (126, 1536, 126),
        ],
    )
}

// 1,024 zeros, the first 512 of which are the file of no point, with one byte altered.
fn read_altered<R: Print>(
    rt: &R,
    name: &str,
    place: usize,
    value: u8,
    length: usize,
) -> io::Result<()>
    requires place_bound { place ≤ 1023 }
    requires length_len_bound { length ≤ 1024 }
{
    let mut file = [0u8; 1024];
    file[place] = value;
    read(rt, name, &file[..length], 62)
}

fn zeros<R: Print>(rt: &R) -> io::Result<()> {
    read_altered(rt, "read zeros", 1023, 0, 0)?;
    read_altered(rt, "read zeros", 1023, 0, 511)?;
    read_altered(rt, "read zeros", 1023, 0, 512)?;
    read_altered(rt, "read zeros", 1023, 0, 513)?;
    read_altered(rt, "read zeros", 1023, 0, 1024)?;
    read_altered(rt, "read zeros, 1 at 512", 512, 1, 1024)?;
    read_altered(rt, "read zeros, 1 at 0", 0, 1, 512)?;
    read_altered(rt, "read zeros, 1 at 4", 4, 1, 512)?;
    read_altered(rt, "read zeros, 32 at 4", 4, 32, 512)?;
    read_altered(rt, "read zeros, 1 at 5", 5, 1, 512)?;
    read_altered(rt, "read zeros, 1 at 7", 7, 1, 512)?;
    read_altered(rt, "read zeros, 128 at 503", 503, 128, 512)?;
    read_altered(rt, "read zeros, 1 at 504", 504, 1, 512)?;
    read_altered(rt, "read zeros, 1 at 511", 511, 1, 512)?;
    read_altered(rt, "read zeros, 1 at 511", 511, 1, 1024)?;
    read_altered(rt, "read zeros, 1 at 511", 511, 1, 511)
}

fn main(rt: HostRuntime) -> io::Result<()> {
    coordinates(&rt)?;
    written(&rt)?;
    one_block(&rt)?;
    more_blocks(&rt)?;
    zeros(&rt)
}
