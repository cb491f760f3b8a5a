// What the boundary runs share: the limits and the coordinates next to them, slices of points and of marks, and the line that a case prints.
#![tactic(auto)]

ghost use Rattle.std.specs.Prelude.{◌≡◌, ℕ, ◌+◌, ◌-◌, ◌*◌, ◌%◌, ◌≤◌, ◌<◌, pos, Float, get_or, length, set, IfOk};
ghost use Rattle.std.specs.Float.{binary64};
ghost use Rattle.std.specs.Float.Ieee.{of_int};

use std::fmt::Display;
use std::io;
use std::num::nearest_usize_to_f64;

// The limits as the documents set them. None is taken from the code, where a wrong one is to show in a run.
pub const MOST_CONTOURS: usize = 4096;

pub const MOST_POINTS: usize = 65536;

pub const HIGHEST_VERTEX: u32 = 65535;

// What the retrace call's u32 work slice has beside what grows with room, points and contours.
pub const FIXED_WORK: usize = 16384;

// The next float above 1,000,000, and the next below -1,000,000.
pub const ABOVE: f64 = 1000000.000000000116415321826934814453125;

pub const BELOW: f64 = -1000000.000000000116415321826934814453125;

// Lines from (x, 0) to (0, y): what is in the place that the name tells, x and y.
pub const LINES: [(&str, f64, f64); 8] = [
    ("1000000 at 0", 1000000.0, 0.0),
    ("-1000000 at 3", 0.0, -1000000.0),
    ("next above 1000000 at 0", ABOVE, 0.0),
    ("next above 1000000 at 3", 0.0, ABOVE),
    ("next below -1000000 at 0", BELOW, 0.0),
    ("next below -1000000 at 3", 0.0, BELOW),
    ("NaN at 0", f64::NAN, 0.0),
    ("NaN at 3", 0.0, f64::NAN),
];

// Points (0, 0), (1, 0), (2, 0) and so on, of a slice of zeros. By index: behind `chunks_exact_mut` a proof knows how long the slice is, and not
// its elements.
pub fn along(xs: &mut [f64])
    ensures len { length xs.new ≡ length xs.old }
    ensures firsts { (k : ℕ) (d : Float) → 2 * k + 1 < length xs.old → get_or xs.new (2 * k) d ≡ of_int binary64 (pos k) }
    ensures seconds { (k : ℕ) (d : Float) → get_or xs.new (2 * k + 1) d ≡ get_or xs.old (2 * k + 1) d }
{
    for k in 0..xs.len() / 2 {
        xs[2 * k] = nearest_usize_to_f64(k);
    }
}

// n points along a line.
pub fn points_along<R: AllocGlobal>(rt: &R, n: usize) -> io::Result<Vec<f64>>
    requires { 2 * n ≤ usize.MAX }
    ensures len { IfOk result (λ v. length v.items ≡ 2 * n) }
    ensures firsts { IfOk result (λ v. (k : ℕ) (d : Float) → k < n → get_or v.items (2 * k) d ≡ of_int binary64 (pos k)) }
    ensures seconds { IfOk result (λ v. (k : ℕ) (d : Float) → k < n → get_or v.items (2 * k + 1) d ≡ of_int binary64 (pos 0)) }
{
    let mut points = vec![in rt.alloc(); 0.0f64; 2 * n]?;
    along(points.as_mut_slice());
    Ok(points)
}

// Two points in turn: these are their four coordinates.
pub fn to_and_fro(xs: &mut [f64], ends: [f64; 4])
    ensures len { length xs.new ≡ length xs.old }
    ensures each { (k : ℕ) (d : Float) → k < length xs.old → get_or xs.new k d ≡ get_or ends (k % 4) d }
{
    for k in 0..xs.len() {
        xs[k] = ends[k % 4];
    }
}

// Sets the last mark. Its kind is a number, as C has it: one that is none is tried too.
pub fn set_last(marks: &mut [u32], kind: u32, reference: u32)
    ensures last { 2 ≤ length marks.old →
        marks.new ≡ set (set marks.old (length marks.old - 2) kind) (length marks.old - 1) reference }
    ensures none { length marks.old < 2 → marks.new ≡ marks.old }
{
    let n = marks.len();
    if 2 <= n {
        marks[n - 2] = kind;
        marks[n - 1] = reference;
    }
}

// The case's name, the lengths of the slices lent, where they are told, and the call's numbers. What cannot be written is lost, here and in the programs, and the runs go on.
pub fn tell<R: Print, N: Display>(
    rt: &R,
    name: &str,
    lengths: &[usize],
    numbers: &[N],
) -> io::Result<()> {
    let _ = print!(rt; "{name}");
    if !lengths.is_empty() {
        let _ = print!(rt; ", slices of");
        for length in lengths {
            let _ = print!(rt; " {length}");
        }
    }
    let _ = print!(rt; ":");
    for number in numbers {
        let _ = print!(rt; " {number}");
    }
    Ok(())
}
