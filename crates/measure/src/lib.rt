// A path's totals: how many cuts, back-steps, jumps and touches it has, and how long they are.
#![tactic(auto)]

ghost use Rattle.std.specs.Prelude.{◌≡◌, suc, ◌*◌, ◌/◌, ◌≤◌, ◌<◌, length};
ghost use Rattle.rules.specs.Limits.{most_path_points};
ghost use Rattle.rules.specs.HandedOver.{at};
ghost use Rattle.rules.specs.Lengths as rule;
ghost use Rattle.rules.specs.Calls as calls;
ghost use Rattle.length_laws.specs.WalkedPath.{PointOnPlate, Walked};
ghost use Rattle.length_laws.specs.RunningTotals.{added, Within};
ghost use Rattle.measure.specs.LengthsKept.{LengthsKept};

use magnitude::cast::truncated;
use point::distance;
use rules::{BACK_STEP, CUT, JUMP, Point, TOUCH, Totals, point_in};

// The length of a pair of points: the plain distance in 1,024ths, rounded down. Times 1,024 is exact.
pub fn pair_length(a: Point, b: Point) -> u32
    requires first { PointOnPlate a }
    requires second { PointOnPlate b }
    ensures { result ≡ rule.pair_length a b }
{
    truncated(distance(a, b) * 1024.0)
}

// The length of pair k, of path points k and k + 1; it is kept at place k. A back-step is as long as the pair that it reverses, whose length is kept: so one
// root is taken for each segment, jump and touch, however often the path is walked back.
fn measured(path: &[f64], marks: &[u32], kept: &mut [u32], k: usize) -> u32
    requires walked { Walked path.now marks.now (length path.now / 2) }
    requires pair { suc k < length path.now / 2 }
    requires room { length path.now / 2 ≤ length kept.old }
    requires kept { LengthsKept kept.old path.now k }
    ensures length { result ≡ rule.pair_length (at path.now k) (at path.now (suc k)) }
    ensures kept { LengthsKept kept.new path.now (suc k) }
{
    let mark = 2 * k + 2;
    let length = if marks[mark] == BACK_STEP {
        kept[marks[mark + 1] as usize]
    } else {
        pair_length(point_in(path, k), point_in(path, k + 1))
    };
    kept[k] = length;
    length
}

// One mark more, of a kind, and the length of the pair that it ends.
fn add(totals: &mut Totals, kind: u32, length: u32)
    requires { Within totals.old most_path_points }
    ensures { totals.new ≡ added totals.old kind length }
{
    let length = u64::from(length);
    match kind {
        CUT => {
            totals.cuts += 1;
            totals.cut_length += length;
        }
        BACK_STEP => {
            totals.back_steps += 1;
            totals.back_step_length += length;
        }
        JUMP => {
            totals.jumps += 1;
            totals.jump_length += length;
        }
        TOUCH => {
            totals.touches += 1;
            totals.jump_length += length;
        }
        _ => (),
    }
}

// The totals of a path of n points. `path` and `marks` hold its points and nothing else; `kept` takes the lengths of its pairs.
pub fn totals(path: &[f64], marks: &[u32], n: u32, kept: &mut [u32]) -> Totals
    requires walked { Walked path.now marks.now n }
    requires few { n ≤ most_path_points }
    requires room { n ≤ length kept.old }
    ensures { result ≡ calls.totals n path.now marks.now }
{
    let pairs = (n as usize).saturating_sub(1);
    let mut totals = Totals {
        points: n,
        ..Totals::default()
    };
    for k in 0..pairs {
        let length = measured(path, marks, &mut *kept, k);
        add(&mut totals, marks[2 * k + 2], length);
    }
    totals
}
