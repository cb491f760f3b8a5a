// The lent u32 work slice of the retrace call, cut into parts, and how a part is cleared.
#![tactic(auto)]

ghost use Rattle.std.specs.Prelude.{◌≡◌, ◌+◌, ◌*◌, ◌≤◌, length};
ghost use Rattle.rules.specs.Limits.{most_cells, most_contours, most_path_points, most_points};
ghost use Rattle.work_layout.specs.Laid.{Laid};
ghost use Rattle.work_layout.specs.Parts.{Cleared};

// Where the parts behind the history's begin, and how many points, cells and contours there are. Offsets, and not eight `&mut` slices: a function that
// alters one part reads others, so that a struct of slices would be taken apart and lent anew at each call, and each contract would have to say of every
// slice that it stays. An offset is one number, and that all before it, or from it on, stays is one fact (`KeptBelow`, `KeptFrom`).
// `flags` and `list` serve the listing of cells; `entries` are cached; `heads` and `next` chain the samples of each cell;
// `owners` tells of each vertex whose sample it is; `waiting` is a contour's length while it waits, then 0; `firsts` is its first vertex.
#[derive(Clone, Copy)]
pub struct Layout {
    pub flags: usize,
    pub list: usize,
    pub entries: usize,
    pub heads: usize,
    pub next: usize,
    pub owners: usize,
    pub waiting: usize,
    pub firsts: usize,
    pub points: usize,
    pub cells: usize,
    pub contours: usize,
}

// The parts one after another, from `start` on.
pub fn laid_out(start: usize, points: usize, cells: usize, contours: usize) -> Layout
    requires start { start ≤ most_path_points + most_cells }
    requires points { points ≤ most_points }
    requires cells { cells ≤ most_cells }
    requires contours { contours ≤ most_contours }
    ensures laid { Laid result (start + 3 * cells + 2 * points + 3 * contours) }
    ensures flags { result.flags ≡ start }
    ensures points { result.points ≡ points }
    ensures cells { result.cells ≡ cells }
    ensures contours { result.contours ≡ contours }
{
    let list = start + cells;
    let entries = list + cells;
    let heads = entries + contours;
    let next = heads + cells;
    let owners = next + points;
    let waiting = owners + points;
    Layout {
        flags: start,
        list,
        entries,
        heads,
        next,
        owners,
        waiting,
        firsts: waiting + contours,
        points,
        cells,
        contours,
    }
}

// Sets a part of the slice to 0.
pub fn clear(work: &mut [u32], start: usize, end: usize)
    requires rises { start ≤ end }
    requires inside { end ≤ length work.old }
    ensures { Cleared start end work.old work.new }
{
    work[start..end].fill(0);
}
