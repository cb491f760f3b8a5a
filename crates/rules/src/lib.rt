// The declared types and constants of the documents. Their definitions, in specs/, count path places and vertex numbers in ℕ.
#![tactic(auto)]

ghost use Rattle.std.specs.Prelude.{◌≡◌, ◌+◌, ◌*◌, ◌<◌, ◌≤◌, ◌↔◌, length, IsSome, IfSome};
ghost use Rattle.rules.specs.HandedOver.{at};
ghost use Rattle.rules.specs.Marks.{touch_kind, kind_of, reference_of};

// Home carries the parked point.
#[derive(Clone, Copy)]
pub enum StartPointStrategy {
    Outside,
    Inside,
    Home(Point),
}

// Two points are equal (`==`) where their coordinates are as numbers: 0 and −0 are.
#[derive(Clone, Copy, PartialEq)]
pub struct Point {
    pub x: f64,
    pub y: f64,
}

#[derive(Clone, Copy)]
pub struct BoundingBox {
    pub min_x: f64,
    pub min_y: f64,
    pub max_x: f64,
    pub max_y: f64,
}

// A grid is one value; its cells lie in lent slices.
#[derive(Clone, Copy)]
pub struct SpatialGrid {
    pub cell_size: f64,
    pub inv_cell_size: f64,
    pub origin_x: f64,
    pub origin_y: f64,
    pub cols: u32,
    pub rows: u32,
}

// A place of the path, and the number of a vertex: neither is accepted for the other.
#[derive(Clone, Copy, PartialEq, Eq, PartialOrd, Ord)]
pub struct PathPlace(pub u32);

#[derive(Clone, Copy, PartialEq, Eq, PartialOrd, Ord)]
pub struct Vertex(pub u32);

// What the nearest query answers: a path place and a squared distance, or nothing. No `Option`: the documents name these two cases.
#[derive(Clone, Copy)]
pub enum Nearest {
    Found(PathPlace, f64),
    Nothing,
}

// Why a call is refused. A number is the refusal's place; without one the place is 0.
#[derive(Clone, Copy, PartialEq, Eq)]
pub enum Refusal {
    TooManyContours,
    TooManyPoints,
    Miscounted,
    OffThePlate(u32),
    WorkShort(u32),
    Full(u32),
    Blank,
    BlockDamaged(u32),
    WrongEnd(u32),
    NotDrawn(u64),
    BadLayer(u32),
}

// Why the contours of a path are not recovered. No limit is set to the slices of such a path, so the place of its 4 has 64 bits, where a `Refusal` has 32.
#[derive(Clone, Copy, PartialEq, Eq)]
pub enum RecoveryRefusal {
    PathMiscounted,
    PathOffThePlate(u64),
    PathWorkShort,
    MarksInconsistent(u64),
    VertexMissing(u64),
    NoRoom,
}

// A path has at most so many points, and a grid so many cells.
pub const MOST_PATH_POINTS: usize = 1048576;

pub const MOST_CELLS: usize = 2916;

// Layers are 0 to this.
pub const HIGHEST_LAYER: u32 = 15;

// The kinds of marks, by the numbers that the marks slice, which C reads, has for them.
pub const START: u32 = 0;

pub const CUT: u32 = 1;

pub const BACK_STEP: u32 = 2;

pub const JUMP: u32 = 3;

pub const TOUCH: u32 = 4;

// A path point's mark. A start, a jump and a touch name the vertex landed on, a cut the lower vertex of its segment, a back-step the path place
// that it leads to.
#[derive(Clone, Copy, PartialEq, Eq)]
pub enum Mark {
    Start(Vertex),
    Cut(Vertex),
    BackStep(PathPlace),
    Jump(Vertex),
    Touch(Vertex),
}

// To numbers and back by methods and no `From`: a mark is two numbers of a slice, and what makes one again may find none.
impl Mark {
    pub fn kind(self) -> u32
        ensures { result ≡ kind_of self }
    {
        match self {
            Mark::Start(_) => START,
            Mark::Cut(_) => CUT,
            Mark::BackStep(_) => BACK_STEP,
            Mark::Jump(_) => JUMP,
            Mark::Touch(_) => TOUCH,
        }
    }

    pub fn reference(self) -> u32
        ensures { result ≡ reference_of self }
    {
        match self {
            Mark::Start(v) | Mark::Cut(v) | Mark::Jump(v) | Mark::Touch(v) => v.0,
            Mark::BackStep(k) => k.0,
        }
    }

    // The mark of a kind and a reference, where there is one.
    pub fn from_numbers(kind: u32, reference: u32) -> Option<Mark>
        ensures known { IsSome result ↔ (kind ≤ touch_kind) }
        ensures numbers { IfSome result (λ m. (kind_of m ≡ kind) × (reference_of m ≡ reference)) }
    {
        match kind {
            START => Some(Mark::Start(Vertex(reference))),
            CUT => Some(Mark::Cut(Vertex(reference))),
            BACK_STEP => Some(Mark::BackStep(PathPlace(reference))),
            JUMP => Some(Mark::Jump(Vertex(reference))),
            TOUCH => Some(Mark::Touch(Vertex(reference))),
            _ => None,
        }
    }
}

// What is handed over to a call: points, horizontal then vertical; the contours' lengths and layers; the plate's size, and where the path starts.
#[derive(Clone, Copy)]
pub struct Input<'a> {
    pub points: &'a [f64],
    pub lengths: &'a [u32],
    pub layers: &'a [u32],
    pub width: u32,
    pub height: u32,
    pub strategy: StartPointStrategy,
}

// Point i of a slice of points.
pub fn point_in(xs: &[f64], i: usize) -> Point
    requires { 2 * i + 1 < length xs.now }
    ensures { result ≡ at xs.now i }
{
    Point {
        x: xs[2 * i],
        y: xs[2 * i + 1],
    }
}

// The point of a vertex. It differs from `path_point` in the counter's type alone: neither counter is to be accepted for the other.
pub fn point_at(points: &[f64], v: Vertex) -> Point
    requires { 2 * v.0 + 1 < length points.now }
    ensures { result ≡ at points.now v.0 }
{
    point_in(points, v.0 as usize)
}

// The path point at a place.
pub fn path_point(path: &[f64], place: PathPlace) -> Point
    requires { 2 * place.0 + 1 < length path.now }
    ensures { result ≡ at path.now place.0 }
{
    point_in(path, place.0 as usize)
}

// A path's totals: how many points, cuts, back-steps, jumps and touches it has, and how long its cuts, its back-steps, and its jumps and touches are, in
// 1,024ths.
#[derive(Clone, Copy, Default)]
pub struct Totals {
    pub points: u32,
    pub cuts: u32,
    pub back_steps: u32,
    pub jumps: u32,
    pub touches: u32,
    pub cut_length: u64,
    pub back_step_length: u64,
    pub jump_length: u64,
}

// How many points, and contours, were recovered from a path.
#[derive(Clone, Copy)]
pub struct Recovered {
    pub points: u32,
    pub contours: u32,
}
