// A contour's points: landed on, cut upward and downward, with their marks; and a contour entered from the path so far, which is walked back first.
#![tactic(auto)]

ghost use Rattle.std.specs.Prelude.{◌++◌, map, ◌+◌, ◌-◌, ◌*◌, ◌≤◌, ◌<◌, ◌≡◌, [], ◌∷◌, length};
ghost use Rattle.rules.specs.Limits.{most_points};
ghost use Rattle.rules.specs.Tools.{up_from, down_to};
ghost use Rattle.rules.specs.HandedOver.{Plate};
ghost use Rattle.rules.specs.Retrace.{place_in, entered};
ghost use Rattle.rules.specs.Marks.{cut_kind, kind_of, reference_of, cut_up, cut_down};
ghost use Rattle.contours.specs.ContourOf.{InRange, InSlice, contour_of};
ghost use Rattle.path_points.specs.WriterState.{SameWriter, WriterAfter, Adds};
ghost use Rattle.emission.specs.DrawnContour.{drawn};

use contours::ContourRange;
use mark_kinds::landing_mark;
use nearest::nearest;
use path_points::{Full, PathWriter};
use plate::checked_input::PlatePoints;
use rules::{Mark, Nearest, PathPlace, Vertex};

// One cut, over the segment with this lower vertex, to one of its ends.
fn cut(
    points: &PlatePoints<'_>,
    writer: &mut PathWriter<'_>,
    low: Vertex,
    end: Vertex,
) -> Result<(), Full>
    requires held { 2 * end.0 + 1 < length points.now.coordinates.now }
    ensures same { SameWriter writer.old writer.new }
    ensures written { WriterAfter writer.old writer.new result }
    ensures adds { Adds points.now.coordinates.now writer.old writer.new result
        (λ steps. steps ++ record { vertex = end.0; kind = cut_kind; reference = low.0 } ∷ []) }
{
    writer.put(points.point_at(end), Mark::Cut(low))
}

// n cuts upward from vertex v.
fn cut_up(
    points: &PlatePoints<'_>,
    writer: &mut PathWriter<'_>,
    v: Vertex,
    n: u32,
) -> Result<(), Full>
    requires fits { writer.old.count ≤ writer.old.room }
    requires within { v.0 + n < most_points }
    requires held { 2 * (v.0 + n) + 1 < length points.now.coordinates.now }
    ensures same { SameWriter writer.old writer.new }
    ensures written { WriterAfter writer.old writer.new result }
    ensures adds { Adds points.now.coordinates.now writer.old writer.new result (λ steps. steps ++ map cut_up (up_from v.0 n)) }
{
    for i in 0..n {
        let low = v.0 + i;
        cut(points, &mut *writer, Vertex(low), Vertex(low + 1))?;
    }
    Ok(())
}

// n cuts downward, to vertex v. `cut_up` runs the other way and puts each segment's upper end, so the two share `cut` alone.
fn cut_down(
    points: &PlatePoints<'_>,
    writer: &mut PathWriter<'_>,
    v: Vertex,
    n: u32,
) -> Result<(), Full>
    requires fits { writer.old.count ≤ writer.old.room }
    requires within { v.0 + n < most_points }
    requires held { 2 * (v.0 + n) + 1 < length points.now.coordinates.now }
    ensures same { SameWriter writer.old writer.new }
    ensures written { WriterAfter writer.old writer.new result }
    ensures adds { Adds points.now.coordinates.now writer.old writer.new result (λ steps. steps ++ map cut_down (down_to v.0 n)) }
{
    for i in (0..n).rev() {
        let low = Vertex(v.0 + i);
        cut(points, &mut *writer, low, low)?;
    }
    Ok(())
}

// A contour's points, with the mark of the vertex landed on: from there up to its last vertex, and unless that was vertex 0 back to the landing and
// down to vertex 0.
pub fn emit(
    points: &PlatePoints<'_>,
    writer: &mut PathWriter<'_>,
    c: ContourRange,
    landing: Mark,
) -> Result<(), Full>
    requires fits { writer.old.count ≤ writer.old.room }
    requires low { c.first.0 ≤ reference_of landing }
    requires high { reference_of landing ≤ c.first.0 + c.last }
    requires within { InRange c }
    requires held { InSlice points.now.coordinates.now c }
    ensures same { SameWriter writer.old writer.new }
    ensures written { WriterAfter writer.old writer.new result }
    ensures adds { Adds points.now.coordinates.now writer.old writer.new result
        (λ steps. drawn (kind_of landing) steps (contour_of c) (reference_of landing - c.first.0)) }
{
    let place = PathPlace(writer.count);
    let v = Vertex(landing.reference());
    writer.put(points.point_at(v), landing)?;
    let e = v.0 - c.first.0;
    cut_up(points, &mut *writer, v, c.last - e)?;
    if e == 0 {
        return Ok(());
    }
    writer.walk_back(place)?;
    cut_down(points, &mut *writer, c.first, e)
}

// The place that was found. `Nearest` and `place_in` are the documents' own: `place_in` gives place 0 where nothing is found, which is where the path
// has no point.
fn place_in(found: Nearest) -> PathPlace
    ensures { result.0 ≡ place_in found }
{
    match found {
        Nearest::Nothing => PathPlace(0),
        Nearest::Found(place, _) => place,
    }
}

// The path with one more contour, entered at this vertex of its own: walked back to the point that is nearest to it now, and on from there.
pub fn enter(
    points: &PlatePoints<'_>,
    writer: &mut PathWriter<'_>,
    c: ContourRange,
    entry: Vertex,
) -> Result<(), Full>
    requires fits { writer.old.count ≤ writer.old.room }
    requires some { 1 ≤ writer.old.count }
    requires low { c.first.0 ≤ entry.0 }
    requires high { entry.0 ≤ c.first.0 + c.last }
    requires within { InRange c }
    requires held { InSlice points.now.coordinates.now c }
    ensures same { SameWriter writer.old writer.new }
    ensures written { WriterAfter writer.old writer.new result }
    ensures adds { (p : Plate) → p.points ≡ points.now.coordinates.now →
        Adds points.now.coordinates.now writer.old writer.new result
        (λ steps. entered p writer.old.grid.spatial steps (contour_of c) (entry.0 - c.first.0)) }
{
    let q = points.point_at(entry);
    let h = place_in(nearest(writer.grid, writer.so_far(), writer.work(), q));
    let landing = landing_mark(writer.point(h), q, entry);
    writer.walk_back(h)?;
    emit(points, writer, c, landing)
}
