// The words of the work slice while a path is checked.

ghost use Rattle.std.specs.Prelude.{◌++◌, length};
ghost use Rattle.path_rules.specs.PathWords.{Labelled};
ghost use Rattle.path_rules.specs.Props.{labelled_prop};

// A contour's word: 0 where it takes no part, else one of these. It is no enum: it is a number of a slice that the caller lends (no heap).
pub const UNENTERED: u32 = 1;

pub const ENTERED: u32 = 2;

// The words while a path is checked, in two parts of the work slice that the caller lends: one for each vertex, twice the number of its contour
// and 1 more where the segment from it is cut; and one for each contour, by its number.
#[derive(Drop)]
pub struct Words<'a> {
    pub vertices: &'a mut [u32],
    pub contours: &'a mut [u32],
    ghost labelled: { Labelled (length vertices.now) (vertices.now ++ contours.now) } by { labelled_prop (length vertices.now) (vertices.now ++ contours.now) },
}
