// What one retrace call keeps of its plate while it joins.
#![tactic(auto)]

use grid::Grid;
use work_layout::Layout;

// A plate's points and grid, and how the parts of the lent slice lie for them. That the frame and the slice belong together stands in contracts, as
// `PlatedBy frame work` and `Laid lay (length work)`, and in no type: both speak of the work slice, which is written between calls, so that a type that held
// it could not be lent in parts.
#[derive(Clone, Copy)]
pub struct Frame<'a> {
    pub points: &'a [f64],
    pub grid: Grid,
    pub layout: Layout,
}
