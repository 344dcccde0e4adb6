// The rows of the table of incremental area analysis.

use range_plane::List;

/// A row of the table of incremental area analysis (Harris et al. 1990): the range after one of the fixes.
#[derive(Clone, Copy, PartialEq, Eq, Debug)]
pub struct Row {
    /// The second of that fix.
    pub second: u64,
    /// How many corners the polygon of the fixes up to it has.
    pub corners: u32,
    /// The doubled area within that polygon, in squares of the unit.
    pub area2: u128,
}

/// The rows of a table, in the order of the fixes.
pub type Rows = List<Row>;
