// What is known of an animal, and of two.

use range_estimator::Rows;
use range_fixes::Name;
use range_lanes::Extent;
use range_plane::{List, Polygon};
use range_stats::PercentRow;

/// Percent polygons, in the order of their levels.
pub type Percents = List<PercentRow>;

/// An animal and what its fixes come to.
#[derive(Drop)]
pub struct Animal {
    pub name: Name,
    /// The box of the fixes.
    pub extent: Extent,
    /// The table of incremental area analysis: a row for each fix.
    pub rows: Rows,
    /// The minimum convex polygon of all fixes.
    pub polygon: Polygon,
    /// The percent polygons, in the order of the levels that were asked for.
    pub percents: Percents,
}

/// Animals, in the order of their tracks.
pub type Animals = List<Animal>;

/// How many fixes of one animal lie in the range of another. The animals are numbered from 0, in the order
/// of their tracks.
#[derive(Clone, Copy, PartialEq, Eq, Debug)]
pub struct OverlapRow {
    /// Whose fixes are counted.
    pub animal: u32,
    /// Whose range it is.
    pub range: u32,
    /// How many fixes lie in the range, repeats counted; a fix on an edge or at a corner does.
    pub count: u64,
    /// How many fixes there are.
    pub fixes: u32,
}

/// Rows of overlap, by the animal and then by the range.
pub type Overlaps = List<OverlapRow>;
