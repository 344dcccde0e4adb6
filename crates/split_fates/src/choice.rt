// Which fixes of a table are taken, and on which grid.

use range_plane::Scale;
use split_reading::Zone;

/// Which fixes of a table are taken, and on which grid.
#[derive(Clone, Copy, PartialEq, Eq, Debug)]
pub struct Choice {
    /// Whether fixes that are not used stand in tracks, with a mark; else they are left out.
    pub keeps_marks: bool,
    /// The zone of UTM coordinates, of which fixes are that are of no other; none where all fixes are of one grid.
    pub zone: Option<Zone>,
    pub unit: Scale,
    /// By how many units coordinates are shifted, east and north.
    pub shift: (i64, i64),
}
