// A corner of a polygon.

/// A corner, in whole units.
#[derive(Clone, Copy, PartialEq, Eq, Debug)]
pub struct Corner {
    pub easting: i64,
    pub northing: i64,
}
