// What became of the records of a table.

use split_times::Moment;

/// A fix as its track has it.
#[derive(Clone, Copy, PartialEq, Eq, Debug)]
pub struct Entry {
    /// The number of its record. That below the titles is 1.
    pub record: u32,
    pub moment: Moment,
    /// Whole units of the grid, before any shift.
    pub easting: i64,
    pub northing: i64,
    /// Whether the fix is used. One that is not stands in its track with a mark.
    pub is_used: bool,
}

/// Why a record is left out, in the order in which that is asked.
#[derive(Clone, Copy, PartialEq, Eq, Debug)]
pub enum Reason {
    /// It names no animal.
    Animal,
    /// It has no coordinates.
    Coordinates,
    /// Its longitude and latitude are both 0.
    Zero,
    /// It is of another sensor.
    Sensor,
    /// It is marked as an outlier.
    Outlier,
    /// It is of another Argos class.
    Class,
    /// It has no dilution of precision.
    NoDop,
    /// Its dilution of precision is too great.
    Dop,
    /// It is a fix of another type.
    Type,
    /// It is before the first moment that is wanted.
    Before,
    /// It is after the last moment that is wanted.
    After,
    /// It is not used, and off the grid.
    Grid,
    /// The animal would have been too fast.
    Speed,
    /// It is not the first of its piece of time.
    Every,
}

/// What became of a record: it is in the track of its animal, or left out for one reason. Animals are numbered from
/// 0, in the order of their first records.
#[derive(Clone, Copy, PartialEq, Eq, Debug)]
pub enum Fate {
    InTrack { animal: u32, entry: Entry },
    /// Of no animal where the record names none.
    LeftOut { animal: Option<u32>, reason: Reason },
}
