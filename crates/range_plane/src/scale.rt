// The units in which coordinates are counted.

ghost use Rattle.std.specs.Prelude.{◌≡◌, Some, pos};
ghost use Rattle.range_plane.specs.Plane.{IsCoordinate};
ghost use Rattle.range_plane.specs.Scale.{limit, unit_name};

use crate::point::COORDINATE_LIMIT;
use std::fmt;

/// The greatest easting and northing of a file in metres: 2^24.
pub(crate) const METRE_LIMIT: u32 = 16_777_216;

/// The unit in which the eastings and northings of a run are counted.
#[derive(Clone, Copy, PartialEq, Eq, Debug)]
pub enum Scale {
    Metre,
    Decimetre,
}

impl Scale {
    /// The greatest easting and northing of a fix that is read from a file: 2^24 metres, or
    /// [`COORDINATE_LIMIT`] decimetres. UTM northings, at most 10,000 km, fit.
    pub fn limit(self) -> i64
        ensures value { result ≡ pos (limit self) }
        ensures within { IsCoordinate result }
    {
        match self {
            Scale::Metre => i64::from(METRE_LIMIT),
            Scale::Decimetre => COORDINATE_LIMIT,
        }
    }
}

impl fmt::Display for Scale {
    ghost output = { λ unit. Some (unit_name unit) };

    fn fmt<W: fmt::Write>(&self, f: &mut fmt::Formatter<W>) -> fmt::Result {
        match *self {
            Scale::Metre => write!(f, "metres"),
            Scale::Decimetre => write!(f, "decimetres"),
        }
    }
}
