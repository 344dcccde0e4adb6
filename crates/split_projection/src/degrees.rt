// Places in degrees.

/// How many trillionths a degree has.
pub(crate) const DEGREE: i64 = 1_000_000_000_000;

/// Half a turn and a whole one.
pub(crate) const HALF_TURN: i64 = 180 * DEGREE;

pub(crate) const TURN: i64 = 360 * DEGREE;

/// A place in degrees of longitude and latitude, as whole trillionths (10^-12) of a degree, which 12 decimals write exactly.
/// East and north are positive.
#[derive(Clone, Copy, PartialEq, Eq, Debug)]
pub struct Degrees {
    pub longitude: i64,
    pub latitude: i64,
}
