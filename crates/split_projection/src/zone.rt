// Zones of UTM: strips of six degrees of longitude, of which the first begins at 180 degrees west.

ghost use Rattle.std.specs.Prelude.{◌≡◌};
ghost use Rattle.split_projection.specs.Place.{IsZone};
ghost use Rattle.split_projection.specs.Zone.{zone_number};

use crate::degrees::{DEGREE, HALF_TURN};

/// How many zones there are.
pub(crate) const ZONES: u8 = 60;

/// The width of a zone.
pub(crate) const ZONE_WIDTH: i64 = 6 * DEGREE;

/// The number of the zone of a longitude in trillionths of a degree, from 1 to 60: zone 1 begins at 180 degrees west, each is
/// six degrees wide, its western edge is its own, and they come again after each turn. There are no exceptions for Norway and
/// Svalbard.
pub fn zone_number(longitude: i64) -> u8
    ensures value { result ≡ zone_number longitude }
    ensures within { IsZone result }
{
    let strip = (i128::from(longitude) + i128::from(HALF_TURN))
        .div_euclid(i128::from(ZONE_WIDTH))
        .rem_euclid(i128::from(ZONES));
    strip as u8 + 1
}
