// The two coordinates of a place.

ghost use Rattle.std.specs.Prelude.{◌≡◌};
ghost use Rattle.split_doubts.specs.Axes.{coordinate};
ghost use Rattle.split_numbers.specs.Decimal.{units_per_metre};

use range_plane::Scale;
use split_tracks::Entry;

/// An axis of the grid.
#[derive(Clone, Copy, PartialEq, Eq, Debug)]
pub enum Axis {
    Easting,
    Northing,
}

// The coordinate of an entry.
pub(crate) fn coordinate(axis: Axis, entry: &Entry) -> i64
    ensures { result ≡ coordinate axis entry.now }
{
    match axis {
        Axis::Easting => entry.easting,
        Axis::Northing => entry.northing,
    }
}

// How many units a metre has.
pub(crate) fn units_per_metre(unit: Scale) -> u64
    ensures { result ≡ units_per_metre unit }
{
    match unit {
        Scale::Metre => 1,
        Scale::Decimetre => 10,
    }
}
