// How the records of a table are read.

use range_plane::Scale;
use split_clock::Clock;
use split_filters::Filters;
use split_times::Forms;
use split_titles::{Marks, Pair};

/// Which columns of a table are read as what, and how. Columns are counted from 0.
#[derive(Clone, Copy)]
pub struct Rules<'a, 'b> {
    /// How many titles the table has.
    pub width: usize,
    /// Words that are missing wherever they stand, beside the empty field and NA.
    pub missing: &'a [&'a [u8]],
    /// Whether a comma may stand before decimals, as a point may.
    pub has_commas: bool,
    /// The columns of the animal: its name is the first that one of them has. None where all fixes are of one.
    pub animal: &'b [usize],
    /// The name of the animal where no column has one.
    pub name: &'a [u8],
    /// The columns of the time, whose text is that of all, with a blank between. None where records stand in the order of time, as
    /// seconds 0, 1, 2, ..
    pub time: &'b [usize],
    /// Whether the time is in seconds since a start of one's own.
    pub is_second: bool,
    /// The forms of times. None where they are ISO texts or seconds since 1970.
    pub forms: Option<Forms<'a>>,
    /// The clock whose times they are, where they do not say how far it is ahead of UTC. None is that of UTC.
    pub clock: Option<&'a Clock>,
    /// Easting and northing in metres.
    pub metres: Option<Pair>,
    /// Longitude and latitude.
    pub degrees: Option<Pair>,
    /// The column of the UTM zone.
    pub zone: Option<usize>,
    pub marks: Marks,
    /// The column of the sensor.
    pub sensor: Option<usize>,
    /// The column of the Argos class.
    pub class: Option<usize>,
    /// The column of the dilution of precision.
    pub dop: Option<usize>,
    /// The column of the type of fixes.
    pub fix_type: Option<usize>,
    pub filters: Filters<'a>,
    /// The unit to which coordinates are rounded.
    pub unit: Scale,
    /// Whether records that have coordinates and name no animal are left out; else they are a fault.
    pub skips_unnamed: bool,
}
