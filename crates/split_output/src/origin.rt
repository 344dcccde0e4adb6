// Of what the tracks of a split were made.

use range_plane::Scale;
use split_record::{ExportRead, OptionGiven};

/// Of what tracks were made, how, and by what.
#[derive(Clone, Copy)]
pub struct Origin<'a> {
    pub exports: &'a [ExportRead<'a>],
    pub unit: Scale,
    /// The options that were given, but the unit.
    pub options: &'a [OptionGiven<'a>],
    /// What made the tracks.
    pub tool: &'a [u8],
}
