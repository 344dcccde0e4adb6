// What tables and a page are made of.

use page_ground::Differences;
use split_clock::Clock;

/// A file of a track: its name in the folder of tracks, and its bytes.
#[derive(Drop)]
pub struct Track {
    pub file: String,
    pub bytes: Vec<u8>,
}

/// What was typed in, and what the files of the folder do not say. No text is empty.
#[derive(Clone, Copy)]
pub struct Words<'a> {
    pub page: page_html::Words<'a>,
    pub made: page_html::Made<'a>,
    /// The name of the zone of dates, and its clock.
    pub zone: &'a [u8],
    pub clock: &'a Clock,
    /// The reference system of coordinates; else it is that of the record.
    pub system: Option<&'a [u8]>,
    /// How many metres were added to eastings and northings, where there is no record.
    pub shift: (i32, i32),
    /// By how much areas on the grid differ from those on the ellipsoid; of a zone that the record names it is computed.
    pub differences: Option<Differences>,
    /// Whether the page is handed in without its folder.
    pub is_alone: bool,
    /// Whether the export of the record is a table of data in memory, which nobody has.
    pub is_data: bool,
}

/// The bytes of the files of a folder.
#[derive(Clone, Copy)]
pub struct Given<'a> {
    pub report: &'a [u8],
    pub record: Option<&'a [u8]>,
    pub boundary: Option<&'a [u8]>,
    /// None where only the report is known.
    pub tracks: Option<&'a [Track]>,
}
