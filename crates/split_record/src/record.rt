// What a record of tracks says.

use range_plane::Scale;
use split_reading::Zone;
use split_tracks::Reason;

/// An export that was read.
#[derive(Clone, Copy)]
pub struct ExportRead<'a> {
    /// Its name, without its folder.
    pub name: &'a [u8],
    /// The checksum of its bytes.
    pub sum: [u8; 64],
}

/// An option that was given.
#[derive(Clone, Copy)]
pub struct OptionGiven<'a> {
    pub name: &'a [u8],
    /// None where the option has no value.
    pub value: Option<&'a [u8]>,
}

/// How many fixes of an animal were left out for one reason.
#[derive(Clone, Copy)]
pub struct Left<'a> {
    /// The name of its file; empty where the records name no animal.
    pub name: &'a [u8],
    pub count: usize,
    pub reason: Reason,
}

/// The track of an animal.
#[derive(Clone, Copy)]
pub struct TrackMade<'a> {
    /// The name of its file.
    pub name: &'a [u8],
    pub records: usize,
    /// How many of its records are used.
    pub used: usize,
    /// The checksum of its file.
    pub sum: [u8; 64],
}

/// What a record of tracks says, each list in the order in which it is to be written.
#[derive(Clone, Copy)]
pub struct Record<'a> {
    /// The exports of which the table was made.
    pub exports: &'a [ExportRead<'a>],
    pub unit: Scale,
    /// None where it is not known.
    pub zone: Option<Zone>,
    /// By how many metres eastings and northings were shifted.
    pub shift: (i64, i64),
    /// Each option but the unit.
    pub options: &'a [OptionGiven<'a>],
    /// Each line said, but the last of the program, which names the folder.
    pub said: &'a [&'a [u8]],
    pub left: &'a [Left<'a>],
    pub tracks: &'a [TrackMade<'a>],
    /// What made the tracks.
    pub tool: &'a [u8],
}
