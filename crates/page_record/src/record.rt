// What a record of tracks says.

ghost use Rattle.std.specs.Prelude.{◌≡◌};
ghost use Rattle.page_record.specs.Reading.{nothing, read};

use crate::zone::Zone;
use indexmap::IndexMap;
use range_plane::Scale;
use split_tracks::Reason;
use std::alloc::Global;

/// An option that was given.
#[derive(Drop)]
pub struct Given {
    pub name: Vec<u8>,
    /// Its value as it was given; none where the option has none.
    pub value: Option<Vec<u8>>,
}

/// How many fixes of an animal were left out for one reason.
#[derive(Drop)]
pub struct LeftOut {
    /// Empty where the records name no animal.
    pub name: Vec<u8>,
    pub count: u32,
    pub reason: Reason,
}

/// The track of an animal.
#[derive(Clone, Copy, PartialEq, Eq, Debug)]
pub struct Made {
    pub records: u32,
    /// How many of its records are used.
    pub used: u32,
    /// The SHA-256 checksum of its file, in 64 digits.
    pub sum: [u8; 64],
}

/// What a record of tracks says. Texts are as they stand in its lines, where control characters are escaped, but for the values of
/// options.
#[derive(Drop)]
pub struct Record {
    /// The name of the export; none where the tracks were made of a data frame.
    pub export: Option<Vec<u8>>,
    /// The SHA-256 checksum of its bytes, in 64 digits. It is there where an export is.
    pub sum: Option<[u8; 64]>,
    pub unit: Scale,
    /// None where it is not known.
    pub zone: Option<Zone>,
    /// How many metres were added to eastings and northings.
    pub shift: (i64, i64),
    /// Each option but the unit.
    pub options: Vec<Given>,
    /// Each line that was said.
    pub said: Vec<Vec<u8>>,
    pub left: Vec<LeftOut>,
    /// The tracks by the names of their animals, in the order of the record.
    pub tracks: IndexMap<Vec<u8>, Made>,
    /// What made the tracks.
    pub tools: Vec<Vec<u8>>,
}

// What is read before the first line.
pub(crate) fn nothing(alloc: Global) -> Record
    ensures { read result ≡ nothing }
{
    Record {
        export: None,
        sum: None,
        unit: Scale::Metre,
        zone: None,
        shift: (0, 0),
        options: Vec::new(alloc),
        said: Vec::new(alloc),
        left: Vec::new(alloc),
        tracks: IndexMap::new(alloc),
        tools: Vec::new(alloc),
    }
}
