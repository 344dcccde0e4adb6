// What is wished of tracks.

ghost use Rattle.std.specs.Prelude.{◌≡◌};
ghost use Rattle.split_chain.specs.Chain.{every_filter, speed_filter};

use range_plane::Scale;
use split_clock::Clock;
use split_pace::{Filter, Speed};
use split_reading::Zone;
use split_said::Exports;

/// What is wished of tracks.
#[derive(Clone, Copy)]
pub struct Wish<'a> {
    /// The exports of which the table was made.
    pub exports: Exports<'a>,
    /// How many points of GPX are not read, since they are no points of tracks.
    pub other_points: usize,
    /// The zone of all coordinates.
    pub zone: Option<Zone>,
    /// The reference system of all coordinates, as it was named; empty where none was.
    pub system: &'a [u8],
    /// Whether fixes that are not used stand in tracks, with a mark; else they are left out.
    pub keeps_marks: bool,
    /// Whether what became of each record is told as text.
    pub lists_records: bool,
    /// The greatest speed of an animal.
    pub speed: Option<Speed>,
    /// The length of the pieces of time of which the first fix is taken, in seconds.
    pub every: Option<u64>,
    /// The clock by which these pieces are counted.
    pub clock: &'a Clock,
    /// The Argos classes, as they were named; empty where none was. So of the types, and of the first and the last moment.
    pub classes: &'a [u8],
    pub types: &'a [u8],
    pub since: &'a [u8],
    pub until: &'a [u8],
    /// The option that needs a time; empty where none does.
    pub needs_time: &'a str,
    /// Whether words for what is missing were named.
    pub names_missing: bool,
    /// The forms of times, as they were named; empty where none was.
    pub forms: &'a str,
    /// The name of the zone by whose clock times are read, which is `UTC` where none was named.
    pub clock_name: &'a str,
}

impl<'a> Wish<'a> {
    // The filter by speed, of places in this unit.
    pub(crate) fn speed_filter(&self, unit: Scale) -> Option<Filter<'a>>
        ensures { result ≡ speed_filter self.now unit }
    {
        match self.speed {
            Some(speed) => Some(Filter::MaxSpeed { unit, speed }),
            None => None,
        }
    }

    // The filter by pieces of time.
    pub(crate) fn every_filter(&self) -> Option<Filter<'a>>
        ensures { result ≡ every_filter self.now }
    {
        match self.every {
            Some(length) => Some(Filter::Every {
                length,
                clock: self.clock,
            }),
            None => None,
        }
    }
}
