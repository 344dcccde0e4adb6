// How many fixes are of each zone.

use crate::ranked::{Ranked, rank};
use crate::rows::taken_fix;
use crate::words::push_zone;
use range_plane::OutOfMemory;
use split_reading::{Row, Zone, zone_at, zone_of as zone_of_text};
use std::alloc::Global;

// How many places a count of zones has: two for each number that a zone may have.
const ZONE_PLACES: usize = 512;

// The place of a zone in a count.
fn place_of(zone: Zone) -> usize {
    usize::from(zone.number) * 2 + usize::from(zone.is_south)
}

// The zone at a place of a count.
fn zone_of(place: usize) -> Zone {
    Zone {
        number: u8::try_from(place / 2).unwrap_or(u8::MAX),
        is_south: place % 2 == 1,
    }
}

// What the zone of a fix is taken from.
#[derive(Clone, Copy)]
pub(crate) enum Zoned {
    // Its metres: it is of the zone that its record names, or that of its longitude, or else of the named one.
    Metres { named: Option<Zone> },
    // Its longitude.
    Degrees,
}

// The zone of a fix that is taken; none where it has no such coordinates, or is of none.
fn zone_in(zoned: Zoned, row: &Row) -> Option<Zone> {
    let fix = taken_fix(row)?;
    match zoned {
        Zoned::Metres { named } if fix.metres.is_some() => fix.zone.or(named),
        Zoned::Metres { .. } => None,
        Zoned::Degrees => {
            let (longitude, latitude) = fix.degrees?;
            Some(zone_at(longitude, latitude))
        }
    }
}

// How many fixes that are taken are of each zone.
pub(crate) fn zone_counts(
    alloc: Global,
    rows: &[Row],
    zoned: Zoned,
) -> Result<Vec<usize>, OutOfMemory> {
    let mut counts = vec![in alloc; 0usize; ZONE_PLACES]?;
    for row in rows {
        if let Some(zone) = zone_in(zoned, row) {
            if let Some(count) = counts.get_mut(place_of(zone)) {
                *count = count.saturating_add(1);
            }
        }
    }
    Ok(counts)
}

// The zones of a count, the most frequent first.
pub(crate) fn ranked_zones(alloc: Global, counts: &[usize]) -> Result<Vec<Ranked>, OutOfMemory> {
    let mut zones = Vec::new(alloc);
    for (place, count) in counts.iter().enumerate() {
        if *count > 0 {
            let mut word = Vec::new(alloc);
            push_zone(&mut word, zone_of(place))?;
            zones.push(Ranked::new(word, *count))?;
        }
    }
    rank(&mut zones)?;
    Ok(zones)
}

// The zone of a count that comes most often; of those that come as often the least by its name.
pub(crate) fn first_zone(zones: &[Ranked]) -> Option<Zone> {
    let first = zones.first()?;
    zone_of_text(&first.word)
}
