// The reference system of coordinates, as it is written.

use page_record::Zone;
use page_text::push_whole;
use std::alloc::{AllocError, Global};

// How many zones UTM has.
const MOST_ZONES: u8 = 60;

// Appends the reference system of a UTM zone, by its code and its name.
fn push_zone(text: &mut Vec<u8>, zone: Zone) -> Result<(), AllocError> {
    let start: &[u8] = if zone.is_south {
        b"EPSG:327"
    } else {
        b"EPSG:326"
    };
    text.extend_from_slice(start)?;
    if zone.number < 10 {
        text.extend_from_slice(b"0")?;
    }
    push_whole(text, u128::from(zone.number))?;
    text.extend_from_slice(b" (WGS 84 / UTM zone ")?;
    push_whole(text, u128::from(zone.number))?;
    text.extend_from_slice(if zone.is_south { b"S)" } else { b"N)" })
}

/// Appends the reference system of a UTM zone, or another by its words, as it is written.
///
/// # Errors
///
/// Memory ran out.
pub fn push_system(
    text: &mut Vec<u8>,
    zone: Option<Zone>,
    words: Option<&[u8]>,
) -> Result<(), AllocError> {
    match (zone, words) {
        (Some(zone), _) => push_zone(text, zone),
        (None, Some(words)) => text.extend_from_slice(words),
        (None, None) => text.extend_from_slice(b"reference system not known"),
    }
}

// Whether a text is the reference system of this UTM zone, as it is written.
fn is_that_of(alloc: Global, text: &[u8], zone: Zone) -> Result<bool, AllocError> {
    let mut own = Vec::new(alloc);
    push_zone(&mut own, zone)?;
    Ok(own.as_slice() == text)
}

/// Whether a text is the reference system of a UTM zone, as it is written.
///
/// # Errors
///
/// Memory ran out.
pub fn is_of_zone(alloc: Global, text: &[u8]) -> Result<bool, AllocError> {
    for number in 1..=MOST_ZONES {
        let north = Zone {
            number,
            is_south: false,
        };
        let south = Zone {
            number,
            is_south: true,
        };
        if is_that_of(alloc, text, north)? || is_that_of(alloc, text, south)? {
            return Ok(true);
        }
    }
    Ok(false)
}
