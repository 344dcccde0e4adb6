// Where fixes lie on the earth.

use crate::sheet::units_of_metre;
use crate::tracks::Herd;
use crate::words::push;
use range_plane::Scale;
use split_projection::place_of;
use split_reading::Zone;
use split_tracks::Entry;
use std::alloc::{AllocError, Global};
use std::num::nearest_i64_to_f64;

// How many fixes there are, and the sums of their eastings and northings.
#[derive(Clone, Copy)]
struct Sums {
    count: f64,
    east: f64,
    north: f64,
}

// The sums of fixes, and of the used ones of one more track.
fn with_track(sums: Sums, track: &[Entry]) -> Sums {
    let mut sums = sums;
    for entry in track {
        if entry.is_used {
            sums = Sums {
                count: sums.count + 1.0,
                east: sums.east + nearest_i64_to_f64(entry.easting),
                north: sums.north + nearest_i64_to_f64(entry.northing),
            };
        }
    }
    sums
}

// The mean easting and the mean northing of all fixes that are used, in metres; no numbers where none is.
fn mean_of(herd: &Herd<'_>, unit: Scale) -> (f64, f64) {
    let mut sums = Sums {
        count: 0.0,
        east: 0.0,
        north: 0.0,
    };
    for animal in herd.order {
        sums = with_track(sums, herd.track(*animal));
    }
    let parts = sums.count * f64::from(units_of_metre(unit));
    (sums.east / parts, sums.north / parts)
}

// Appends so many degrees with one decimal, and to which side of 0 they are.
fn push_degrees(
    alloc: Global,
    text: &mut Vec<u8>,
    degrees: f64,
    sides: (&str, &str),
) -> Result<(), AllocError> {
    let most = degrees.abs();
    let figures = format!(in alloc; "{most:.1}")?;
    push(text, figures.as_str())?;
    push(text, if degrees < 0.0 { sides.0 } else { sides.1 })
}

// How many trillionths a degree has.
const TRILLION: f64 = 1_000_000_000_000.0;

// Appends a longitude and a latitude.
fn push_both(
    alloc: Global,
    text: &mut Vec<u8>,
    longitude: f64,
    latitude: f64,
) -> Result<(), AllocError> {
    push_degrees(alloc, text, longitude, (" W ", " E "))?;
    push_degrees(alloc, text, latitude, (" S", " N"))
}

/// Appends a longitude and a latitude, in trillionths of a degree, with one decimal each: `14.2 E 46.3 N`.
///
/// # Errors
///
/// Memory ran out.
pub fn push_degrees_of(
    alloc: Global,
    text: &mut Vec<u8>,
    degrees: (i64, i64),
) -> Result<(), AllocError> {
    let longitude = nearest_i64_to_f64(degrees.0) / TRILLION;
    push_both(
        alloc,
        text,
        longitude,
        nearest_i64_to_f64(degrees.1) / TRILLION,
    )
}

// Appends near which longitude and latitude the mean of the fixes that are used lies in a zone, if that is a place on the
// earth.
pub(crate) fn push_place(
    alloc: Global,
    text: &mut Vec<u8>,
    herd: &Herd<'_>,
    unit: Scale,
    zone: Zone,
) -> Result<(), AllocError> {
    let (easting, northing) = mean_of(herd, unit);
    let Some((longitude, latitude)) = place_of(easting, northing, zone.number, zone.is_south) else {
        return Ok(());
    };
    push(text, " near ")?;
    push_both(alloc, text, longitude, latitude)
}
