// UTM zones.

ghost use Rattle.std.specs.Prelude.{◌≡◌};
ghost use Rattle.csv.specs.Records.{fields_of};
ghost use Rattle.split_reading.specs.Zones.{is_south_in, is_south_in_band, number_of, number_text, zone_at, zone_in, zone_of, zone_of_band, zone_or_at};

use crate::cells::{cell, is_missing};
use crate::fault::CellFault;
use crate::rules::Rules;
use csv::ByteRecord;
use range_numbers::value_of;
use split_projection::zone_number;

/// A UTM zone.
#[derive(Clone, Copy, PartialEq, Eq, Debug)]
pub struct Zone {
    /// From 1 to 60.
    pub number: u8,
    pub is_south: bool,
}

// Whether a letter is that of the south; `None` where it is of neither hemisphere.
fn is_south_in(letter: u8) -> Option<bool>
    ensures { result ≡ is_south_in letter }
{
    match letter {
        b'N' | b'n' => Some(false),
        b'S' | b's' => Some(true),
        _ => None,
    }
}

// Whether the band of a letter, of eight degrees of latitude, is in the south; `None` where it is of none.
fn is_south_in_band(letter: u8) -> Option<bool>
    ensures { result ≡ is_south_in_band letter }
{
    match letter {
        b'C'..=b'M' => Some(true),
        b'N'..=b'X' => Some(false),
        _ => None,
    }
}

// A number before its hemisphere, from which one blank may part it.
fn number_text(text: &[u8]) -> &[u8]
    ensures { result.now ≡ number_text text.entry.now }
{
    match text.split_last() {
        Some((b' ', digits)) => digits,
        _ => text,
    }
}

// The number of a zone: of one digit or two, before which a 0 may stand.
fn number_of(digits: &[u8]) -> Option<u8>
    ensures { result ≡ number_of digits.now }
{
    let has_form = digits.len() < 3
        || (digits.len() == 3 && digits[0] == b'0' && digits[1] != b'0');
    match value_of(digits, 60) {
        Some(number) if has_form && 1 <= number && number <= 60 => Some(number as u8),
        _ => None,
    }
}

/// The zone of a text, as `33N`: a number from 1 to 60, where a 0 may stand before one digit or two, with the letter of
/// the hemisphere, which may be small and have one blank before it.
pub fn zone_of(text: &[u8]) -> Option<Zone>
    ensures { result ≡ zone_of text.now }
{
    let (letter, before) = text.split_last()?;
    let is_south = is_south_in(*letter)?;
    let number = number_of(number_text(before))?;
    Some(Zone { number, is_south })
}

/// The zone of a text with the letter of a band of latitudes, as `33T`, which is a capital from C to M in the south, and from N to X
/// in the north.
pub fn zone_of_band(text: &[u8]) -> Option<Zone>
    ensures { result ≡ zone_of_band text.now }
{
    let (letter, before) = text.split_last()?;
    match (number_of(number_text(before)), is_south_in_band(*letter)) {
        (Some(number), Some(is_south)) => Some(Zone { number, is_south }),
        _ => None,
    }
}

/// The zone of a longitude and a latitude in trillionths of a degree: by the longitude alone, and of the south where the latitude
/// is below 0.
pub fn zone_at(longitude: i64, latitude: i64) -> Zone
    ensures { result ≡ zone_at longitude latitude }
{
    Zone {
        number: zone_number(longitude),
        is_south: latitude < 0,
    }
}

// The zone of a fix: the one that its record names, or else that of its longitude, if it has one.
pub(crate) fn zone_or_at(named: Option<Zone>, degrees: Option<(i64, i64)>) -> Option<Zone>
    ensures { result ≡ zone_or_at named degrees }
{
    match (named, degrees) {
        (Some(zone), _) => Some(zone),
        (None, Some((longitude, latitude))) => Some(zone_at(longitude, latitude)),
        (None, None) => None,
    }
}

// The zone that a record names, if it names one.
pub(crate) fn zone_in(fields: &ByteRecord, rules: &Rules<'_, '_>) -> Result<Option<Zone>, CellFault>
    ensures { result ≡ zone_in rules.now (fields_of «fields».now) }
{
    let Some(column) = rules.zone else {
        return Ok(None);
    };
    let text = cell(fields, column, rules);
    if is_missing(text) {
        return Ok(None);
    }
    match zone_of(text) {
        Some(zone) => Ok(Some(zone)),
        None => Err(CellFault::NotZone { column }),
    }
}
