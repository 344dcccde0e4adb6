// Reference systems, by their codes.

ghost use Rattle.std.specs.Prelude.{◌<◌, ◌≡◌};
ghost use Rattle.split_reading.specs.Systems.{system_with, utm};

use crate::zone::Zone;
use range_numbers::value_of;

// The most that the code of a system may be.
const MOST_CODE: u64 = 999_999;

// Codes of longitude and latitude: WGS 84 and its three dimensions, ETRS89, NAD83, NAD27, GDA94, GDA2020, SIRGAS 2000.
const DEGREES: [u32; 8] = [4326, 4979, 4258, 4269, 4267, 4283, 7844, 4674];

// Codes of projections of Mercator: those of maps in browsers, and World Mercator.
const MERCATOR: [u32; 7] = [3857, 3395, 3785, 54_004, 102_100, 102_113, 900_913];

/// What a reference system is, by its code.
#[derive(Clone, Copy, PartialEq, Eq, Debug)]
pub enum System {
    /// Its coordinates are longitude and latitude.
    Degrees,
    /// It is a projection of Mercator, whose areas grow with the latitude.
    Mercator,
    /// It is a zone of UTM, of WGS 84, ETRS89 or NAD83.
    Utm(Zone),
    /// It is another one.
    Other,
}

// A zone of UTM by its number.
fn utm(number: u32, is_south: bool) -> System
    requires { number < 256 }
    ensures { result ≡ utm number is_south }
{
    System::Utm(Zone {
        number: number as u8,
        is_south,
    })
}

/// What the system of a code is.
pub fn system_with(code: u32) -> System
    ensures { result ≡ system_with code }
{
    if DEGREES.contains(&code) {
        System::Degrees
    } else if MERCATOR.contains(&code) {
        System::Mercator
    } else if 32_601 <= code && code <= 32_660 {
        utm(code - 32_600, false)
    } else if 32_701 <= code && code <= 32_760 {
        utm(code - 32_700, true)
    } else if 25_828 <= code && code <= 25_838 {
        utm(code - 25_800, false)
    } else if 26_901 <= code && code <= 26_923 {
        utm(code - 26_900, false)
    } else {
        System::Other
    }
}

// What stands behind the last colon of a text, without blanks beside it.
fn behind_colon(text: &[u8]) -> &[u8] {
    let mut last: &[u8] = text;
    for part in text.split(|byte| *byte == b':') {
        last = part;
    }
    last.trim_ascii()
}

/// The code of a system that a text names, as `EPSG:32633`, `32633` and `urn:ogc:def:crs:EPSG::32633`; none where it has another form.
pub fn code_of(text: &[u8]) -> Option<u32> {
    let digits = behind_colon(text);
    match value_of(digits, MOST_CODE) {
        Some(code) if 4 <= digits.len() => u32::try_from(code).ok(),
        _ => None,
    }
}
