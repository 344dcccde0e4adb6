// Columns that are not read and name the one reference system of all coordinates.

ghost use Rattle.std.specs.Prelude.{IfErr};
ghost use Rattle.split_refusal.specs.Refused.{IsOfNoFix};

use crate::joined::Unread;
use crate::passed::refusal_of;
use crate::wish::Wish;
use split_export::Export;
use split_reading::{System, Zone, code_of, system_with, zone_of, zone_of_band};
use split_refusal::Refusal;
use split_titles::dictionary::{CLOCK_WORDS, OFFSET_WORDS, TIMES as TIME_WORDS};
use split_titles::has_word;
use std::alloc::{AllocError, Global};

// Words of titles of codes of reference systems, of these systems, and of zones of a grid.
pub(crate) const CODE_WORDS: [&str; 4] = ["epsg", "srid", "crs", "srs"];

const SYSTEM_WORDS: [&str; 8] = [
    "proj",
    "projection",
    "system",
    "sistema",
    "bezugssystem",
    "datum",
    "ref",
    "sref",
];

pub(crate) const ZONE_WORDS: [&str; 28] = [
    "zone",
    "zones",
    "zona",
    "zonas",
    "zonen",
    "huso",
    "fuso",
    "fuseau",
    "utm",
    "utmz",
    "utmzone",
    "zonenumber",
    "zoneletter",
    "mgrs",
    "strefa",
    "pásmo",
    "cona",
    "pojas",
    "пояс",
    "зона",
    "dilim",
    "dilimi",
    "fus",
    "sone",
    "vyöhyke",
    "josla",
    "juosta",
    "ζώνη",
];

// How the name of a zone may begin.
const UTM: &[u8] = b"utm";

// A reference system that a column names.
#[derive(Clone, Copy)]
enum Named {
    Zone(Zone),
    Degrees,
    Mercator,
    // The code of another one.
    Code(u32),
}

// What stands behind the last blank of a text.
fn last_word(text: &[u8]) -> &[u8] {
    let mut last: &[u8] = text;
    for word in text.split(|byte| *byte == b' ') {
        last = word;
    }
    last
}

// A word without the name of UTM before it.
fn without_utm(word: &[u8]) -> &[u8] {
    match word.split_at_checked(UTM.len()) {
        Some((name, rest)) if name.eq_ignore_ascii_case(UTM) => rest,
        _ => word,
    }
}

// The zone that a text names, as `33N`, `33T`, `33 N`, `UTM 33N` and `WGS 84 / UTM zone 33N`.
fn zone_named(text: &[u8]) -> Option<Zone> {
    let word = without_utm(last_word(text));
    zone_of(text)
        .or(zone_of_band(text))
        .or(zone_of(word))
        .or(zone_of_band(word))
}

// The system of a code.
fn named_by(code: u32) -> Named {
    match system_with(code) {
        System::Degrees => Named::Degrees,
        System::Mercator => Named::Mercator,
        System::Utm(zone) => Named::Zone(zone),
        System::Other => Named::Code(code),
    }
}

// Whether a text says itself that it is a code of EPSG.
fn says_code(text: &[u8]) -> bool {
    text.windows(4)
        .any(|bytes| bytes.eq_ignore_ascii_case(b"epsg"))
}

// The system that the text of a column of this title names, if it names one.
fn named_in(title: &[u8], text: &[u8]) -> Option<Named> {
    let has_codes = has_word(title, &CODE_WORDS);
    let is_of_system = has_codes || has_word(title, &SYSTEM_WORDS);
    if let (true, Some(zone)) = (
        is_of_system || has_word(title, &ZONE_WORDS),
        zone_named(text),
    ) {
        return Some(Named::Zone(zone));
    }
    if has_codes || is_of_system && says_code(text) {
        return Some(named_by(code_of(text)?));
    }
    None
}

// Words of titles of numbers of zones of UTM.
const NUMBER_WORDS: [&str; 7] = [
    "utm",
    "utmz",
    "utmzone",
    "zonenumber",
    "huso",
    "fuso",
    "fuseau",
];

// The number of one or two digits that a text is, with the decimal 0 or without it.
fn small_number(text: &[u8]) -> Option<u8> {
    match text.strip_suffix(b".0").unwrap_or(text) {
        [ones @ b'1'..=b'9'] => Some(*ones - 48),
        [tens @ b'0'..=b'6', ones @ b'0'..=b'9'] => {
            Some((*tens - 48).saturating_mul(10).saturating_add(*ones - 48))
        }
        _ => None,
    }
}

// The zone whose number alone the text of a column of this title has, on the side of the one that was named.
fn zone_by_number(wish: &Wish<'_>, title: &[u8], text: &[u8]) -> Option<Named> {
    let is_south = wish.zone?.is_south;
    let is_of_times = has_word(title, &CLOCK_WORDS)
        || has_word(title, &OFFSET_WORDS)
        || has_word(title, &TIME_WORDS);
    if is_of_times || !has_word(title, &NUMBER_WORDS) {
        return None;
    }
    let number = small_number(text)?;
    Some(Named::Zone(Zone { number, is_south }))
}

// Whether a wish is of another system than a zone that is named.
fn is_of_other_zone(wish: &Wish<'_>, zone: Zone) -> bool {
    match (wish.zone, code_of(wish.system)) {
        (Some(wished), _) => wished != zone,
        (None, Some(code)) => system_with(code) != System::Utm(zone),
        (None, None) => false,
    }
}

// Whether a wish is of another system than one of this code.
fn is_of_other_code(wish: &Wish<'_>, code: u32) -> bool {
    match code_of(wish.system) {
        Some(wished) => wished != code,
        None => wish.zone.is_some(),
    }
}

// Whether a wish says of which system coordinates are.
fn is_of_some(wish: &Wish<'_>) -> bool {
    wish.zone.is_some() || !wish.system.is_empty()
}

// The sign of a zone's hemisphere.
fn side_of(zone: Zone) -> char {
    if zone.is_south { 'S' } else { 'N' }
}

// What is said of a system that was not named, and by which option it is.
fn unnamed_words(alloc: Global, named: Named) -> Result<Option<String>, AllocError> {
    let words = match named {
        Named::Zone(zone) => {
            let (number, side) = (zone.number, side_of(zone));
            format!(in alloc;
                "says of which zone coordinates are, and is not read: name it, as by --zone {number}{side}, or remove it"
            )?
        }
        Named::Code(code) => format!(in alloc;
            "says of which system coordinates are, and is not read: name it, as by --crs EPSG:{code}, or remove it"
        )?,
        _ => return Ok(None),
    };
    Ok(Some(words))
}

// What is said of a system beside this wish, where coordinates are not read as it has them.
fn words_beside(
    alloc: Global,
    wish: &Wish<'_>,
    named: Named,
) -> Result<Option<String>, AllocError> {
    let is_other = match named {
        Named::Zone(zone) => is_of_other_zone(wish, zone),
        Named::Code(code) => is_of_other_code(wish, code),
        _ => false,
    };
    match named {
        Named::Mercator => Ok(Some(format!(in alloc;
            "says that coordinates are of a projection of Mercator, whose areas are wrong: project them into their zone of UTM, or \
             remove it where it is not theirs"
        )?)),
        Named::Degrees => Ok(Some(format!(in alloc;
            "says that coordinates are longitude and latitude, and they are read as metres: name them by --lon and --lat, or remove it \
             where it is not theirs"
        )?)),
        _ if is_other => Ok(Some(format!(in alloc;
            "says another reference system of coordinates than is named: name that one, or remove it where it is not theirs"
        )?)),
        _ if is_of_some(wish) => Ok(None),
        _ => unnamed_words(alloc, named),
    }
}

// The refusal of a column for the system that its one text names, if it is refused.
fn refusal_in(
    alloc: Global,
    wish: &Wish<'_>,
    column: usize,
    title: &[u8],
    text: &[u8],
) -> Result<(), Refusal>
    ensures { IfErr result IsOfNoFix }
{
    let named = named_in(title, text);
    let Some(named) = named.or(zone_by_number(wish, title, text)) else {
        return Ok(());
    };
    match words_beside(alloc, wish, named) {
        Ok(Some(words)) => Err(refusal_of(alloc, column, title, &words)),
        Ok(None) => Ok(()),
        Err(_) => Err(Refusal::out_of_memory(alloc)),
    }
}

/// Refuses metres of a system of their own of which a column that is not read names another one, or one that nobody named.
///
/// # Errors
///
/// There is such a column, or memory ran out.
pub(crate) fn refuse_systems(
    alloc: Global,
    wish: &Wish<'_>,
    export: &Export<'_>,
    unread: Unread<'_>,
) -> Result<(), Refusal>
    ensures { IfErr result IsOfNoFix }
{
    let read = &export.columns;
    if read.metres.is_none() || read.is_utm || read.degrees.is_some() {
        return Ok(());
    }
    for (column, texts) in unread.columns.iter().zip(unread.texts) {
        if let Some(text) = texts.only() {
            refusal_in(alloc, wish, *column, unread.title(*column), text)?;
        }
    }
    Ok(())
}
