// What the texts of columns that are not read may say of where and when fixes are, and of which kind.

use crate::unread_marks::Marks;
use crate::unread_moments::Moments;
use crate::unread_sides::Sides;
use crate::unread_words::{is_clock_of_digits, is_grid_zone, is_numbered, is_of_clock, is_place};
use csv::ByteRecord;
use range_plane::OutOfMemory;
use split_filters::class_name;
use split_reading::{Row, Told};
use split_table::{TableFault, TableText};
use split_titles::{Pair, clock_of_half, is_half_of_day, unit_named};
use split_tracks::Reason;
use std::alloc::Global;

// How many bytes of a text tell it from others.
const TOLD_BYTES: usize = 32;

/// What all texts of a column are that are not missing.
#[derive(Clone, Copy, PartialEq, Eq, Debug)]
pub struct Texts {
    /// Whether there is one.
    pub are_there: bool,
    /// Whether they differ.
    pub are_several: bool,
    /// Whether all are halves of the day, as `am` and `pm`.
    pub are_halves: bool,
    /// Whether all are clocks, as 10:30 and 10:30:00.
    pub are_clocks: bool,
    // Which days with clocks they are.
    moments: Moments,
    /// Whether all are whole numbers from 0 to 24.
    pub are_hours: bool,
    /// Whether all are whole numbers from 0 to 59.
    pub are_minutes: bool,
    /// Whether all begin with a digit, as far as they were looked at.
    pub are_numbered: bool,
    /// Whether all are clocks in digits alone, as 0930 and 93000.
    pub are_digits: bool,
    /// Whether all are zones of time that are UTC.
    pub are_utc: bool,
    /// Whether all are offsets from UTC, or names of zones of time.
    pub are_of_clocks: bool,
    /// Whether all may be zones of UTM or parts of such, or codes of systems.
    pub are_grid_zones: bool,
    /// Whether all name units of lengths or angles.
    pub are_units: bool,
    /// Whether one is a number other than 0 of a record that has no coordinates.
    pub is_beside_none: bool,
    // The sides that they say.
    sides: Sides,
    marks: Marks,
    // Whether all are classes of Argos, and whether numbers and letters are among them.
    are_classes: bool,
    has_number: bool,
    has_letter: bool,
    first: [u8; TOLD_BYTES],
}

// The first bytes of a text.
fn told_bytes(text: &[u8]) -> [u8; TOLD_BYTES] {
    let mut bytes = [0u8; TOLD_BYTES];
    for (own, byte) in bytes.iter_mut().zip(text) {
        *own = *byte;
    }
    bytes
}

// Whether a text is one digit or two.
fn is_pair(text: &[u8]) -> bool {
    1 <= text.len() && text.len() <= 2 && text.iter().all(u8::is_ascii_digit)
}

// Whether a text is a clock: two or three pairs of digits with colons between them, or one to three before a half of the day.
fn is_clock(text: &[u8]) -> bool {
    let (clock, least) = match clock_of_half(text) {
        Some((clock, _)) => (clock, 0),
        None => (text, 1),
    };
    let colons = clock.iter().filter(|byte| **byte == b':').count();
    least <= colons && colons <= 2 && clock.split(|byte| *byte == b':').all(is_pair)
}

// Whether a text is an hour.
fn is_hour(text: &[u8]) -> bool {
    match text {
        [b'2', last] => b'0' <= *last && *last <= b'4',
        [b'0' | b'1', last] => last.is_ascii_digit(),
        [only] => only.is_ascii_digit(),
        _ => false,
    }
}

// Whether a text is a minute, or a second of one.
fn is_minute(text: &[u8]) -> bool {
    match text {
        [first, _] => is_pair(text) && *first <= b'5',
        _ => is_pair(text),
    }
}

// Whether a text is the zone of UTC, or no offset from it.
fn is_utc(text: &[u8]) -> bool {
    let is_nothing = text
        .iter()
        .all(|byte| matches!(*byte, b'0' | b':' | b'.' | b'+' | b'-'));
    let is_name = [b"utc".as_slice(), b"gmt", b"z"]
        .iter()
        .any(|name| text.eq_ignore_ascii_case(name));
    is_nothing || is_name
}

impl Texts {
    // Those of no text, of a column of this title, which stands beside one of coordinates or not.
    fn none(title: &[u8], is_beside: bool) -> Texts {
        Texts {
            are_there: false,
            are_several: false,
            are_halves: true,
            are_clocks: true,
            moments: Moments::none(),
            are_hours: true,
            are_minutes: true,
            are_numbered: true,
            are_digits: true,
            are_utc: true,
            are_of_clocks: true,
            are_grid_zones: true,
            are_units: true,
            is_beside_none: false,
            sides: Sides::none(title, is_beside),
            marks: Marks::none(title),
            are_classes: true,
            has_number: false,
            has_letter: false,
            first: [0; TOLD_BYTES],
        }
    }

    // Whether a text is the first one.
    fn is_first(&self, text: &[u8]) -> bool {
        self.first.get(..text.len()) == Some(text) && self.first.get(text.len()) == Some(&0)
    }

    // Whether a text changes nothing: one that is missing, or another time the first one, where no record more can tell.
    fn is_passed(&self, text: &[u8], is_nowhere: bool) -> bool {
        let is_missing = text.is_empty() || text == b"NA".as_slice();
        let is_told = !self.sides.are_some() && !self.marks.are_open();
        is_missing || self.is_first(text) && !is_nowhere && is_told
    }

    // The same with one text more, of a record that says this.
    fn with(self, text: &[u8], row: &Row) -> Texts {
        let text = text.trim_ascii();
        let is_nowhere = is_nowhere(row);
        if self.is_passed(text, is_nowhere) {
            return self;
        }
        let first = if self.are_there {
            self.first
        } else {
            told_bytes(text)
        };
        let class = if self.are_classes {
            class_name(text)
        } else {
            b""
        };
        let is_number = matches!(class, [b'0' | b'1' | b'2' | b'3']);
        let is_letter = matches!(class, [b'A' | b'B' | b'Z' | b'G']);
        Texts {
            are_there: true,
            are_several: self.are_several || first != told_bytes(text),
            are_halves: self.are_halves && is_half_of_day(text),
            are_clocks: self.are_clocks && is_clock(text),
            moments: self.moments.with(text),
            are_hours: self.are_hours && is_hour(text),
            are_minutes: self.are_minutes && is_minute(text),
            are_numbered: self.are_numbered && is_numbered(text),
            are_digits: self.are_digits && is_clock_of_digits(text),
            are_utc: self.are_utc && is_utc(text),
            are_of_clocks: self.are_of_clocks && (is_utc(text) || is_of_clock(text)),
            are_grid_zones: self.are_grid_zones && is_grid_zone(text),
            are_units: self.are_units && unit_named(text).is_some(),
            is_beside_none: self.is_beside_none || is_nowhere && is_place(text),
            sides: self.sides.with(text, degrees_of(row)),
            marks: if is_fix(row) {
                self.marks.with(text)
            } else {
                self.marks
            },
            are_classes: self.are_classes && (is_number || is_letter),
            has_number: self.has_number || is_number,
            has_letter: self.has_letter || is_letter,
            first,
        }
    }

    /// The first text, as far as texts are told apart; empty where there is none.
    pub fn first_text(&self) -> &[u8] {
        self.first.split(|byte| *byte == 0).next().unwrap_or(b"")
    }

    /// The one text, where all are the same, as far as texts are told apart.
    pub fn only(&self) -> Option<&[u8]> {
        if self.are_there && !self.are_several {
            Some(self.first_text())
        } else {
            None
        }
    }

    /// Whether they say that latitudes are south or longitudes west, which have no minus.
    pub fn are_against(&self) -> bool {
        self.are_there && self.sides.are_against()
    }

    /// Whether they may say which fixes count.
    pub fn may_count(&self) -> bool {
        self.marks.may_count()
    }

    /// Whether all are days with clocks, and not all at midnight.
    pub fn have_clocks(&self) -> bool {
        self.are_there && self.moments.have_clocks()
    }

    /// Whether they are classes of Argos, numbers and letters.
    pub fn are_of_argos(&self) -> bool {
        self.are_classes && self.has_number && self.has_letter
    }

    /// Whether all are written as classes of Argos, which may be numbers or letters alone.
    pub fn may_be_of_argos(&self) -> bool {
        self.are_there && self.are_classes
    }

    // Whether a text more may change what is said of them, but that they differ.
    fn are_open(&self) -> bool {
        self.are_halves
            || self.are_clocks
            || self.moments.are_open()
            || self.are_hours
            || self.are_minutes
            || self.are_digits
            || self.are_of_clocks
            || self.are_grid_zones
            || self.are_units
            || self.sides.are_some()
            || self.marks.are_open()
            || self.are_classes
            || self.are_utc
            || !self.are_several
    }
}

// The degrees of a row.
fn degrees_of(row: &Row) -> Option<(i64, i64)> {
    match row.told {
        Told::Fix(fix) => fix.degrees,
        Told::LeftOut(_) => None,
    }
}

// Whether a row tells of a fix.
fn is_fix(row: &Row) -> bool {
    matches!(row.told, Told::Fix(_))
}

// Whether a row tells of no fix, since it has no coordinates.
fn is_nowhere(row: &Row) -> bool {
    row.told == Told::LeftOut(Reason::Coordinates)
}

// Adds the texts that a record has in some columns.
fn add(texts: &mut [Texts], columns: &[usize], fields: &ByteRecord, row: &Row) {
    for (own, column) in texts.iter_mut().zip(columns) {
        let text = fields.get(*column).unwrap_or(b"");
        *own = own.with(text, row);
    }
}

// Whether a column stands right beside one of two others.
fn is_beside(column: usize, pair: Option<Pair>) -> bool {
    match pair {
        Some(pair) => column.abs_diff(pair.first) == 1 || column.abs_diff(pair.second) == 1,
        None => false,
    }
}

// The texts of columns of these titles without a record, beside degrees that are read.
fn no_texts(
    alloc: Global,
    titles: &ByteRecord,
    columns: &[usize],
    degrees: Option<Pair>,
) -> Result<Vec<Texts>, OutOfMemory> {
    let mut texts = Vec::new(alloc);
    for column in columns {
        let title = titles.get(*column).unwrap_or(b"");
        texts.push(Texts::none(title, is_beside(*column, degrees)))?;
    }
    Ok(texts)
}

/// What the texts of some columns are, beside degrees that are read, of a table whose records say this. All records are looked at if one has no coordinates and
/// one of the columns may have places; and else as many as can tell something.
///
/// # Errors
///
/// Memory ran out.
pub fn look_at_unread(
    alloc: Global,
    text: &TableText<'_>,
    columns: &[usize],
    degrees: Option<Pair>,
    have_places: bool,
    rows: &[Row],
) -> Result<Vec<Texts>, TableFault> {
    let mut table = text.table(alloc)?;
    let Ok(mut texts) = no_texts(alloc, table.titles(), columns, degrees) else {
        return Err(TableFault::OutOfMemory);
    };
    let has_none = have_places && rows.iter().any(is_nowhere);
    for row in rows {
        let is_open = has_none || texts.iter().any(Texts::are_open);
        if !is_open || !table.advance()? {
            return Ok(texts);
        }
        add(&mut texts, columns, table.current(), row);
    }
    Ok(texts)
}
