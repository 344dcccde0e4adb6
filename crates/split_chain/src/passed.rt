// Columns that are not read, and whose texts may say where or when fixes are, or of which kind.

ghost use Rattle.std.specs.Prelude.{IfErr};
ghost use Rattle.split_refusal.specs.Refused.{IsOfNoFix};

use crate::beside::refuse_beside;
use crate::halves::refuse_halves;
use crate::joined::{SECONDS, Unread, join_words, joined_titles, own_title, refuse_parts};
use crate::minutes::refuse_minutes;
use crate::other_clocks::refuse_offsets;
use crate::summers::refuse_summers;
use crate::systems::{CODE_WORDS, ZONE_WORDS, refuse_systems};
use crate::units::refuse_units;
use crate::wish::Wish;
use range_plane::Scale;
use split_clock::Clock;
use split_export::{Export, Texts, look_at_unread};
use split_reading::{Row, Told};
use split_refusal::{Kind, Refusal, sign_of};
use split_titles::dictionary::{
    CLOCK_WORDS, HOURS as HOUR_WORDS, OFFSET_WORDS, OTHER_TIMES, TIMES as TIME_WORDS,
};
use split_titles::{comes_to, has_word, is_of_hours, is_of_places, not_read, trimmed};
use std::alloc::{AllocError, Global};

// The seconds of a day.
pub(crate) const DAY: i128 = 86_400;

// The seconds of a minute.
const MINUTE: u64 = 60;

// The zone that every clock without a name is of.
pub(crate) const UTC: &str = "UTC";

// Titles of hours whose words are those of other things too.
const HOURS: [&[u8]; 8] = [
    b"std",
    b"ora",
    b"\xC3\xB3ra",
    b"\xC3\x93ra",
    b"hr",
    b"hrs",
    b"uhr",
    b"hh",
];

// Words of titles that name UTC.
const UTC_WORDS: [&str; 2] = ["utc", "gmt"];

// The title that Movebank has for the zone of `study-local-timestamp`, beside times of UTC.
const OF_LOCAL_TIMES: &[u8] = b"study-timezone";

// Titles of the zone of times and of zones of a grid.
const OFFSETS: [&[u8]; 10] = [
    b"time-offset",
    b"offset-time",
    b"utc-offset",
    b"utcoffset",
    b"timezone",
    b"time-zone",
    b"tz",
    b"gmt-offset",
    b"tz-offset",
    b"timezone-offset",
];

const ZONES: [&[u8]; 17] = [
    b"zone",
    b"zona",
    b"huso",
    b"fuso",
    b"fuseau",
    b"utmz",
    b"utmzone",
    b"utm-zone-number",
    b"zone-number",
    b"zonenumber",
    b"zone-letter",
    b"zoneletter",
    b"grid-zone",
    b"epsg",
    b"epsg-code",
    b"srid",
    b"crs",
];

// Titles that classes of Argos have, and classes of land and of beasts.
const CLASSES: [&[u8]; 2] = [b"lc", b"class"];

// What a column that is not read says.
#[derive(Clone, Copy)]
enum Passed {
    // That it was south or west, of degrees without a minus.
    Side,
    // The Argos class, and one under a title that other classes have.
    Classes,
    OddClasses,
    // The clock, of times that are days alone.
    Clock,
    // The day and the clock, of such times.
    Moment,
    // The hour, of such times.
    Hour,
    // The hour in another form than that of one number.
    OddHour,
    // The minute, of times that are hours alone, and the second, of such that are minutes.
    Minute,
    Second,
    // Of which zone times are.
    Offset,
    // Of which zone coordinates are.
    Zone,
    // Coordinates of records that have none elsewhere.
    Places,
    // Which fixes count.
    Marks,
}

// Whether a title is one of these.
fn is_one_of(title: &[u8], titles: &[&[u8]]) -> bool {
    titles.iter().any(|own| comes_to(title, own))
}

// Whether the words of a title are those of the zone of times.
fn is_of_clock(title: &[u8]) -> bool {
    let is_zone_of_time = has_word(title, &ZONE_WORDS) && has_word(title, &TIME_WORDS);
    has_word(title, &CLOCK_WORDS) || is_zone_of_time
}

// Whether the words of a title say that a column may have offsets from UTC.
fn may_be_offset(title: &[u8]) -> bool {
    let is_bare = is_one_of(title, &[b"utc".as_slice(), b"gmt"]);
    let is_offset = has_word(title, &UTC_WORDS) && has_word(title, &OFFSET_WORDS);
    is_bare || is_offset || is_of_clock(title)
}

// Whether a title is that of offsets from UTC or of zones of times.
pub(crate) fn says_offset(title: &[u8]) -> bool {
    is_one_of(title, &OFFSETS) || may_be_offset(title)
}

// Whether a column of this title and with such texts says of which zone times are, and that this is not UTC.
fn has_offsets(title: &[u8], texts: &Texts) -> bool {
    let is_one = is_one_of(title, &OFFSETS) || texts.are_of_clocks && may_be_offset(title);
    is_one && !texts.are_utc && !comes_to(title, OF_LOCAL_TIMES)
}

// Whether a column of this title and with such texts has several zones of a grid.
fn has_grid_zones(title: &[u8], texts: &Texts) -> bool {
    let has_zones = texts.are_grid_zones && has_word(title, &ZONE_WORDS) && !is_of_clock(title);
    texts.are_several && (is_one_of(title, &ZONES) || has_word(title, &CODE_WORDS) || has_zones)
}

// Whether a column of this title and with such texts has times of fixes, with a clock.
fn has_moments(title: &[u8], texts: &Texts) -> bool {
    texts.are_several && texts.have_clocks() && !has_word(title, &OTHER_TIMES)
}

// Whether a column of this title and with such texts has hours: several, or one beside minutes that differ.
fn has_hours(title: &[u8], texts: &Texts, has_minutes: bool) -> bool {
    let is_one = is_one_of(title, &HOURS) || has_word(title, &HOUR_WORDS) || is_of_hours(title);
    (texts.are_several || has_minutes) && texts.are_numbered && is_one
}

// Words of titles of lengths of time and of other numbers, beside words for the time.
const NO_CLOCKS: [&str; 16] = [
    "times",
    "temps",
    "interval",
    "to",
    "lag",
    "since",
    "between",
    "elapsed",
    "duration",
    "delta",
    "diff",
    "difference",
    "step",
    "until",
    "per",
    "gap",
];

// Whether a column of this title and with such texts has clocks in digits alone.
fn has_digits(title: &[u8], texts: &Texts) -> bool {
    let is_other = has_word(title, &OTHER_TIMES) || has_word(title, &NO_CLOCKS);
    let is_one = has_word(title, &TIME_WORDS) && !is_other;
    texts.are_several && texts.are_digits && is_one
}

// Whether a column of this title and with such texts has minutes or seconds, for which this sign stands.
fn is_part(title: &[u8], texts: &Texts, sign: &str) -> bool {
    texts.are_several && texts.are_minutes && sign_of(title, texts.first_text()) == Some(sign)
}

// Whether the fix of a row, if it has one, was at midnight by a clock.
fn is_at_midnight(row: &Row, clock: &Clock) -> bool {
    match row.told {
        Told::Fix(fix) => {
            fix.moment.nanosecond == 0
                && clock.local_second(fix.moment.second).checked_rem(DAY) == Some(0)
        }
        Told::LeftOut(_) => true,
    }
}

// Whether the times of an export are days alone.
fn are_days(export: &Export<'_>, clock: &Clock) -> bool {
    !export.columns.time.is_empty()
        && !export.columns.is_second
        && export
            .ledger
            .rows
            .iter()
            .all(|row| is_at_midnight(row, clock))
}

// Whether the time of a row, if it has one, is of whole minutes.
fn is_of_minutes(row: &Row) -> bool {
    match row.told {
        Told::Fix(fix) => {
            fix.moment.nanosecond == 0 && fix.moment.second.checked_rem(MINUTE) == Some(0)
        }
        Told::LeftOut(_) => true,
    }
}

// Whether times have minutes and no seconds, by their forms, or by all of them where they are text of ISO and not days alone.
fn lack_seconds(export: &Export<'_>, wish: &Wish<'_>) -> bool {
    if wish.forms.is_empty() {
        export.ledger.rows.iter().all(is_of_minutes) && !are_days(export, wish.clock)
    } else {
        wish.forms.contains("%M") && !wish.forms.contains("%S")
    }
}

// What is known of an export beside its columns.
#[derive(Clone, Copy)]
struct Known {
    has_time: bool,
    are_days: bool,
    has_classes: bool,
    has_own_metres: bool,
    is_in_utc: bool,
    // Whether the forms of times have hours and no minutes, and minutes and no seconds.
    lacks_minutes: bool,
    lacks_seconds: bool,
    // Whether a column that is not read has minutes that differ.
    has_minutes: bool,
    // Whether the column `use` says which fixes count.
    has_use: bool,
}

// Whether one of the columns that are not read has minutes that differ.
fn has_minutes(unread: Unread<'_>) -> bool {
    for (column, texts) in unread.columns.iter().zip(unread.texts) {
        if texts.are_there && is_part(unread.title(*column), texts, "%M") {
            return true;
        }
    }
    false
}

// What is known of an export, of which this is wished.
fn known_of(export: &Export<'_>, wish: &Wish<'_>, unread: Unread<'_>) -> Known {
    let columns = &export.columns;
    let forms = wish.forms;
    Known {
        has_time: !columns.time.is_empty() && !columns.is_second,
        are_days: are_days(export, wish.clock),
        has_classes: columns.argos.is_some(),
        has_own_metres: columns.metres.is_some() && !columns.is_utm,
        is_in_utc: wish.clock_name == UTC,
        lacks_minutes: (forms.contains("%H") || forms.contains("%I")) && !forms.contains("%M"),
        lacks_seconds: lack_seconds(export, wish),
        has_minutes: has_minutes(unread),
        has_use: columns.marks.usage.is_some(),
    }
}

// What a column of this title and with such texts says that is not read, if it says something.
fn what_is_passed(known: Known, title: &[u8], texts: &Texts) -> Option<Passed> {
    if !texts.are_there {
        None
    } else if texts.are_against() {
        Some(Passed::Side)
    } else if !known.has_classes && texts.may_be_of_argos() && is_one_of(title, &CLASSES) {
        Some(Passed::OddClasses)
    } else if !known.has_classes && texts.are_of_argos() {
        Some(Passed::Classes)
    } else if known.are_days && texts.are_several && texts.are_clocks {
        Some(Passed::Clock)
    } else if known.are_days && has_moments(title, texts) {
        Some(Passed::Moment)
    } else if known.are_days && has_hours(title, texts, known.has_minutes) {
        Some(if texts.are_hours {
            Passed::Hour
        } else {
            Passed::OddHour
        })
    } else if known.are_days && has_digits(title, texts) {
        Some(Passed::OddHour)
    } else if known.lacks_minutes && is_part(title, texts, "%M") {
        Some(Passed::Minute)
    } else if known.has_time && known.lacks_seconds && is_part(title, texts, SECONDS) {
        Some(Passed::Second)
    } else if known.has_time && known.is_in_utc && has_offsets(title, texts) {
        Some(Passed::Offset)
    } else if known.has_own_metres && has_grid_zones(title, texts) {
        Some(Passed::Zone)
    } else if texts.is_beside_none && is_of_places(title) {
        Some(Passed::Places)
    } else if !known.has_use && texts.may_count() {
        Some(Passed::Marks)
    } else {
        None
    }
}

// What a column of parts of times has, and which sign stands for it; nothing of another column.
fn part_of(passed: Passed) -> Option<(&'static str, &'static str)> {
    match passed {
        Passed::Hour => Some(("hours, which the days of the time have not", "%H")),
        Passed::Minute => Some(("minutes, which the hours of the time have not", "%M")),
        Passed::Second => Some(("seconds, which the minutes of the time have not", SECONDS)),
        _ => None,
    }
}

// Why a column may not be passed over, and the remedy, where that is one for all columns.
fn words_of(passed: Passed) -> &'static str {
    match passed {
        Passed::Side => {
            "has S or W beside degrees above 0, and is not read: if they lie there, write them with a minus and remove it, and else \
             write its values otherwise"
        }
        Passed::Classes => {
            "may have Argos classes: name it, as by --argos COLUMN, or write its values otherwise where it has none"
        }
        Passed::Marks => {
            "may say which fixes count, and is not read: leave out the records that do not, and remove it, or write its values otherwise"
        }
        Passed::Offset => {
            "says of which zone times are, and is not read: name the zone, as by --tz Europe/Ljubljana, or write the offset behind \
             each time, and remove it"
        }
        Passed::Zone => {
            "has several values: if they are zones of the coordinates, make a table of each; and else rename or remove it"
        }
        Passed::Places => {
            "has coordinates of records that have none in the columns that are read: make a table of each, or remove it"
        }
        Passed::OddClasses
        | Passed::Clock
        | Passed::Moment
        | Passed::Hour
        | Passed::OddHour
        | Passed::Minute
        | Passed::Second => "",
    }
}

// Why a column may not be passed over, and the remedy.
fn words_about(
    alloc: Global,
    export: &Export<'_>,
    wish: &Wish<'_>,
    unread: Unread<'_>,
    column: usize,
    passed: Passed,
) -> Result<String, AllocError> {
    if let Some((what, sign)) = part_of(passed) {
        let joined = join_words(alloc, export, wish, unread, column, sign)?;
        return format!(in alloc; "has {what}: {joined}, or remove it");
    }
    if let Passed::OddClasses = passed {
        let title = str::from_utf8(unread.title(column)).unwrap_or("");
        return format!(in alloc;
            "may have Argos classes: name it, as by --argos {title}, or rename or remove it"
        );
    }
    if let Passed::Moment = passed {
        let title = own_title(alloc, unread, column)?;
        return format!(in alloc;
            "has days with clocks, and the times that are read are days alone: name it as the time, as by --time '{title}', or remove it"
        );
    }
    let titles = joined_titles(alloc, export, unread, column)?;
    match passed {
        Passed::Clock => format!(in alloc;
            "has hours, which the days of the time have not: join them, as by --time '{titles}', or remove it"
        ),
        Passed::OddHour => format!(in alloc;
            "has hours, which the days of the time have not: write them as clocks, such as 00:30, and join them, as by --time '{titles}', \
             or remove it"
        ),
        _ => String::from_str(alloc, words_of(passed)),
    }
}

// The refusal of a table for a column that may not be passed over.
fn passed_refusal(
    alloc: Global,
    export: &Export<'_>,
    wish: &Wish<'_>,
    unread: Unread<'_>,
    column: usize,
    passed: Passed,
) -> Refusal
    ensures { IsOfNoFix result }
{
    match words_about(alloc, export, wish, unread, column, passed) {
        Ok(words) => refusal_of(alloc, column, unread.title(column), &words),
        Err(_) => Refusal::out_of_memory(alloc),
    }
}

/// The refusal of a table for a column of this title, of which these words are said.
pub(crate) fn refusal_of(alloc: Global, column: usize, title: &[u8], words: &str) -> Refusal
    ensures { IsOfNoFix result }
{
    let title = str::from_utf8(trimmed(title)).unwrap_or("");
    let number = column.saturating_add(1);
    let text = format!(in alloc; "column {number} '{title}' {words}");
    refusal_with(alloc, text)
}

// The refusal with this text.
fn refusal_with(alloc: Global, text: Result<String, AllocError>) -> Refusal
    ensures { IsOfNoFix result }
{
    match text {
        Ok(text) => Refusal::new(alloc, Kind::Columns, None, text.as_bytes()),
        Err(_) => Refusal::out_of_memory(alloc),
    }
}

// The first column that may not be passed over.
fn first_passed(known: Known, unread: Unread<'_>) -> Option<(usize, Passed)> {
    for (column, texts) in unread.columns.iter().zip(unread.texts) {
        if let Some(what) = what_is_passed(known, unread.title(*column), texts) {
            return Some((*column, what));
        }
    }
    None
}

/// The title of a column of an export.
pub(crate) fn title_at<'a>(export: &'a Export<'_>, column: usize) -> &'a [u8] {
    match export.titles.get(column) {
        Some(title) => title.as_slice(),
        None => b"",
    }
}

// Refuses a table for its columns that are not read.
fn refuse_unread(
    alloc: Global,
    wish: &Wish<'_>,
    export: &Export<'_>,
    unread: Unread<'_>,
) -> Result<(), Refusal>
    ensures { IfErr result IsOfNoFix }
{
    if let Some((column, what)) = first_passed(known_of(export, wish, unread), unread) {
        return Err(passed_refusal(alloc, export, wish, unread, column, what));
    }
    refuse_halves(alloc, wish, export, unread)?;
    refuse_systems(alloc, wish, export, unread)?;
    refuse_units(alloc, export, unread)?;
    refuse_summers(alloc, wish, export, unread)?;
    refuse_minutes(alloc, export, unread)?;
    refuse_offsets(alloc, wish, export, unread)?;
    refuse_parts(alloc, export, unread)
}

/// Refuses a table of which a column that is not read may say where or when fixes are, or of which kind.
///
/// # Errors
///
/// There is such a column, or memory ran out.
pub(crate) fn refuse_passed_over(
    alloc: Global,
    unit: Scale,
    wish: &Wish<'_>,
    export: &Export<'_>,
) -> Result<(), Refusal>
    ensures { IfErr result IsOfNoFix }
{
    let Ok(columns) = not_read(alloc, &export.columns, export.titles.len()) else {
        return Err(Refusal::out_of_memory(alloc));
    };
    if columns.is_empty() {
        return Ok(());
    }
    let have_places = columns
        .iter()
        .any(|column| is_of_places(title_at(export, *column)));
    let rows = &export.ledger.rows;
    let Ok(texts) = look_at_unread(
        alloc,
        &export.text,
        &columns,
        export.columns.degrees,
        have_places,
        rows,
    ) else {
        return Err(Refusal::out_of_memory(alloc));
    };
    let unread = Unread {
        titles: &export.titles,
        columns: &columns,
        texts: &texts,
    };
    refuse_unread(alloc, wish, export, unread)?;
    refuse_beside(alloc, unit, wish, export)
}
