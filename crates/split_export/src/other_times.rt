// Times in columns that are not read, beside those of fixes that are taken.

use split_clock::Clock;
use split_reading::{Row, Rules, Told, ToldFix, time_text};
use split_table::{Table, TableFault, TableText};
use split_times::{
    FIRST_SECOND, Forms, LocalTime, Moment, SECONDS_END, TextTime, iso_time, number_moment,
    seconds_in,
};
use std::alloc::Global;

// The bytes of a day of ISO, and the seconds of a day, of half a day, of an hour, of a quarter of one and of a minute.
const DAY_BYTES: usize = 10;

const DAY: i128 = 86_400;

const NOON: i128 = 43_200;

const HOUR: u128 = 3_600;

const QUARTER: i128 = 900;

const MINUTE: i128 = 60;

// By how many seconds clocks of one moment are apart at most.
const MOST_APART: u128 = 50_400;

// The milliseconds of a second.
const MILLI: u64 = 1_000;

// Forms of times that are not of ISO, of which one text may have several.
const FORMS: [&[u8]; 3] = [
    b"%d.%m.%Y %H:%M:%S|%d.%m.%Y %H:%M",
    b"%d/%m/%Y %H:%M:%S|%d/%m/%Y %H:%M|%d/%m/%Y %I:%M:%S %p|%d/%m/%Y %I:%M %p",
    b"%m/%d/%Y %H:%M:%S|%m/%d/%Y %H:%M|%m/%d/%Y %I:%M:%S %p|%m/%d/%Y %I:%M %p",
];

// What a time of a column that is not read is written as.
#[derive(Clone, Copy, PartialEq, Eq)]
enum Kind {
    Whole,
    // A day without a clock.
    Day,
    // A clock without a day.
    Clock,
    // A number of milliseconds.
    Millis,
}

// A time of a column that is not read.
#[derive(Clone, Copy)]
struct OtherTime {
    time: TextTime,
    kind: Kind,
}

// The moment of a number of milliseconds since 1970.
fn moment_of_millis(text: &[u8]) -> Option<Moment> {
    let second = seconds_in(text)?.second.checked_div(MILLI)?;
    if FIRST_SECOND <= second && second < SECONDS_END {
        Some(Moment {
            second,
            nanosecond: 0,
        })
    } else {
        None
    }
}

// The time that a clock shows at this second.
fn local_time(second: i128) -> Option<TextTime> {
    let second = i64::try_from(second).ok()?;
    Some(TextTime::Local(LocalTime {
        second,
        nanosecond: 0,
    }))
}

// A number below another one.
fn number_below(text: &[u8], end: u64) -> Option<i128> {
    let number = seconds_in(text)?.second;
    if number < end {
        Some(i128::from(number))
    } else {
        None
    }
}

// The second of a day of a clock alone, as 10:30 and 10:30:05.
fn clock_in(text: &[u8]) -> Option<i128> {
    let mut parts = text.split(|byte| *byte == b':');
    let hour = number_below(parts.next()?, 24)?;
    let minute = number_below(parts.next()?, 60)?;
    let second = match parts.next() {
        Some(part) => number_below(part, 60)?,
        None => 0,
    };
    let minutes = hour.saturating_mul(60).saturating_add(minute);
    Some(minutes.saturating_mul(MINUTE).saturating_add(second))
}

// The second of a clock alone that is nearest to another second.
fn nearest_of_clock(clock: i128, own: i128) -> i128 {
    let shown = own.checked_rem(DAY).unwrap_or(0);
    let second = own.saturating_sub(shown).saturating_add(clock);
    if NOON < second.saturating_sub(own) {
        second.saturating_sub(DAY)
    } else if NOON < own.saturating_sub(second) {
        second.saturating_add(DAY)
    } else {
        second
    }
}

// The second of a text by forms that are named nowhere which is nearest to another second.
fn nearest_of_forms(text: &[u8], own: i128) -> Option<i128> {
    let mut nearest: Option<i128> = None;
    for forms in FORMS {
        if let Some(second) = second_by(text, forms) {
            let is_nearer = match nearest {
                Some(other) => second.abs_diff(own) < other.abs_diff(own),
                None => true,
            };
            if is_nearer {
                nearest = Some(second);
            }
        }
    }
    nearest
}

// The second of a text by forms.
fn second_by(text: &[u8], forms: &[u8]) -> Option<i128> {
    let found = Forms::new(forms).ok()?.time(text).ok()?;
    Some(i128::from(found.time.second))
}

// The time of a text of no form that is named: of ISO, or a number of seconds or milliseconds since 1970.
fn formless_time(text: &[u8]) -> Option<OtherTime> {
    if let Ok(moment) = number_moment(text) {
        let time = TextTime::Utc(moment);
        let kind = Kind::Whole;
        return Some(OtherTime { time, kind });
    }
    if let Some(moment) = moment_of_millis(text) {
        let time = TextTime::Utc(moment);
        let kind = Kind::Millis;
        return Some(OtherTime { time, kind });
    }
    let time = iso_time(text).ok()?;
    let kind = if text.len() == DAY_BYTES {
        Kind::Day
    } else {
        Kind::Whole
    };
    Some(OtherTime { time, kind })
}

// The time of a text that is nearest to another second: of another form than those of ISO, or a clock alone.
fn nearest_time(text: &[u8], own: i128) -> Option<OtherTime> {
    if let Some(clock) = clock_in(text) {
        let time = local_time(nearest_of_clock(clock, own))?;
        let kind = Kind::Clock;
        return Some(OtherTime { time, kind });
    }
    let time = local_time(nearest_of_forms(text, own)?)?;
    let kind = Kind::Whole;
    Some(OtherTime { time, kind })
}

// The time of a text, of one of these forms. One at midnight may be a day.
fn time_by(text: &[u8], forms: Option<Forms<'_>>) -> Option<OtherTime> {
    let found = forms?.time(text).ok()?;
    let kind = if i128::from(found.time.second).checked_rem(DAY) == Some(0) {
        Kind::Day
    } else {
        Kind::Whole
    };
    let time = TextTime::Local(found.time);
    Some(OtherTime { time, kind })
}

// The time of a text, of one of these forms or of none, beside the second that a clock shows.
fn time_of(text: &[u8], forms: Option<Forms<'_>>, own: i128) -> Option<OtherTime> {
    if let Some(found) = time_by(text, forms) {
        return Some(found);
    }
    match formless_time(text) {
        Some(found) => Some(found),
        None => nearest_time(text, own),
    }
}

// The time of the record of a table that was read last, by rules of which the time stands in the columns that are looked at, beside
// the second that a clock shows.
fn current_time(
    buffer: &mut Vec<u8>,
    table: &Table<'_>,
    rules: &Rules<'_, '_>,
    own: i128,
) -> Result<Option<OtherTime>, TableFault> {
    match time_text(buffer, table.current(), rules) {
        Ok(text) => Ok(time_of(text, rules.forms, own)),
        Err(_) => Err(TableFault::OutOfMemory),
    }
}

// The fix of a row that is taken, and whose time the clock did not show twice.
fn taken(row: &Row) -> Option<ToldFix> {
    match row.told {
        Told::Fix(fix) if fix.is_taken() && !fix.is_twice => Some(fix),
        _ => None,
    }
}

// The second that a clock shows at a second since 1970; none is that of UTC.
fn shown(clock: Option<&Clock>, second: u64) -> i128 {
    match clock {
        Some(clock) => clock.local_second(second),
        None => i128::from(second),
    }
}

// The second of a fix and that of a time, both by a clock, or both of UTC where the time is.
fn seconds_of(fix: &ToldFix, time: TextTime, clock: Option<&Clock>) -> (i128, i128) {
    let own = fix.moment.second;
    match time {
        TextTime::Utc(moment) => (i128::from(own), i128::from(moment.second)),
        TextTime::Local(local) => (shown(clock, own), i128::from(local.second)),
    }
}

// Whether a second is one of a whole minute.
fn is_whole(second: i128) -> bool {
    second.checked_rem(MINUTE) == Some(0)
}

// By how much a second is behind another one; in whole minutes, where one of them may have no seconds.
fn seconds_behind(own: i128, other: i128) -> i128 {
    let step = if is_whole(own) || is_whole(other) {
        MINUTE
    } else {
        1
    };
    let before = own.checked_div(step).unwrap_or(own);
    let behind = other.checked_div(step).unwrap_or(other);
    behind.saturating_sub(before).saturating_mul(step)
}

/// How the times of a column that is not read lie beside those that are.
#[derive(Clone, Copy, PartialEq, Eq, Debug)]
pub struct Apart {
    /// By how many seconds they are behind these; below 0 where they are before.
    pub seconds: i128,
    /// Whether the time that is read has no offset.
    pub is_local: bool,
    /// Whether they may be named as times: they are no numbers of milliseconds and no clocks alone.
    pub is_time: bool,
}

// What is seen of the fixes so far.
#[derive(Clone, Copy)]
struct Seen {
    // The first that has another time.
    first: Option<Apart>,
    // Whether one has the same time.
    has_same: bool,
    // Whether all are apart as the clocks of a summer and a winter are.
    are_of_seasons: bool,
    // Whether all are apart as clocks are.
    are_of_clocks: bool,
}

// Whether so many seconds between two times may be those between two clocks.
fn is_of_clocks(seconds: i128) -> bool {
    seconds.checked_rem(QUARTER) == Some(0) && seconds.unsigned_abs() <= MOST_APART
}

impl Seen {
    // Nothing of no fix.
    fn none() -> Seen {
        Seen {
            first: None,
            has_same: false,
            are_of_seasons: true,
            are_of_clocks: true,
        }
    }

    // Whether times are so apart as a clock is of UTC at a fix; or, without one, by an hour as all others, or not.
    fn is_of_season(&self, fix: &ToldFix, clock: Option<&Clock>, seconds: i128) -> bool {
        let Some(clock) = clock else {
            let first = match self.first {
                Some(first) => first.seconds,
                None => seconds,
            };
            return seconds == 0 || seconds.unsigned_abs() == HOUR && first == seconds;
        };
        let local = u64::try_from(clock.local_second(fix.moment.second)).unwrap_or(0);
        seconds == i128::from(clock.offset_at(local))
    }

    // The same with the time of a fix more.
    fn with(self, fix: &ToldFix, other: OtherTime, clock: Option<&Clock>) -> Seen {
        let (own, second) = seconds_of(fix, other.time, clock);
        let seconds = seconds_behind(own, second);
        let apart = Apart {
            seconds,
            is_local: fix.is_local,
            is_time: other.kind == Kind::Whole,
        };
        let is_of_season = self.is_of_season(fix, clock, seconds);
        Seen {
            first: if seconds == 0 {
                self.first
            } else {
                Some(self.first.unwrap_or(apart))
            },
            has_same: self.has_same || seconds == 0,
            are_of_seasons: self.are_of_seasons && is_of_season,
            are_of_clocks: self.are_of_clocks && is_of_clocks(seconds),
        }
    }

    // Whether times may be apart by their clocks alone.
    fn is_open(&self) -> bool {
        self.are_of_clocks && (!self.has_same || self.are_of_seasons)
    }
}

/// How the times in columns that are not read lie beside those of the fixes of a text, whose records say this by the rules, if all
/// are apart as the clocks of one moment are. They are by a clock, beside which only fixes by that clock count; none is that of UTC.
///
/// # Errors
///
/// Memory ran out.
pub fn apart_in(
    alloc: Global,
    text: &TableText<'_>,
    rules: &Rules<'_, '_>,
    columns: &[usize],
    clock: Option<&Clock>,
    rows: &[Row],
) -> Result<Option<Apart>, TableFault> {
    let as_time = Rules {
        time: columns,
        ..*rules
    };
    let mut table = text.table(alloc)?;
    let mut buffer = Vec::new(alloc);
    let mut seen = Seen::none();
    for row in rows {
        if !seen.is_open() || !table.advance()? {
            break;
        }
        let fix = match taken(row) {
            Some(fix) if clock.is_none() || fix.is_local => fix,
            _ => continue,
        };
        let own = shown(clock, fix.moment.second);
        match current_time(&mut buffer, &table, &as_time, own)? {
            Some(other) if other.kind != Kind::Day => seen = seen.with(&fix, other, clock),
            _ => {}
        }
    }
    Ok(if seen.is_open() { seen.first } else { None })
}

/// Which end of a deployment times are.
#[derive(Clone, Copy, PartialEq, Eq, Debug)]
pub enum End {
    First,
    Last,
}

/// How many fixes are taken, and how many of them lie beyond an end of their deployments.
#[derive(Clone, Copy, PartialEq, Eq, Debug)]
pub struct Beyond {
    pub fixes: usize,
    pub beyond: usize,
}

// How many seconds a time takes by itself: a day, or a minute that is written without seconds.
fn length_of(other: OtherTime, second: i128) -> i128 {
    if other.kind == Kind::Day {
        DAY
    } else if is_whole(second) {
        MINUTE
    } else {
        1
    }
}

// Whether a fix lies beyond an end of its deployment.
fn is_beyond(fix: &ToldFix, other: OtherTime, clock: Option<&Clock>, end: End) -> bool {
    let (own, second) = seconds_of(fix, other.time, clock);
    match end {
        End::First => own < second,
        End::Last => second.saturating_add(length_of(other, second)) <= own,
    }
}

/// How many fixes of a text, whose records say this by the rules, lie beyond the times that they have in a column.
///
/// # Errors
///
/// Memory ran out.
pub fn beyond_in(
    alloc: Global,
    text: &TableText<'_>,
    rules: &Rules<'_, '_>,
    column: usize,
    end: End,
    rows: &[Row],
) -> Result<Beyond, TableFault> {
    let as_time = Rules {
        time: &[column],
        ..*rules
    };
    let mut table = text.table(alloc)?;
    let mut buffer = Vec::new(alloc);
    let (mut fixes, mut beyond): (usize, usize) = (0, 0);
    for row in rows {
        if !table.advance()? {
            break;
        }
        let Some(fix) = taken(row) else {
            continue;
        };
        fixes = fixes.saturating_add(1);
        let own = shown(rules.clock, fix.moment.second);
        match current_time(&mut buffer, &table, &as_time, own)? {
            Some(other) if other.kind != Kind::Clock && is_beyond(&fix, other, rules.clock, end) =>
                {
                    beyond = beyond.saturating_add(1);
                }
            _ => {}
        }
    }
    Ok(Beyond { fixes, beyond })
}
