// Columns that are not read and have the times of fixes by another clock than those that are.

ghost use Rattle.std.specs.Prelude.{IfErr};
ghost use Rattle.split_refusal.specs.Refused.{IsOfNoFix};

use crate::joined::{Unread, own_title};
use crate::passed::{UTC, refusal_of, title_at};
use crate::times::is_of_other_clock;
use crate::wish::Wish;
use range_plane::OutOfMemory;
use split_clock::Clock;
use split_export::{Apart, Asked, Export, apart_in, rules_of};
use split_refusal::Refusal;
use split_titles::dictionary::{DATES, OTHER_TIMES, TIMES};
use split_titles::{ClockDoubt, clock_doubt, has_word, is_read};
use std::alloc::{AllocError, Global};

// Words of titles of seconds since 1970.
const EPOCHS: [&str; 9] = [
    "epoch",
    "epochs",
    "epochtime",
    "unix",
    "unixtime",
    "unixtimestamp",
    "posix",
    "posixtime",
    "1970",
];

// Words of titles of when a record came, was sent, or was to be taken.
const OF_RECORDS: [&str; 26] = [
    "received",
    "receive",
    "receipt",
    "reception",
    "sent",
    "send",
    "transmitted",
    "transmission",
    "delivered",
    "arrived",
    "arrival",
    "departure",
    "inserted",
    "added",
    "processed",
    "exported",
    "export",
    "import",
    "download",
    "upload",
    "retrieved",
    "synced",
    "sync",
    "server",
    "scheduled",
    "empfangen",
];

// A zone that is not that of UTC.
const OTHER_ZONE: &[u8] = b"Europe/Ljubljana";

// The seconds of an hour and of a minute.
const HOUR: u128 = 3_600;

const MINUTE: u128 = 60;

// What titles say of the clock of their times.
#[derive(Clone, Copy, PartialEq, Eq)]
enum Says {
    // That it is UTC.
    Utc,
    // That it is the clock of a place which they do not name.
    Local,
}

// Whether a title is that of seconds since 1970.
fn is_of_epoch(title: &[u8]) -> bool {
    has_word(title, &EPOCHS)
}

// Whether a title says this of the clock of its times.
fn is_said(title: &[u8], what: Says) -> bool {
    match what {
        Says::Utc => {
            is_of_epoch(title) || clock_doubt(title, Some(OTHER_ZONE)) == Some(ClockDoubt::Utc)
        }
        Says::Local => {
            let is_of_zone = clock_doubt(title, Some(UTC.as_bytes())).is_some();
            !is_of_zone && clock_doubt(title, None) == Some(ClockDoubt::Local)
        }
    }
}

// Whether a title says this of the clock of times that may be those of fixes.
fn may_say(title: &[u8], what: Says) -> bool {
    is_said(title, what) && !has_word(title, &OTHER_TIMES) && !has_word(title, &OF_RECORDS)
}

// The columns that are not read and whose titles say this of their clock.
fn columns_of(alloc: Global, export: &Export<'_>, what: Says) -> Result<Vec<usize>, OutOfMemory> {
    let mut columns = Vec::new(alloc);
    for (column, title) in export.titles.iter().enumerate() {
        if !is_read(&export.columns, column) && may_say(title, what) {
            columns.push(column)?;
        }
    }
    Ok(columns)
}

// The first of some columns whose title has a word of these, and none of others.
fn first_with(
    export: &Export<'_>,
    columns: &[usize],
    words: &[&str],
    others: &[&str],
) -> Option<usize> {
    for column in columns {
        let title = title_at(export, *column);
        if has_word(title, words) && !has_word(title, others) {
            return Some(*column);
        }
    }
    None
}

// The columns of a day and of its clock among some, if both are there.
fn day_and_clock(export: &Export<'_>, columns: &[usize]) -> Option<[usize; 2]> {
    let day = first_with(export, columns, &DATES, &TIMES)?;
    let clock = first_with(export, columns, &TIMES, &DATES)?;
    Some([day, clock])
}

// A length of time in hours and minutes.
fn length_words(alloc: Global, seconds: u128) -> Result<String, AllocError> {
    let hours = seconds.checked_div(HOUR).unwrap_or(0);
    let rest = seconds.checked_rem(HOUR).unwrap_or(0);
    let minutes = rest.checked_div(MINUTE).unwrap_or(0);
    if minutes == 0 {
        format!(in alloc; "{hours} h")
    } else if hours == 0 {
        format!(in alloc; "{minutes} min")
    } else {
        format!(in alloc; "{hours} h {minutes} min")
    }
}

// The titles of columns as `--time` takes them.
fn titles_of(alloc: Global, export: &Export<'_>, columns: &[usize]) -> Result<String, AllocError> {
    let unread = Unread {
        titles: &export.titles,
        columns: &[],
        texts: &[],
    };
    let mut text = String::new(alloc);
    for column in columns {
        if !text.is_empty() {
            text.push_str(",")?;
        }
        text.push_str(&own_title(alloc, unread, *column)?)?;
    }
    Ok(text)
}

// Columns that are not read, and how their times lie beside those that are.
#[derive(Clone, Copy)]
struct Found<'a> {
    columns: &'a [usize],
    what: Says,
    apart: Apart,
}

impl Found<'_> {
    // What stands between the first column and what it says: the second, if there are two.
    fn second(&self, alloc: Global, export: &Export<'_>) -> Result<String, AllocError> {
        let [_, column] = self.columns else {
            return Ok(String::new(alloc));
        };
        let title = str::from_utf8(title_at(export, *column).trim_ascii()).unwrap_or("");
        let number = column.saturating_add(1);
        format!(in alloc; "and column {number} '{title}' ")
    }

    // What the titles say.
    fn saying(&self, export: &Export<'_>) -> &'static str {
        match self.columns {
            [column] if is_of_epoch(title_at(export, *column)) => "counts from 1970 in UTC",
            [_] => "says UTC",
            _ => "say UTC",
        }
    }

    // The remedy where times of UTC are others: to name them, but not milliseconds or clocks alone, and to name the zone of the
    // others, but not where these have an offset.
    fn remedy(&self, alloc: Global, export: &Export<'_>) -> Result<String, AllocError> {
        let zone = if self.apart.is_local {
            "name the zone of the others, as by --tz Europe/Ljubljana"
        } else {
            "remove those that are wrong"
        };
        if !self.apart.is_time {
            return String::from_str(alloc, zone);
        }
        let titles = titles_of(alloc, export, self.columns)?;
        let these = if self.columns.len() == 1 {
            "it"
        } else {
            "them"
        };
        format!(in alloc; "name {these}, as by --time '{titles}', or {zone}")
    }

    // What is said of times of UTC.
    fn utc_words(&self, alloc: Global, export: &Export<'_>) -> Result<String, AllocError> {
        let length = length_words(alloc, self.apart.seconds.unsigned_abs())?;
        let side = if self.apart.seconds < 0 {
            "before"
        } else {
            "behind"
        };
        let (second, saying) = (self.second(alloc, export)?, self.saying(export));
        let whose = if self.columns.len() == 1 {
            "its"
        } else {
            "their"
        };
        let remedy = self.remedy(alloc, export)?;
        format!(in alloc;
            "{second}{saying}, and {whose} times are {length} {side} those that are read: {remedy}"
        )
    }

    // What is said of times of a place.
    fn local_words(
        &self,
        alloc: Global,
        wish: &Wish<'_>,
        export: &Export<'_>,
    ) -> Result<String, AllocError> {
        let second = self.second(alloc, export)?;
        let (has, these) = if self.columns.len() == 1 {
            ("has", "this column")
        } else {
            ("have", "these columns")
        };
        let own = titles_of(alloc, export, &export.columns.time)?;
        let titles = titles_of(alloc, export, self.columns)?;
        let zone = wish.clock_name;
        format!(in alloc;
            "{second}{has} other times than those that are read by the clock of {zone}: leave --tz out if '{own}' is of UTC, or name {these}, \
             as by --time '{titles}'"
        )
    }

    // The refusal.
    fn refusal(&self, alloc: Global, wish: &Wish<'_>, export: &Export<'_>) -> Refusal
        ensures { IsOfNoFix result }
    {
        let words = match self.what {
            Says::Utc => self.utc_words(alloc, export),
            Says::Local => self.local_words(alloc, wish, export),
        };
        let first = self.columns.first().copied().unwrap_or(0);
        match words {
            Ok(words) => refusal_of(alloc, first, title_at(export, first), &words),
            Err(_) => Refusal::out_of_memory(alloc),
        }
    }
}

// Refuses one column, or two that are joined, whose times are not those that are read.
fn refuse_joined(
    alloc: Global,
    asked: &Asked<'_>,
    wish: &Wish<'_>,
    export: &Export<'_>,
    columns: &[usize],
    what: Says,
) -> Result<(), Refusal>
    ensures { IfErr result IsOfNoFix }
{
    let Ok(rules) = rules_of(&export.columns, export.titles.len(), false, asked) else {
        return Ok(());
    };
    let clock: Option<&Clock> = if what == Says::Local {
        asked.clock
    } else {
        None
    };
    match apart_in(
        alloc,
        &export.text,
        &rules,
        columns,
        clock,
        &export.ledger.rows,
    ) {
        Ok(None) => Ok(()),
        Ok(Some(apart)) => {
            let found = Found {
                columns,
                what,
                apart,
            };
            Err(found.refusal(alloc, wish, export))
        }
        Err(_) => Err(Refusal::out_of_memory(alloc)),
    }
}

// Refuses columns whose titles say this of their clock, and whose times are not those that are read.
fn refuse_saying(
    alloc: Global,
    asked: &Asked<'_>,
    wish: &Wish<'_>,
    export: &Export<'_>,
    what: Says,
) -> Result<(), Refusal>
    ensures { IfErr result IsOfNoFix }
{
    let Ok(columns) = columns_of(alloc, export, what) else {
        return Err(Refusal::out_of_memory(alloc));
    };
    if let Some(pair) = day_and_clock(export, &columns) {
        refuse_joined(alloc, asked, wish, export, &pair, what)?;
    }
    for column in columns.chunks(1) {
        refuse_joined(alloc, asked, wish, export, column, what)?;
    }
    Ok(())
}

/// Refuses times beside others of a column that is not read and says that they are of UTC, or, where another zone was named, of the
/// clock of a place, if all are apart from them as the clocks of one moment are.
///
/// # Errors
///
/// There is such a column, or memory ran out.
pub(crate) fn refuse_other_times(
    alloc: Global,
    asked: &Asked<'_>,
    wish: &Wish<'_>,
    export: &Export<'_>,
) -> Result<(), Refusal>
    ensures { IfErr result IsOfNoFix }
{
    if export.columns.is_second {
        return Ok(());
    }
    refuse_saying(alloc, asked, wish, export, Says::Utc)?;
    if is_of_other_clock(asked) {
        refuse_saying(alloc, asked, wish, export, Says::Local)
    } else {
        Ok(())
    }
}
