// Columns that are not read and have parts of the time, and how they are joined to it.

ghost use Rattle.std.specs.Prelude.{IfErr};
ghost use Rattle.split_refusal.specs.Refused.{IsOfNoFix};

use crate::wish::Wish;
use split_export::{Export, Texts};
use split_refusal::{Kind, Refusal, sign_beside};
use split_titles::trimmed;
use std::alloc::{AllocError, Global};

// The form of days of ISO.
const ISO_DAY: &str = "%Y-%m-%d";

// The form of minutes of ISO.
const ISO_MINUTE: &str = "%Y-%m-%d %H:%M";

// The signs of a clock, in their order.
const CLOCK: [&str; 3] = ["%H", "%M", "%S"];

/// The columns of a table that are not read, and what their texts are.
#[derive(Clone, Copy)]
pub(crate) struct Unread<'a> {
    pub titles: &'a [Vec<u8>],
    pub columns: &'a [usize],
    pub texts: &'a [Texts],
}

impl<'a> Unread<'a> {
    /// The title of a column, which may be one that is read.
    pub(crate) fn title(&self, column: usize) -> &'a [u8] {
        match self.titles.get(column) {
            Some(title) => trimmed(title),
            None => b"",
        }
    }

    // The first column for which a sign stands.
    fn column_of(&self, sign: &str) -> Option<usize> {
        for (column, texts) in self.columns.iter().zip(self.texts) {
            let text = texts.first_text();
            let own = sign_beside(self.title(*column), text, self.titles);
            if texts.are_numbered && own == Some(sign) {
                return Some(*column);
            }
        }
        None
    }

    // The first column of halves of the day.
    fn halves(&self) -> Option<usize> {
        for (column, texts) in self.columns.iter().zip(self.texts) {
            if texts.are_there && texts.are_halves {
                return Some(*column);
            }
        }
        None
    }

    // A sign of a clock, as it stands beside the columns: that of hours is another one where one has halves of the day.
    fn clock_sign<'s>(&self, sign: &'s str) -> &'s str {
        if sign == HOURS && self.halves().is_some() {
            HOURS_OF_HALVES
        } else {
            sign
        }
    }
}

// The signs of hours and of seconds in a form, and that of hours before a half of the day.
const HOURS: &str = "%H";

pub(crate) const SECONDS: &str = "%S";

const HOURS_OF_HALVES: &str = "%I";

// Columns of a time that are joined: their titles between commas, and the signs of some between blanks.
#[derive(Drop)]
struct Join {
    titles: String,
    signs: String,
    // Whether no title has a sign that the option does not take.
    is_sound: bool,
}

impl Join {
    // No column.
    fn new(alloc: Global) -> Join {
        Join {
            titles: String::new(alloc),
            signs: String::new(alloc),
            is_sound: true,
        }
    }

    // Appends a column with this title.
    fn add_title(&mut self, title: &[u8]) -> Result<(), AllocError> {
        if !self.titles.is_empty() {
            self.titles.push_str(",")?;
        }
        let is_bad = title.contains(&b',') || title.contains(&b'\'') || title.is_empty();
        self.is_sound = self.is_sound && !is_bad;
        self.titles.push_str(str::from_utf8(title).unwrap_or(""))
    }

    // Appends a column with this title, for which this sign stands.
    fn add(&mut self, title: &[u8], sign: &str) -> Result<(), AllocError> {
        self.add_title(title)?;
        if !self.signs.is_empty() {
            self.signs.push_str(" ")?;
        }
        self.signs.push_str(sign)
    }

    // Appends the columns for which the signs of a clock stand, from one on, up to the first that is not there.
    fn add_clock(&mut self, unread: Unread<'_>, from: usize) -> Result<(), AllocError> {
        for sign in CLOCK.iter().skip(from) {
            match unread.column_of(sign) {
                Some(column) => self.add(unread.title(column), unread.clock_sign(sign))?,
                None => return Ok(()),
            }
        }
        Ok(())
    }

    // Appends the column of halves of the day, if there is one.
    fn add_half(&mut self, unread: Unread<'_>) -> Result<(), AllocError> {
        match unread.halves() {
            Some(column) => self.add(unread.title(column), "%p"),
            None => Ok(()),
        }
    }

    // The words that join the columns, whose form begins with one of these.
    fn words(&self, alloc: Global, forms: &str) -> Result<String, AllocError> {
        if !self.is_sound {
            return String::from_str(
                alloc,
                "join them by --time, which takes no title with a comma or a quote",
            );
        }
        let mut text = format!(in alloc;
            "join them, as by --time '{}' --time-format '",
            self.titles
        )?;
        for (at, form) in forms.split('|').enumerate() {
            if at > 0 {
                text.push_str("|")?;
            }
            text.push_str(form)?;
            text.push_str(if form.is_empty() { "" } else { " " })?;
            text.push_str(&self.signs)?;
        }
        text.push_str("'")?;
        Ok(text)
    }
}

// The forms of times that are named, or that of ISO before this sign.
fn forms_of<'a>(wish: &Wish<'a>, sign: &str) -> &'a str {
    if !wish.forms.is_empty() {
        wish.forms
    } else if sign == SECONDS {
        ISO_MINUTE
    } else {
        ISO_DAY
    }
}

/// The titles of the time and of a column behind it, as `--time` takes them.
pub(crate) fn joined_titles(
    alloc: Global,
    export: &Export<'_>,
    unread: Unread<'_>,
    column: usize,
) -> Result<String, AllocError> {
    let mut join = Join::new(alloc);
    for time in export.columns.time.iter() {
        join.add_title(unread.title(*time))?;
    }
    join.add_title(unread.title(column))?;
    Ok(if join.is_sound {
        join.titles
    } else {
        String::from_str(alloc, "DAY,COLUMN")?
    })
}

/// The title of a column, as `--time` takes it.
pub(crate) fn own_title(
    alloc: Global,
    unread: Unread<'_>,
    column: usize,
) -> Result<String, AllocError> {
    let mut join = Join::new(alloc);
    join.add_title(unread.title(column))?;
    Ok(if join.is_sound {
        join.titles
    } else {
        String::from_str(alloc, "COLUMN")?
    })
}

/// How a column of this sign of a clock is joined to the time, with those of the signs behind it that are there.
pub(crate) fn join_words(
    alloc: Global,
    export: &Export<'_>,
    wish: &Wish<'_>,
    unread: Unread<'_>,
    column: usize,
    sign: &str,
) -> Result<String, AllocError> {
    let mut join = Join::new(alloc);
    for time in export.columns.time.iter() {
        join.add_title(unread.title(*time))?;
    }
    join.add(unread.title(column), unread.clock_sign(sign))?;
    let place = CLOCK.iter().position(|own| *own == sign);
    let behind = place.unwrap_or(CLOCK.len()).saturating_add(1);
    join.add_clock(unread, behind)?;
    if sign == HOURS {
        join.add_half(unread)?;
    }
    join.words(alloc, forms_of(wish, sign))
}

// The signs of a day, with that of its year as it is written.
fn day_of(unread: Unread<'_>) -> [&'static str; 3] {
    let year = if unread.column_of("%Y").is_some() {
        "%Y"
    } else {
        "%y"
    };
    if unread.column_of("%j").is_some() {
        [year, "%j", ""]
    } else {
        [year, "%m", "%d"]
    }
}

// Whether the columns of all signs of a day are there.
fn has_day(unread: Unread<'_>, day: [&'static str; 3]) -> bool {
    for sign in day {
        if !sign.is_empty() && unread.column_of(sign).is_none() {
            return false;
        }
    }
    true
}

// How columns that have a whole time are joined.
fn whole_words(
    alloc: Global,
    unread: Unread<'_>,
    day: [&'static str; 3],
) -> Result<String, AllocError> {
    let mut join = Join::new(alloc);
    for sign in day {
        if let Some(column) = unread.column_of(sign) {
            join.add(unread.title(column), sign)?;
        }
    }
    join.add_clock(unread, 0)?;
    if unread.column_of(HOURS).is_some() {
        join.add_half(unread)?;
    }
    let joined = join.words(alloc, "")?;
    format!(in alloc;
        "no column has a usual title for the time, and columns have its parts: {joined}, or leave them out"
    )
}

/// Refuses a table without a column of the time, of which columns that are not read have all parts of a day.
///
/// # Errors
///
/// There are such columns, or memory ran out.
pub(crate) fn refuse_parts(
    alloc: Global,
    export: &Export<'_>,
    unread: Unread<'_>,
) -> Result<(), Refusal>
    ensures { IfErr result IsOfNoFix }
{
    let day = day_of(unread);
    if !export.columns.time.is_empty() || !has_day(unread, day) {
        return Ok(());
    }
    match whole_words(alloc, unread, day) {
        Ok(text) => Err(Refusal::new(alloc, Kind::Columns, None, text.as_bytes())),
        Err(_) => Err(Refusal::out_of_memory(alloc)),
    }
}
