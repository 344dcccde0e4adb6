// A second look at the times of a table: by which forms they are read, and whether numbers may be days with hours.

use crate::zeros::Zeros;
use split_clock::Clock;
use split_reading::{Row, Rules, Told, time_text};
use split_table::{Table, TableFault, TableText};
use split_times::{DayOrders, Forms, number_moment, orders_in};
use std::alloc::Global;

/// What a second look at the times of a table finds.
#[derive(Drop)]
pub struct TimesLook {
    /// The first record whose time is a number, where all such may be days with hours in one order, as 2024050112 may; and the
    /// orders that are left.
    pub day: Option<(u32, DayOrders)>,
    /// Which of the forms is the first of a time, by their places; forms that are not here are not.
    pub forms: Vec<bool>,
    /// The first record whose time may have lost a zero at the end of a number, as 7.3 of half past seven has.
    pub without_zero: Option<u32>,
}

// What is seen of the records so far: the first whose time is a number, the orders in which all numbers are days with hours, and
// the forms that are used.
#[derive(Drop)]
struct Seen {
    first: Option<u32>,
    orders: DayOrders,
    forms: Vec<bool>,
    zeros: Zeros,
}

// Notes that a form is used.
fn note_form(used: &mut Vec<bool>, form: usize) -> Result<(), TableFault> {
    let missing = form.saturating_add(1).saturating_sub(used.len());
    for _place in 0..missing {
        if used.push(false).is_err() {
            return Err(TableFault::OutOfMemory);
        }
    }
    if let Some(own) = used.get_mut(form) {
        *own = true;
    }
    Ok(())
}

// The form at a place of those between `|`.
fn form_at(forms: &[u8], place: usize) -> &[u8] {
    forms.split(|byte| *byte == b'|').nth(place).unwrap_or(b"")
}

// Whether the time of a record, if it is a number, may be a day with hours.
fn may_be_day(row: &Row) -> bool {
    match row.told {
        Told::Fix(fix) => DayOrders::of(fix.moment).is_any(),
        Told::LeftOut(_) => false,
    }
}

impl Seen {
    // Nothing of no record.
    fn new(alloc: Global) -> Seen {
        Seen {
            first: None,
            orders: DayOrders::all(),
            forms: Vec::new(alloc),
            zeros: Zeros::none(),
        }
    }

    // Adds the time of a record, where it is a number: other texts say nothing of what numbers are.
    fn add_number(&mut self, record: u32, text: &[u8]) {
        if number_moment(text).is_ok() {
            self.first = self.first.or(Some(record));
            self.orders = self.orders.both(orders_in(text));
        }
    }

    // Adds the time of a record.
    fn add(
        &mut self,
        record: u32,
        text: &[u8],
        rules: &Rules<'_, '_>,
        forms: &[u8],
    ) -> Result<(), TableFault> {
        let Some(own) = rules.forms else {
            self.add_number(record, text);
            return Ok(());
        };
        match own.time(text) {
            Ok(found) => {
                self.zeros = self.zeros.with(record, text, form_at(forms, found.form));
                note_form(&mut self.forms, found.form)
            }
            Err(_) => Ok(()),
        }
    }

    // Whether no record can change what is found.
    fn is_whole(&self) -> bool {
        !self.orders.is_any()
    }
}

// The text of the time of the record of a table that was read last.
fn current_text<'a>(
    buffer: &'a mut Vec<u8>,
    table: &'a Table<'_>,
    rules: &Rules<'_, '_>,
) -> Result<&'a [u8], TableFault> {
    match time_text(buffer, table.current(), rules) {
        Ok(text) => Ok(text),
        Err(_) => Err(TableFault::OutOfMemory),
    }
}

// Looks at the times of the records of a table that say this.
fn look(
    alloc: Global,
    table: &mut Table<'_>,
    rules: &Rules<'_, '_>,
    forms: &[u8],
    rows: &[Row],
) -> Result<Seen, TableFault> {
    let mut seen = Seen::new(alloc);
    let mut buffer = Vec::new(alloc);
    for (index, row) in rows.iter().enumerate() {
        if seen.is_whole() || !table.advance()? {
            return Ok(seen);
        }
        if let Told::Fix(_) = row.told {
            let record = u32::try_from(index).unwrap_or(u32::MAX).saturating_add(1);
            let text = current_text(&mut buffer, table, rules)?;
            seen.add(record, text, rules, forms)?;
        }
    }
    Ok(seen)
}

// Whether the texts of times say more than records do: which forms they have, or whether numbers may be days with hours.
fn has_more(rules: &Rules<'_, '_>, rows: &[Row]) -> bool {
    rules.forms.is_some() || !rules.is_second && rows.iter().any(may_be_day)
}

/// Looks at the times of a text whose records say this by the rules, of which these are the forms as they are written.
///
/// # Errors
///
/// Memory ran out.
pub fn look_at_times(
    alloc: Global,
    text: &TableText<'_>,
    rules: &Rules<'_, '_>,
    forms: &[u8],
    rows: &[Row],
) -> Result<TimesLook, TableFault> {
    let mut table = text.table(alloc)?;
    let rows = if has_more(rules, rows) { rows } else { &[] };
    let Seen {
        first,
        orders,
        forms,
        zeros,
    } = look(alloc, &mut table, rules, forms, rows)?;
    let day = match first {
        Some(record) if orders.is_any() => Some((record, orders)),
        _ => None,
    };
    Ok(TimesLook {
        day,
        forms,
        without_zero: zeros.first_lost(),
    })
}

// The second of the time of a row, if it is one that has an offset.
fn second_with_offset(row: &Row) -> Option<u64> {
    match row.told {
        Told::Fix(fix) if !fix.is_local => Some(fix.moment.second),
        _ => None,
    }
}

// How times end whose clock is not ahead of UTC.
const ENDS_OF_UTC: [&str; 4] = ["+00:00", "+0000", "+00", "-00:00"];

// Whether a time of this second ends as those of UTC do: with `Z`, or with an offset of none where this clock is ahead of UTC or behind
// it.
fn is_of_utc(text: &[u8], second: u64, clock: Option<&Clock>) -> bool {
    let has_no_offset = ENDS_OF_UTC.iter().any(|end| text.ends_with(end.as_bytes()));
    text.ends_with(b"Z") || has_no_offset && clock.is_some_and(|clock| clock.offset_at(second) != 0)
}

/// The first record of a text, whose records say this by the rules, whose time ends as that of UTC does and not as that of the clock.
///
/// # Errors
///
/// Memory ran out.
pub fn first_of_utc(
    alloc: Global,
    text: &TableText<'_>,
    rules: &Rules<'_, '_>,
    rows: &[Row],
) -> Result<Option<u32>, TableFault> {
    if rows.iter().all(|row| second_with_offset(row).is_none()) {
        return Ok(None);
    }
    let mut table = text.table(alloc)?;
    let mut buffer = Vec::new(alloc);
    for (index, row) in rows.iter().enumerate() {
        if !table.advance()? {
            return Ok(None);
        }
        let time = current_text(&mut buffer, &table, rules)?;
        if second_with_offset(row).is_some_and(|second| is_of_utc(time, second, rules.clock)) {
            return Ok(Some(u32::try_from(index).unwrap_or(u32::MAX).saturating_add(1)));
        }
    }
    Ok(None)
}
