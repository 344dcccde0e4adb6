// The refusal of numbers that may be days with hours.

ghost use Rattle.std.specs.Prelude.{◌≡◌, IfOk, Some};
ghost use Rattle.split_refusal.specs.Refused.{IsOfKind, Names};

use crate::cells::{RecordShown, joined};
use crate::kind::Kind;
use crate::push::{Field, push, push_field};
use crate::refusal::{Refusal, Sentence};
use range_plane::OutOfMemory;
use split_times::DayOrders;
use std::alloc::{AllocError, Global};

const MAY_BE_DAY: &str =
    ", which may be seconds since 1970 or a day with hours, as all numbers of the column: ";

const NAME_FORM: &str = "name the form of days, as by --time-format ";

const WRITE_TIMES: &str = "write times such as 2024-05-01 00:30:04";

// The forms of days with hours, and whether days may have them that are in one of these orders. Those without a year have none.
fn forms_of(orders: DayOrders) -> [(&'static str, bool); 7] {
    [
        ("%Y%m%d%H", orders.year_month_day_hour),
        ("%Y%d%m%H", orders.year_day_month_hour),
        ("%d%m%Y%H", orders.day_month_year_hour),
        ("%m%d%Y%H", orders.month_day_year_hour),
        ("%y%m%d%H%M", orders.short_year_month_day_hour_minute),
        ("%d%m%y%H%M", orders.day_month_short_year_hour_minute),
        ("%m%d%y%H%M", orders.month_day_short_year_hour_minute),
    ]
}

// Appends what is to be done about days with hours in one of these orders.
fn push_remedy(text: &mut Vec<u8>, orders: DayOrders) -> Result<(), AllocError> {
    let mut before = NAME_FORM;
    for (form, is_left) in &forms_of(orders) {
        if *is_left {
            push(text, before)?;
            push(text, form)?;
            before = " or ";
        }
    }
    if before != NAME_FORM {
        push(text, ", or ")?;
    }
    push(text, WRITE_TIMES)
}

// That a time may be a day with hours in one of these orders.
fn day_sentence(
    alloc: Global,
    shown: &RecordShown<'_>,
    orders: DayOrders,
) -> Result<Sentence, OutOfMemory>
    ensures { IfOk result (λ sentence. sentence.kind ≡ Kind.Time) }
{
    let (title, cell) = joined(alloc, shown)?;
    let field = Field {
        title: &title,
        cell: &cell,
    };
    let mut text = Vec::new(alloc);
    push_field(&mut text, field, MAY_BE_DAY)?;
    push_remedy(&mut text, orders)?;
    Ok(Sentence {
        kind: Kind::Time,
        text,
    })
}

/// The refusal of a record whose time may be a day with hours in one of these orders, as all other numbers of its column.
pub fn refused_day(alloc: Global, shown: &RecordShown<'_>, orders: DayOrders) -> Refusal
    ensures names { Names (Some shown.now.number) result }
    ensures kind { IsOfKind Kind.Time result }
{
    match day_sentence(alloc, shown, orders) {
        Ok(sentence) => Refusal::whole(alloc, sentence.kind, Some(shown.number), &sentence.text),
        Err(_no_memory) => Refusal::out_of_memory(alloc),
    }
}
