// A table, and what was asked of it.

use crate::exports::Exports;
use range_plane::Scale;
use split_clock::Clock;
use split_filters::Filters;
use split_reading::Zone;
use split_titles::{Columns, trimmed};
use std::alloc::Global;

/// The values of filters, as they were named; those of filters that were not named are empty.
#[derive(Clone, Copy)]
pub struct Wanted<'a> {
    pub classes: &'a [u8],
    pub types: &'a [u8],
    pub since: &'a [u8],
    pub until: &'a [u8],
}

/// How times are read.
#[derive(Clone, Copy)]
pub struct TimesRead<'a> {
    /// In which form, in words; empty where that goes without saying.
    pub form: &'a [u8],
    /// By which clock. None is that of UTC.
    pub clock: Option<&'a Clock>,
    /// The name of its zone.
    pub clock_name: &'a [u8],
}

/// A table's titles and columns, and what was asked of it.
#[derive(Clone, Copy)]
pub struct Sheet<'a> {
    pub exports: Exports<'a>,
    pub titles: &'a [&'a [u8]],
    pub columns: &'a Columns<Global>,
    pub unit: Scale,
    /// The zone that was named.
    pub zone: Option<Zone>,
    /// The reference system, as it was named; empty where none was.
    pub system: &'a [u8],
    /// The name of the animal where no column has one.
    pub name: &'a [u8],
    pub times: TimesRead<'a>,
    pub filters: Filters<'a>,
    pub wanted: Wanted<'a>,
    /// Whether fixes that are not used stand in tracks, with a mark; else they are left out.
    pub keeps_marks: bool,
}

// The title of a column, without blanks beside it; one that is not there has none.
pub(crate) fn title_at<'a>(sheet: &Sheet<'a>, at: usize) -> &'a [u8] {
    match sheet.titles.get(at) {
        Some(title) => trimmed(title),
        None => b"",
    }
}

// How many units a metre has.
pub(crate) fn units_of_metre(unit: Scale) -> u32 {
    match unit {
        Scale::Metre => 1,
        Scale::Decimetre => 10,
    }
}
