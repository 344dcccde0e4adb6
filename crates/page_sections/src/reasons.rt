// The words of the reasons for which fixes were left out.

use split_tracks::Reason;

/// Why fixes were left out.
#[derive(Clone, Copy, PartialEq, Eq, Debug)]
pub enum Cause {
    /// For this reason, when the tracks were made.
    Made(Reason),
    /// Their track says that they are not used.
    Use,
}

// What stands above the column of a reason.
fn heading_of(reason: Reason) -> &'static [u8] {
    match reason {
        Reason::Animal => b"no animal",
        Reason::Coordinates => b"no place",
        Reason::Zero => b"at 0, 0",
        Reason::Sensor => b"other sensor",
        Reason::Outlier => b"marked outlier",
        Reason::Class => b"Argos class",
        Reason::NoDop => b"no DOP",
        Reason::Dop => b"DOP too great",
        Reason::Type => b"type of fix",
        Reason::Before => b"before period",
        Reason::After => b"after period",
        Reason::Grid => b"off the grid",
        Reason::Speed => b"too fast",
        Reason::Every => b"interval",
    }
}

// What stands above a column.
pub(crate) fn heading(cause: Cause) -> &'static [u8] {
    match cause {
        Cause::Made(reason) => heading_of(reason),
        Cause::Use => b"not in use",
    }
}

// What the page calls the cells of a reason.
fn field_of(reason: Reason) -> &'static [u8] {
    match reason {
        Reason::Animal => b"left_animal",
        Reason::Coordinates => b"left_coordinates",
        Reason::Zero => b"left_zero",
        Reason::Sensor => b"left_sensor",
        Reason::Outlier => b"left_outlier",
        Reason::Class => b"left_class",
        Reason::NoDop => b"left_no_dop",
        Reason::Dop => b"left_dop",
        Reason::Type => b"left_type",
        Reason::Before => b"left_before",
        Reason::After => b"left_after",
        Reason::Grid => b"left_grid",
        Reason::Speed => b"left_speed",
        Reason::Every => b"left_every",
    }
}

// What the page calls cells of fixes that were left out, for a program that reads it.
pub(crate) fn field(cause: Cause) -> &'static [u8] {
    match cause {
        Cause::Made(reason) => field_of(reason),
        Cause::Use => b"left_use",
    }
}

/// The word of why fixes were left out in the titles of tables, behind `left_`.
pub fn cause_word(cause: Cause) -> &'static [u8] {
    let field = field(cause);
    field.strip_prefix(b"left_").unwrap_or(field)
}

// What a sentence says of fixes that were left out for a reason.
fn phrase_of(reason: Reason) -> &'static [u8] {
    match reason {
        Reason::Animal => b"of no animal",
        Reason::Coordinates => b"without coordinates",
        Reason::Zero => b"with longitude and latitude 0",
        Reason::Sensor => b"of other sensors",
        Reason::Outlier => b"marked as outliers",
        Reason::Class => b"of other Argos classes",
        Reason::NoDop => b"without a dilution of precision (DOP)",
        Reason::Dop => b"with a DOP above the limit",
        Reason::Type => b"of other types of fixes",
        Reason::Before => b"before the period",
        Reason::After => b"after the period",
        Reason::Grid => b"marked as outliers and off the grid",
        Reason::Speed => b"faster than the limit",
        Reason::Every => b"not the first in their interval",
    }
}

// What a sentence says of fixes that were left out.
pub(crate) fn phrase(cause: Cause) -> &'static [u8] {
    match cause {
        Cause::Made(reason) => phrase_of(reason),
        Cause::Use => b"not in use, as the data said",
    }
}
