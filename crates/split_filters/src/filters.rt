// The filters that look at one fix alone, in their order.

ghost use Rattle.std.specs.Prelude.{◌≡◌};
ghost use Rattle.split_filters.specs.Filters.{dop_reason, is_after, is_before, is_of_sensor, is_wanted, known_dop, left_for, time_reason};

use crate::words::is_one_of;
use split_tracks::Reason;

/// Which fixes are wanted.
#[derive(Clone, Copy)]
pub struct Filters<'a> {
    /// The sensors; that of a fix of none is empty. Where none is named all are wanted.
    pub sensors: &'a [&'a [u8]],
    /// The Argos classes; that of a fix without one is empty. Where none is named all are wanted.
    pub classes: &'a [&'a [u8]],
    /// The greatest dilution of precision, in trillionths; none where any is wanted.
    pub most_dop: Option<i64>,
    /// The types of fixes; that of a fix without one is empty. Where none is named all are wanted.
    pub types: &'a [&'a [u8]],
    /// The first second, since 1970.
    pub since: Option<u64>,
    /// The last second, since 1970.
    pub until: Option<u64>,
}

// Whether a word is one of those that are wanted; all are where none is named.
fn is_wanted(words: &[&[u8]], word: &[u8]) -> bool
    ensures { result ≡ is_wanted words.now word.now }
{
    words.is_empty() || is_one_of(words, word)
}

/// Whether a fix of a sensor is wanted.
pub fn is_of_sensor(filters: &Filters<'_>, sensor: &[u8]) -> bool
    ensures { result ≡ is_of_sensor filters.now sensor.now }
{
    is_wanted(filters.sensors, sensor)
}

// A dilution of precision that is one: none is 0 or less.
fn known_dop(dop: Option<i64>) -> Option<i64>
    ensures { result ≡ known_dop dop }
{
    match dop {
        Some(dop) if 0 < dop => Some(dop),
        _ => None,
    }
}

// Why a fix is left out for its dilution of precision, if it is.
fn dop_reason(most: Option<i64>, dop: Option<i64>) -> Option<Reason>
    ensures { result ≡ dop_reason most dop }
{
    match (most, known_dop(dop)) {
        (None, _) => None,
        (Some(_), None) => Some(Reason::NoDop),
        (Some(most), Some(dop)) if most < dop => Some(Reason::Dop),
        (Some(_), Some(_)) => None,
    }
}

// Whether a second is before the first that is wanted.
fn is_before(since: Option<u64>, second: u64) -> bool
    ensures { result ≡ is_before since second }
{
    match since {
        Some(since) => second < since,
        None => false,
    }
}

// Whether a second is after the last that is wanted.
fn is_after(until: Option<u64>, second: u64) -> bool
    ensures { result ≡ is_after until second }
{
    match until {
        Some(until) => until < second,
        None => false,
    }
}

// Why a fix is left out for its time, if it is.
fn time_reason(filters: &Filters<'_>, second: u64) -> Option<Reason>
    ensures { result ≡ time_reason filters.now second }
{
    if is_before(filters.since, second) {
        Some(Reason::Before)
    } else if is_after(filters.until, second) {
        Some(Reason::After)
    } else {
        None
    }
}

/// The first reason for which a fix is left out, in the order of filters: Argos class, no dilution of precision, too great a
/// one, type, first moment, last moment; none where it is wanted. Its class and its type are empty where it has none, its
/// dilution of precision is in trillionths, and its second is counted since 1970.
pub fn left_for(
    filters: &Filters<'_>,
    class: &[u8],
    dop: Option<i64>,
    fix_type: &[u8],
    second: u64,
) -> Option<Reason>
    ensures { result ≡ left_for filters.now class.now dop fix_type.now second }
{
    if !is_wanted(filters.classes, class) {
        return Some(Reason::Class);
    }
    if let Some(reason) = dop_reason(filters.most_dop, dop) {
        return Some(reason);
    }
    if !is_wanted(filters.types, fix_type) {
        return Some(Reason::Type);
    }
    time_reason(filters, second)
}
