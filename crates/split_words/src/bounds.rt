// The first and the last second that are wanted, by a clock.

ghost use Rattle.std.specs.Prelude.{◌≡◌};
ghost use Rattle.split_times.specs.Limits.{IsLocalSecond};
ghost use Rattle.split_words.specs.Bounds.{bound_at, bound_by};

use crate::fault::{WordFault, refused};
use split_clock::{Clock, Moments};
use split_refusal::Kind;
use split_times::{TextTime, TimeFault, iso_time};
use std::alloc::Global;

// How many bytes a day has, as 2024-05-01.
const DAY_BYTES: usize = 10;

// The seconds of a day.
const DAY: i64 = 86_400;

// The midnight of the last day of the calendar.
const LAST_MIDNIGHT: i64 = 253_402_214_400;

// Why a text is no bound.
#[derive(Clone, Copy, PartialEq, Eq, Debug)]
pub(crate) enum BoundFault {
    // It is no time.
    NotTime,
    // More than nine digits stand behind the seconds.
    MoreThanNineDecimals,
    // The clock passed it over.
    PassedOver,
    // It is the last second that is wanted, and was before 1970.
    Before1970,
}

// The bound of a second since 1970 in UTC and of nanoseconds: as a first second it is the next whole one. A first second
// before 1970 is 0, since no fix is before it.
fn bound_at(second: i64, nanosecond: u32, is_end: bool) -> Result<u64, BoundFault>
    ensures { result ≡ bound_at second nanosecond is_end }
{
    if second < 0 {
        if is_end {
            Err(BoundFault::Before1970)
        } else {
            Ok(0)
        }
    } else if nanosecond > 0 && !is_end {
        Ok(second as u64 + 1)
    } else {
        Ok(second as u64)
    }
}

// The bound of a time that a clock showed at these moments: the first of two as a first second, and else the second.
fn bound_by(moments: Moments, nanosecond: u32, is_end: bool) -> Result<u64, BoundFault>
    ensures { result ≡ bound_by moments nanosecond is_end }
{
    match moments {
        Moments::None => Err(BoundFault::PassedOver),
        Moments::One(second) => bound_at(second, nanosecond, is_end),
        Moments::Two(first, second) => {
            bound_at(if is_end { second } else { first }, nanosecond, is_end)
        }
    }
}

// The last second of a day, of which the midnight is given.
fn day_ends(midnight: i64, clock: &Clock) -> i64
    requires { IsLocalSecond midnight }
{
    if midnight < LAST_MIDNIGHT {
        clock.day_begins(midnight + DAY).saturating_sub(1)
    } else {
        clock.day_begins(midnight).saturating_add(DAY - 1)
    }
}

// The bound of a day, of which the midnight is given.
fn day_bound(midnight: i64, clock: &Clock, is_end: bool) -> Result<u64, BoundFault>
    requires { IsLocalSecond midnight }
{
    if is_end {
        bound_at(day_ends(midnight, clock), 0, is_end)
    } else {
        bound_at(clock.day_begins(midnight), 0, is_end)
    }
}

// The bound of a text.
fn bound_in(text: &[u8], clock: &Clock, is_end: bool) -> Result<u64, BoundFault> {
    match iso_time(text) {
        Ok(TextTime::Utc(moment)) => bound_at(moment.second as i64, moment.nanosecond, is_end),
        Ok(TextTime::Local(time)) if text.len() == DAY_BYTES => {
            day_bound(time.second, clock, is_end)
        }
        Ok(TextTime::Local(time)) => {
            bound_by(clock.moments_of(time.second), time.nanosecond, is_end)
        }
        Err(TimeFault::Before1970) => bound_at(-1, 0, is_end),
        Err(TimeFault::MoreThanNineDecimals) => Err(BoundFault::MoreThanNineDecimals),
        Err(TimeFault::NotTime) => Err(BoundFault::NotTime),
    }
}

// The refusal of a text as a bound, by the clock of this zone.
fn refused_bound(alloc: Global, text: &str, zone_name: &str, fault: BoundFault) -> WordFault {
    let words = match fault {
        BoundFault::NotTime => format!(in alloc;
            "'{text}' is no time in {zone_name}, such as '2024-05-01' or '2024-05-01 00:30:04'"
        ),
        BoundFault::MoreThanNineDecimals => format!(in alloc;
            "'{text}' has more than nine decimals of a second: write at most nine"
        ),
        BoundFault::PassedOver => format!(in alloc;
            "'{text}' is no time in {zone_name}, whose clocks passed it over"
        ),
        BoundFault::Before1970 => format!(in alloc;
            "until is '{text}', and no fix is before 1970: name a later time"
        ),
    };
    match words {
        Ok(words) => refused(alloc, Kind::Option, words.as_str()),
        Err(_) => WordFault::OutOfMemory,
    }
}

/// The first second that a text wants, or where it is an end the last, in seconds since 1970 in UTC. The text is an ISO
/// text, beside which blanks may stand; one without an offset is what the clock of this zone shows. Of a time that the
/// clock showed twice it is the first moment, or as an end the second; of a day the first second, or as an end the last;
/// and the next whole second, or as an end the one before. A first second before 1970 is 0.
///
/// # Errors
///
/// The text is no time or has more than nine decimals of a second, the clock passed over the time, or as an end it was
/// before 1970; or memory ran out.
pub fn bound_of(
    alloc: Global,
    text: &str,
    clock: &Clock,
    is_end: bool,
    zone_name: &str,
) -> Result<u64, WordFault> {
    match bound_in(text.trim().as_bytes(), clock, is_end) {
        Ok(second) => Ok(second),
        Err(fault) => Err(refused_bound(alloc, text, zone_name, fault)),
    }
}
