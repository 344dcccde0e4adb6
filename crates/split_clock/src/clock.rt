// The clock of a place.

ghost use Rattle.std.specs.Prelude.{◌≡◌, ◌-ℤ◌};
ghost use Rattle.jiff_tz.specs.Ambiguous.{compatible_offset};
ghost use Rattle.split_clock.specs.Clock.{AreEarlyEnough, IsEarlyEnough, moments_by};
ghost use Rattle.split_clock.specs.Dates.{time_of};
ghost use Rattle.split_times.specs.Limits.{IsLocalSecond};

use jiff_core::civil::DateTime;
use jiff_core::{Error, Offset, Timestamp};
use jiff_tz::{AmbiguousOffset, Tzif};
use std::alloc::Global;

/// The most bytes that the file of a time zone may have.
pub const ZONE_LIMIT: usize = 1 << 20;

// How many nanoseconds a second has.
const SECOND: i128 = 1_000_000_000;

// The last second that all clocks of the calendar have.
const LAST_SECOND: u64 = 253_402_207_200;

/// Why bytes are no clock.
#[derive(Clone, Copy, PartialEq, Eq, Debug)]
pub enum ClockFault {
    /// An allocation failed.
    OutOfMemory,
    /// There are more than [`ZONE_LIMIT`].
    TooLong,
    /// They are no time zone of the database.
    NotZone,
}

/// The moments at which a clock showed a time, in seconds since 1970 in UTC, negative before it.
#[derive(Clone, Copy, PartialEq, Eq, Debug)]
pub enum Moments {
    /// The clock passed that time over.
    None,
    /// It showed the time once.
    One(i64),
    /// It showed the time twice, first at the first of these.
    Two(i64, i64),
}

/// The clock of a place: by how much it is ahead of UTC, and since when.
#[derive(Drop)]
pub struct Clock {
    zone: Option<Tzif>,
}

// The second since 1970 of a time on a clock that is so far ahead of UTC.
fn second_of(local: i64, ahead: Offset) -> i64
    requires { IsLocalSecond local }
    ensures value { result ≡ local -ℤ ahead.seconds }
    ensures within { IsEarlyEnough result }
{
    local - i64::from(ahead.seconds)
}

// The moments of a time on a clock that is so far ahead of UTC.
fn moments_by(local: i64, ahead: AmbiguousOffset) -> Moments
    requires { IsLocalSecond local }
    ensures value { result ≡ moments_by local ahead }
    ensures within { AreEarlyEnough result }
{
    match ahead {
        AmbiguousOffset::Unambiguous { offset } => Moments::One(second_of(local, offset)),
        AmbiguousOffset::Gap { .. } => Moments::None,
        AmbiguousOffset::Fold { before, after } => {
            Moments::Two(second_of(local, before), second_of(local, after))
        }
    }
}

// By how much a clock was ahead of UTC before it was moved, if it was.
fn ahead_before(ahead: AmbiguousOffset) -> Offset
    ensures { result ≡ compatible_offset ahead }
{
    match ahead {
        AmbiguousOffset::Unambiguous { offset } => offset,
        AmbiguousOffset::Gap { before, .. } => before,
        AmbiguousOffset::Fold { before, .. } => before,
    }
}

// The date and the time of a second that a clock shows.
fn civil(local: i64) -> DateTime
    requires { IsLocalSecond local }
    ensures { result ≡ time_of local }
{
    DateTime::from_nanosecond_in_range(i128::from(local) * SECOND)
}

impl Clock {
    ghost use Rattle.std.specs.Prelude.{◌≡◌, IfOk, None, min};
    ghost use Rattle.split_clock.specs.Clock.{AreEarlyEnough, IsZoneOf, ambiguous_at, begin_of, local_second, offset_at, showed};
    ghost use Rattle.split_times.specs.Limits.{IsLocalSecond};

    /// The clock of UTC.
    pub fn utc() -> Clock
        ensures { result.zone ≡ None }
    {
        Clock { zone: None }
    }

    /// The clock of a time zone, of the bytes of its file in the time zone database of the system (TZif of RFC 9636).
    ///
    /// # Errors
    ///
    /// Why the bytes are no time zone, and that an allocation failed.
    pub fn read(alloc: Global, bytes: &[u8]) -> Result<Clock, ClockFault>
        ensures { IfOk result (λ clock. IsZoneOf bytes.now clock.zone) }
    {
        if bytes.len() > ZONE_LIMIT {
            return Err(ClockFault::TooLong);
        }
        match Tzif::parse(alloc, None, bytes) {
            Ok(zone) => Ok(Clock { zone: Some(zone) }),
            Err(Error::Tzif(_)) => Err(ClockFault::NotZone),
            Err(_) => Err(ClockFault::OutOfMemory),
        }
    }

    // By how much the clock was ahead of UTC when it showed a time.
    fn ahead_at(&self, time: DateTime) -> AmbiguousOffset
        ensures { result ≡ ambiguous_at self.now.zone time }
    {
        match &self.zone {
            None => AmbiguousOffset::Unambiguous {
                offset: Offset::UTC,
            },
            Some(zone) => zone.to_ambiguous_offset(time),
        }
    }

    /// When the clock showed a time, in seconds from midnight of 1 January 1970 by this clock, of the years -9999 to 9999.
    #[tactic(auto, unfolding(crate::specs::Clock::showed))]
    pub fn moments_of(&self, local: i64) -> Moments
        requires { IsLocalSecond local }
        ensures value { result ≡ showed self.now.zone local }
        ensures within { AreEarlyEnough result }
    {
        // That of UTC needs no date.
        if self.zone.is_none() {
            return Moments::One(local);
        }
        moments_by(local, self.ahead_at(civil(local)))
    }

    /// The first moment of a day, of which the midnight is given, in seconds from midnight of 1 January 1970 by this clock.
    /// Where the clock passed over midnight, this is the moment at which it did.
    #[tactic(auto, unfolding(crate::specs::Clock::begin_of))]
    pub fn day_begins(&self, midnight: i64) -> i64
        requires { IsLocalSecond midnight }
        ensures { result ≡ begin_of self.now.zone midnight }
    {
        second_of(midnight, ahead_before(self.ahead_at(civil(midnight))))
    }

    /// By how many seconds the clock is ahead of UTC at a second since 1970; of those past the year 9999 all as at its end.
    pub fn offset_at(&self, second: u64) -> i64
        ensures { result ≡ offset_at self.now.zone (min second LAST_SECOND) }
    {
        let Some(zone) = &self.zone else {
            return 0;
        };
        let second = second.min(LAST_SECOND);
        match Timestamp::from_nanosecond(i128::from(second) * SECOND) {
            Ok(timestamp) => i64::from(zone.to_offset(timestamp).seconds),
            Err(_) => 0,
        }
    }

    /// The second that the clock shows at a second since 1970, in seconds from midnight of 1 January 1970 by this clock.
    pub fn local_second(&self, second: u64) -> i128
        ensures { result ≡ local_second self.now.zone second }
    {
        i128::from(second) + i128::from(self.offset_at(second))
    }
}
