// The hour that comes twice.

ghost use Rattle.std.specs.Prelude.{◌≡◌, ◌<◌, ◌≤◌, ◌^◌, ◌⊎◌, IfOk};
ghost use Rattle.split_times.specs.Limits.{IsLocalSecond, IsTimely};
ghost use Rattle.split_clock.specs.Clock.{AreEarlyEnough, IsEarlyEnough, showed};
ghost use Rattle.split_clock.specs.Twice.{chosen, clock_moment_in, is_earlier, moment_at, moment_by, one_of};

use crate::clock::{Clock, Moments};
use split_times::{LocalTime, Moment, TextTime};

/// The moment of a record.
#[derive(Clone, Copy, PartialEq, Eq, Debug)]
pub struct ClockMoment {
    pub moment: Moment,
    /// Whether its time is what the clock showed; else it says itself how far its clock is ahead of UTC.
    pub is_local: bool,
    /// Whether the clock showed its time twice.
    pub is_twice: bool,
}

/// Why a time of a clock is no moment.
#[derive(Clone, Copy, PartialEq, Eq, Debug)]
pub enum NoMoment {
    /// The clock passed it over.
    PassedOver,
    /// It was before 1970 in UTC.
    Before1970,
}

// Whether a moment is earlier than another.
fn is_earlier(moment: Moment, other: Moment) -> bool
    ensures { result ≡ is_earlier moment other }
{
    moment.second < other.second
        || moment.second == other.second && moment.nanosecond < other.nanosecond
}

// The first of two moments, unless the record before of the same animal is later than that; then the second.
fn chosen(first: Moment, second: Moment, before: Option<Moment>) -> Moment
    ensures value { result ≡ chosen first second before }
    ensures either { (result ≡ first) ⊎ (result ≡ second) }
{
    match before {
        Some(before) if is_earlier(first, before) => second,
        _ => first,
    }
}

// The moment of a second since 1970 in UTC and of nanoseconds.
fn moment_at(second: i64, nanosecond: u32) -> Result<Moment, NoMoment>
    ensures value { result ≡ moment_at second nanosecond }
    ensures part { IfOk result (λ moment. moment.nanosecond ≡ nanosecond) }
    ensures within { IsEarlyEnough second → IfOk result (λ moment. moment.second ≤ 2 ^ 40) }
{
    if second < 0 {
        Err(NoMoment::Before1970)
    } else {
        Ok(Moment {
            second: second as u64,
            nanosecond,
        })
    }
}

// One of two moments.
#[tactic(auto, unfolding(crate::specs::Twice::one_of))]
fn one_of(
    first: i64,
    second: i64,
    nanosecond: u32,
    before: Option<Moment>,
) -> Result<Moment, NoMoment>
    ensures value { result ≡ one_of first second nanosecond before }
    ensures part { IfOk result (λ moment. moment.nanosecond ≡ nanosecond) }
    ensures within { IsEarlyEnough first → IsEarlyEnough second → IfOk result (λ moment. moment.second ≤ 2 ^ 40) }
{
    let first = moment_at(first, nanosecond)?;
    let second = moment_at(second, nanosecond)?;
    Ok(chosen(first, second, before))
}

/// The moment of a record by the moments at which the clock showed its time, with the nanoseconds that the time has. Where
/// there are two, it is the first, unless the moment of the record before of the same animal is later than that; then it is
/// the second.
pub fn moment_by(
    moments: Moments,
    nanosecond: u32,
    before: Option<Moment>,
) -> Result<ClockMoment, NoMoment>
    ensures value { result ≡ moment_by moments nanosecond before }
    ensures part { IfOk result (λ found. found.moment.nanosecond ≡ nanosecond) }
    ensures within { AreEarlyEnough moments → IfOk result (λ found. found.moment.second ≤ 2 ^ 40) }
{
    match moments {
        Moments::None => Err(NoMoment::PassedOver),
        Moments::One(second) => Ok(ClockMoment {
            moment: moment_at(second, nanosecond)?,
            is_local: true,
            is_twice: false,
        }),
        Moments::Two(first, second) => Ok(ClockMoment {
            moment: one_of(first, second, nanosecond, before)?,
            is_local: true,
            is_twice: true,
        }),
    }
}

// The moment of a record of a time that a clock showed.
fn local_moment(
    time: LocalTime,
    clock: &Clock,
    before: Option<Moment>,
) -> Result<ClockMoment, NoMoment>
    requires { IsLocalSecond time.second }
    ensures value { result ≡ moment_by (showed clock.now.zone time.second) time.nanosecond before }
    ensures part { IfOk result (λ found. found.moment.nanosecond ≡ time.nanosecond) }
    ensures within { IfOk result (λ found. found.moment.second ≤ 2 ^ 40) }
{
    moment_by(clock.moments_of(time.second), time.nanosecond, before)
}

/// The moment of a record of a time. One of which it is not said how far its clock is ahead of UTC is what this clock showed,
/// which came twice or never, as [`moment_by`] has it. `before` is the moment of the record before of the same animal.
pub fn clock_moment(
    time: TextTime,
    clock: &Clock,
    before: Option<Moment>,
) -> Result<ClockMoment, NoMoment>
    requires { IsTimely time }
    ensures value { result ≡ clock_moment_in clock.now.zone before time }
    ensures timely { IfOk result (λ found. (found.moment.second ≤ 2 ^ 40) × (found.moment.nanosecond < 10 ^ 9)) }
{
    match time {
        TextTime::Utc(moment) => Ok(ClockMoment {
            moment,
            is_local: false,
            is_twice: false,
        }),
        TextTime::Local(time) => local_moment(time, clock, before),
    }
}
