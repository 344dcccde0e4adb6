// Dates without signs between their parts, which are numbers too.

ghost use Rattle.std.specs.Prelude.{◌≡◌, ◌&&◌};
ghost use Rattle.split_times.specs.Orders.{is_century, is_date, is_day, is_day_month, is_hour, is_minute_last, is_month, is_month_day, is_second_last, is_sixty, is_year_first, is_year_third, orders_of, pairs_of};

use crate::moment::Moment;

/// In which orders numbers of ten digits, before which a zero may be missing, are days with hours. An order has a field, in
/// which a year has four digits and a short year two, and all other parts have two.
#[derive(Clone, Copy, PartialEq, Eq, Debug)]
pub struct DayOrders {
    pub year_month_day_hour: bool,
    pub year_day_month_hour: bool,
    pub day_month_year_hour: bool,
    pub month_day_year_hour: bool,
    pub short_year_month_day_hour_minute: bool,
    pub day_month_short_year_hour_minute: bool,
    pub month_day_short_year_hour_minute: bool,
    pub month_day_hour_minute_second: bool,
    pub day_month_hour_minute_second: bool,
}

// The digits of a number of at most ten, in pairs.
#[derive(Clone, Copy)]
struct Pairs {
    first: u64,
    second: u64,
    third: u64,
    fourth: u64,
    fifth: u64,
}

// The digits of a number in pairs; of one of more digits the last ten.
fn pairs_of(number: u64) -> Pairs
    ensures { result ≡ pairs_of number }
{
    Pairs {
        first: number / 100_000_000 % 100,
        second: number / 1_000_000 % 100,
        third: number / 10_000 % 100,
        fourth: number / 100 % 100,
        fifth: number % 100,
    }
}

// Whether years of the twentieth or the twenty-first century begin with these digits.
fn is_century(pair: u64) -> bool
    ensures { result ≡ is_century pair }
{
    pair == 19 || pair == 20
}

// Whether a month has this number.
fn is_month(pair: u64) -> bool
    ensures { result ≡ is_month pair }
{
    1 <= pair && pair <= 12
}

// Whether a day of some month has this number.
fn is_day(pair: u64) -> bool
    ensures { result ≡ is_day pair }
{
    1 <= pair && pair <= 31
}

// Whether an hour has this number: some count them from 0 and some from 1.
fn is_hour(pair: u64) -> bool
    ensures { result ≡ is_hour pair }
{
    pair <= 24
}

// Whether a minute or a second has this number.
fn is_sixty(pair: u64) -> bool
    ensures { result ≡ is_sixty pair }
{
    pair < 60
}

// Whether a number is a date: a year of four digits, a month and a day, or a day, a month and a year, or a month, a day and
// a year; or a year of two digits, from 10 on, a month and a day.
pub(crate) fn is_date(number: u64) -> bool
    ensures { result ≡ is_date number }
{
    let pairs = pairs_of(number);
    if number < 100_000 || 100_000_000 <= number {
        false
    } else if number < 1_000_000 {
        is_month(pairs.fourth) && is_day(pairs.fifth)
    } else if is_century(pairs.second) && is_month(pairs.fourth) && is_day(pairs.fifth) {
        true
    } else {
        is_century(pairs.fourth)
            && (is_day(pairs.second) && is_month(pairs.third)
                || is_month(pairs.second) && is_day(pairs.third))
    }
}

// Whether a month and a day stand first.
fn is_month_day(pairs: Pairs) -> bool
    ensures { result ≡ is_month_day pairs }
{
    is_month(pairs.first) && is_day(pairs.second)
}

// Whether a day and a month stand first.
fn is_day_month(pairs: Pairs) -> bool
    ensures { result ≡ is_day_month pairs }
{
    is_day(pairs.first) && is_month(pairs.second)
}

// Whether a year stands first and an hour last.
fn is_year_first(pairs: Pairs) -> bool
    ensures { result ≡ is_year_first pairs }
{
    is_century(pairs.first) && is_hour(pairs.fifth)
}

// Whether a year stands behind two pairs and an hour last.
fn is_year_third(pairs: Pairs) -> bool
    ensures { result ≡ is_year_third pairs }
{
    is_century(pairs.third) && is_hour(pairs.fifth)
}

// Whether an hour and a minute stand last.
fn is_minute_last(pairs: Pairs) -> bool
    ensures { result ≡ is_minute_last pairs }
{
    is_hour(pairs.fourth) && is_sixty(pairs.fifth)
}

// Whether an hour, a minute and a second stand last.
fn is_second_last(pairs: Pairs) -> bool
    ensures { result ≡ is_second_last pairs }
{
    is_hour(pairs.third) && is_sixty(pairs.fourth) && is_sixty(pairs.fifth)
}

// The orders in which pairs of digits are a day with hours.
fn orders_of(pairs: Pairs) -> DayOrders
    ensures { result ≡ orders_of pairs }
{
    let (second, third, fourth) = (pairs.second, pairs.third, pairs.fourth);
    DayOrders {
        year_month_day_hour: is_year_first(pairs) && is_month(third) && is_day(fourth),
        year_day_month_hour: is_year_first(pairs) && is_day(third) && is_month(fourth),
        day_month_year_hour: is_day_month(pairs) && is_year_third(pairs),
        month_day_year_hour: is_month_day(pairs) && is_year_third(pairs),
        short_year_month_day_hour_minute: is_month(second)
            && is_day(third)
            && is_minute_last(pairs),
        day_month_short_year_hour_minute: is_day_month(pairs) && is_minute_last(pairs),
        month_day_short_year_hour_minute: is_month_day(pairs) && is_minute_last(pairs),
        month_day_hour_minute_second: is_month_day(pairs) && is_second_last(pairs),
        day_month_hour_minute_second: is_day_month(pairs) && is_second_last(pairs),
    }
}

// Whether both are so.
fn are_both(one: bool, other: bool) -> bool
    ensures { result ≡ (one && other) }
{
    one && other
}

impl DayOrders {
    ghost use Rattle.std.specs.Prelude.{◌≡◌, false, true};
    ghost use Rattle.split_times.specs.Orders.{are_both, day_orders, is_any, orders_by};

    // All orders, or none.
    fn by(is_order: bool) -> DayOrders
        ensures { result ≡ orders_by is_order }
    {
        DayOrders {
            year_month_day_hour: is_order,
            year_day_month_hour: is_order,
            day_month_year_hour: is_order,
            month_day_year_hour: is_order,
            short_year_month_day_hour_minute: is_order,
            day_month_short_year_hour_minute: is_order,
            month_day_short_year_hour_minute: is_order,
            month_day_hour_minute_second: is_order,
            day_month_hour_minute_second: is_order,
        }
    }

    /// All orders: those of a column of no numbers.
    pub fn all() -> DayOrders
        ensures { result ≡ orders_by true }
    {
        DayOrders::by(true)
    }

    /// No orders.
    pub fn none() -> DayOrders
        ensures { result ≡ orders_by false }
    {
        DayOrders::by(false)
    }

    /// The orders in which a number of seconds is a day with hours, such as 2024050112 or 2405011230, which are seconds of
    /// 2034 and of 2046 too. A number with decimals is none. Years of four digits are from 1900 to 2099, hours from 0 to
    /// 24, since some count them from 1, and each month may have 31 days.
    pub fn of(moment: Moment) -> DayOrders
        ensures { result ≡ day_orders moment }
    {
        if moment.nanosecond == 0 && moment.second < 10_000_000_000 {
            orders_of(pairs_of(moment.second))
        } else {
            DayOrders::none()
        }
    }

    /// The orders that are of both.
    pub fn both(self, other: DayOrders) -> DayOrders
        ensures { result ≡ are_both self other }
    {
        DayOrders {
            year_month_day_hour: are_both(self.year_month_day_hour, other.year_month_day_hour),
            year_day_month_hour: are_both(self.year_day_month_hour, other.year_day_month_hour),
            day_month_year_hour: are_both(self.day_month_year_hour, other.day_month_year_hour),
            month_day_year_hour: are_both(self.month_day_year_hour, other.month_day_year_hour),
            short_year_month_day_hour_minute: are_both(
                self.short_year_month_day_hour_minute,
                other.short_year_month_day_hour_minute,
            ),
            day_month_short_year_hour_minute: are_both(
                self.day_month_short_year_hour_minute,
                other.day_month_short_year_hour_minute,
            ),
            month_day_short_year_hour_minute: are_both(
                self.month_day_short_year_hour_minute,
                other.month_day_short_year_hour_minute,
            ),
            month_day_hour_minute_second: are_both(
                self.month_day_hour_minute_second,
                other.month_day_hour_minute_second,
            ),
            day_month_hour_minute_second: are_both(
                self.day_month_hour_minute_second,
                other.day_month_hour_minute_second,
            ),
        }
    }

    /// Whether there is an order. Where one is left of all numbers of a column, they may be dates.
    pub fn is_any(self) -> bool
        ensures { result ≡ is_any self }
    {
        self.year_month_day_hour
            || self.year_day_month_hour
            || self.day_month_year_hour
            || self.month_day_year_hour
            || self.short_year_month_day_hour_minute
            || self.day_month_short_year_hour_minute
            || self.month_day_short_year_hour_minute
            || self.month_day_hour_minute_second
            || self.day_month_hour_minute_second
    }
}
