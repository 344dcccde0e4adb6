// Laws of dates, for who reads what is promised. Each is a function that does nothing and promises the law; nobody calls it.

ghost use Rattle.std.specs.Prelude.{◌≡◌};
ghost use Rattle.page_dates.specs.Laws.{DaysAreOfTheCalendar};

use crate::calendar::END_OF_DAYS;

/// The day so many days after 1 January 1970 has that number in the calendar.
pub fn days_are_of_the_calendar()
    ensures { DaysAreOfTheCalendar }
{}

/// The day with which dates end, as a number: definitions take it from the code.
pub fn end_of_days_is_this()
    ensures { END_OF_DAYS ≡ 200_000 }
{}
