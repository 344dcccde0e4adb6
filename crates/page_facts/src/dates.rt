// Whether the seconds of a report are dates.

ghost use Rattle.std.specs.Prelude.{◌≡◌};
ghost use Rattle.std.specs.List.{list_all};
ghost use Rattle.page_facts.specs.Dates.{are_dates, has_dates, is_date};
ghost use Rattle.page_report.specs.Reading.{read, said};

use page_report::{ReadAnimal, Report};
use range_estimator::Row;

/// The first second that is a date, 3 March 1973. Smaller numbers are counted from a start that files have of their own.
pub const FIRST_DATE: u64 = 100_000_000;

/// The second with which dates end, in the year 2262.
pub const END_OF_DATES: u64 = 9_223_372_036;

// Whether the second of a row is a date.
fn is_date(row: &Row) -> bool
    ensures { result ≡ is_date row.now }
{
    FIRST_DATE <= row.second && row.second < END_OF_DATES
}

// Whether all seconds of an animal are dates.
fn has_dates(animal: &ReadAnimal) -> bool
    ensures { result ≡ has_dates (said animal.now) }
{
    animal.rows.iter().all(|row| is_date(row))
}

// Whether all seconds of several animals are dates.
fn have_dates(animals: &[ReadAnimal]) -> bool
    ensures { result ≡ list_all (λ animal. has_dates (said animal)) animals.now }
{
    animals.iter().all(|animal| has_dates(animal))
}

/// Whether all seconds of a report are dates, in seconds since 1970 in UTC.
pub fn are_dates(report: &Report) -> bool
    ensures { result ≡ are_dates (read report.now) }
{
    have_dates(&report.animals)
}

/// The bounds of dates, as numbers: definitions take them from the code.
pub fn bounds_of_dates_are_these()
    ensures first { FIRST_DATE ≡ 100_000_000 }
    ensures end { END_OF_DATES ≡ 9_223_372_036 }
{}
