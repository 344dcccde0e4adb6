// What a line of a report says, without its end.

ghost use Rattle.std.specs.Prelude.{◌≡◌, option_map};
ghost use Rattle.page_report.specs.Fields.{number_up_to, numbered};
ghost use Rattle.page_report.specs.Lines.{behind_name, behind_number, box_of, corner_of, end_of, head_of, overlap_of, percent_of, row_of};

use crate::corner::Corner;
use crate::fields::{MOST, MOST_COUNT, MOST_LEVEL, behind, cut, number_up_to, numbered};
use range_estimator::Row;
use range_lanes::Extent;
use range_stats::PercentRow;

// What stands behind a kind of line and the name of an animal, each with a comma.
#[tactic(auto, unfolding(crate::specs::Lines::behind_name))]
fn behind_name<'a>(line: &'a [u8], kind: &[u8], name: &[u8]) -> Option<&'a [u8]>
    ensures { option_map (λ rest. rest.now) result ≡ behind_name kind.now name.now line.now }
{
    behind(behind(behind(line, kind)?, name)?, b",")
}

// A count, and what stands behind its comma.
fn counted(text: &[u8]) -> Option<(u32, &[u8])>
    ensures { option_map (λ own. (own.0, own.1.now)) result ≡ numbered MOST_COUNT text.now }
{
    let (count, rest) = numbered(text, MOST_COUNT)?;
    Some((count as u32, rest))
}

// A count at the end of a line.
fn count_of(text: &[u8]) -> Option<u32>
    ensures { result ≡ number_up_to MOST_COUNT text.now }
{
    Some(number_up_to(text, MOST_COUNT)? as u32)
}

// What stands behind a number that is this one, and a comma.
#[tactic(auto, unfolding(crate::specs::Lines::behind_number))]
fn behind_number(text: &[u8], number: usize) -> Option<&[u8]>
    ensures { option_map (λ rest. rest.now) result ≡ behind_number number text.now }
{
    let (own, rest) = counted(text)?;
    if own as usize == number {
        Some(rest)
    } else {
        None
    }
}

/// The line of an animal: its name, and how many fixes it has.
#[tactic(auto, unfolding(crate::specs::Lines::head_of))]
pub(crate) fn head_of(line: &[u8]) -> Option<(&[u8], u32)>
    ensures { option_map (λ own. (own.0.now, own.1)) result ≡ head_of line.now }
{
    let (name, rest) = cut(behind(line, b"animal,")?, b',')?;
    let fixes = count_of(behind(rest, b"fixes,")?)?;
    Some((name, fixes))
}

/// The box of the animal of this name.
#[tactic(auto, unfolding(crate::specs::Lines::box_of))]
pub(crate) fn box_of(line: &[u8], name: &[u8]) -> Option<Extent>
    ensures { result ≡ box_of name.now line.now }
{
    let text = behind_name(line, b"box,", name)?;
    let (min_e, text) = numbered(text, MOST)?;
    let (min_n, text) = numbered(text, MOST)?;
    let (max_e, text) = numbered(text, MOST)?;
    let max_n = number_up_to(text, MOST)?;
    Some(Extent {
        min_e: min_e as i64,
        min_n: min_n as i64,
        max_e: max_e as i64,
        max_n: max_n as i64,
    })
}

/// The row of this number.
#[tactic(auto, unfolding(crate::specs::Lines::row_of))]
pub(crate) fn row_of(line: &[u8], name: &[u8], number: usize) -> Option<Row>
    ensures { result ≡ row_of name.now number line.now }
{
    let text = behind_number(behind_name(line, b"row,", name)?, number)?;
    let (second, text) = numbered(text, MOST)?;
    let (corners, text) = counted(text)?;
    let area2 = number_up_to(text, MOST)?;
    Some(Row {
        second,
        corners,
        area2: u128::from(area2),
    })
}

/// The corner of this number.
#[tactic(auto, unfolding(crate::specs::Lines::corner_of))]
pub(crate) fn corner_of(line: &[u8], name: &[u8], number: usize) -> Option<Corner>
    ensures { result ≡ corner_of name.now number line.now }
{
    let text = behind_number(behind_name(line, b"corner,", name)?, number)?;
    let (easting, text) = numbered(text, MOST)?;
    let northing = number_up_to(text, MOST)?;
    Some(Corner {
        easting: easting as i64,
        northing: northing as i64,
    })
}

/// The percent polygon of a line.
#[tactic(auto, unfolding(crate::specs::Lines::percent_of))]
pub(crate) fn percent_of(line: &[u8], name: &[u8]) -> Option<PercentRow>
    ensures { result ≡ percent_of name.now line.now }
{
    let text = behind_name(line, b"percent,", name)?;
    let (level, text) = numbered(text, MOST_LEVEL)?;
    let (kept, text) = counted(text)?;
    let (corners, text) = counted(text)?;
    let area2 = number_up_to(text, MOST)?;
    Some(PercentRow {
        level: level as u8,
        kept,
        corners,
        area2: u128::from(area2),
    })
}

/// How many fixes of an animal lie in the range of another, and how many there are.
#[tactic(auto, unfolding(crate::specs::Lines::overlap_of))]
pub(crate) fn overlap_of(line: &[u8], animal: &[u8], range: &[u8]) -> Option<(u32, u32)>
    ensures { result ≡ overlap_of animal.now range.now line.now }
{
    let text = behind(behind_name(line, b"overlap,", animal)?, range)?;
    let (count, text) = counted(behind(text, b",")?)?;
    Some((count, count_of(text)?))
}

/// How many animals the last line has.
#[tactic(auto, unfolding(crate::specs::Lines::end_of))]
pub(crate) fn end_of(line: &[u8]) -> Option<u32>
    ensures { result ≡ end_of line.now }
{
    count_of(behind(line, b"end,")?)
}
