// Columns are looked for by titles.

ghost use Rattle.std.specs.Prelude.{◌<◌, ℕ, IfOk, IfSome, length};
ghost use Rattle.split_titles.specs.Columns.{IfPairWithin, IsWithin};

use crate::columns::Pair;
use crate::fault::TitleFault;
use crate::named::Role;
use crate::plain::{comes_to, is_written_as};

// Whether a title is written as this one, or comes to it.
fn fits(own: &[u8], title: &[u8], is_exact: bool) -> bool {
    if is_exact {
        is_written_as(own, title)
    } else {
        comes_to(own, title)
    }
}

// The first column from this place on whose title is written as this one, or comes to it.
pub(crate) fn next_place(
    titles: &[&[u8]],
    from: usize,
    title: &[u8],
    is_exact: bool,
) -> Option<usize>
    ensures { IsWithin (length titles.now) result }
{
    for (at, own) in titles.iter().enumerate() {
        if from <= at && fits(own, title, is_exact) {
            return Some(at);
        }
    }
    None
}

// The column of a usual title. One that is written so goes before one that only comes to it.
pub(crate) fn usual<'a>(
    titles: &[&[u8]],
    title: &'static str,
) -> Result<Option<usize>, TitleFault<'a>>
    ensures { IfOk result (IsWithin (length titles.now)) }
{
    let wanted = title.as_bytes();
    let is_exact = next_place(titles, 0, wanted, true).is_some();
    let Some(first) = next_place(titles, 0, wanted, is_exact) else {
        return Ok(None);
    };
    match next_place(titles, first + 1, wanted, is_exact) {
        Some(second) => Err(TitleFault::OneTitle {
            first,
            second,
            title,
        }),
        None => Ok(Some(first)),
    }
}

// The columns of two usual titles, where both are there.
pub(crate) fn usual_pair<'a>(
    titles: &[&[u8]],
    first: &'static str,
    second: &'static str,
) -> Result<Option<Pair>, TitleFault<'a>>
    ensures { IfOk result (IfPairWithin (length titles.now)) }
{
    let one = usual(titles, first)?;
    let other = usual(titles, second)?;
    match (one, other) {
        (Some(first), Some(second)) => Ok(Some(Pair { first, second })),
        _ => Ok(None),
    }
}

// The only column of one of these usual titles; several are refused.
pub(crate) fn one_of<'a>(
    titles: &[&[u8]],
    usuals: &[&'static str],
    role: Role,
) -> Result<Option<usize>, TitleFault<'a>>
    ensures { IfOk result (IsWithin (length titles.now)) }
{
    let mut found: Option<usize> = None;
    let mut other: Option<usize> = None;
    for title in usuals {
        let place = usual(titles, title)?;
        if found.is_none() {
            found = place;
        } else if other.is_none() {
            other = place;
        }
    }
    match (found, other) {
        (Some(first), Some(second)) => Err(TitleFault::OneRole {
            first,
            second,
            role,
        }),
        _ => Ok(found),
    }
}

// The earlier of two places, as far as they are there.
fn earlier(one: Option<usize>, other: Option<usize>) -> Option<usize>
    ensures { (width : ℕ) → IsWithin width one → IsWithin width other → IsWithin width result }
{
    match (one, other) {
        (Some(at), Some(place)) => Some(at.min(place)),
        (Some(at), None) => Some(at),
        (None, place) => place,
    }
}

// The first of the columns of these usual titles.
pub(crate) fn first_of<'a>(
    titles: &[&[u8]],
    usuals: &[&'static str],
) -> Result<Option<usize>, TitleFault<'a>>
    ensures { IfOk result (IsWithin (length titles.now)) }
{
    let mut found: Option<usize> = None;
    for title in usuals {
        found = earlier(found, usual(titles, title)?);
    }
    Ok(found)
}

// The column of the first of titles between `|` that is there.
pub(crate) fn first_place(titles: &[&[u8]], wanted: &[u8]) -> Option<usize>
    ensures { IsWithin (length titles.now) result }
{
    for title in wanted.split(|byte| *byte == b'|') {
        let place = next_place(titles, 0, title, true);
        if place.is_some() {
            return place;
        }
    }
    None
}

// The column of a title that was named, or of the first of several between `|` that is there. Two of one title are refused.
pub(crate) fn named_place<'a>(
    titles: &[&[u8]],
    wanted: &'a [u8],
    role: Role,
) -> Result<usize, TitleFault<'a>>
    ensures { IfOk result (λ at. at < length titles.now) }
{
    let Some(first) = first_place(titles, wanted) else {
        return Err(TitleFault::NoColumn { role, wanted });
    };
    match next_place(titles, first + 1, titles[first], true) {
        Some(second) => Err(TitleFault::OneTitle {
            first,
            second,
            title: role.words(),
        }),
        None => Ok(first),
    }
}

// The column that was named, or else the only one of these usual titles.
pub(crate) fn named_or_usual<'a>(
    titles: &[&[u8]],
    named: Option<&'a [u8]>,
    usuals: &[&'static str],
    role: Role,
) -> Result<Option<usize>, TitleFault<'a>>
    ensures { IfOk result (IsWithin (length titles.now)) }
{
    match named {
        Some(wanted) => Ok(Some(named_place(titles, wanted, role)?)),
        None => one_of(titles, usuals, role),
    }
}

// Whether a title comes to one of these.
pub(crate) fn is_usual(own: &[u8], usuals: &[&str]) -> bool {
    usuals.iter().any(|title| comes_to(own, title.as_bytes()))
}

// Refuses that an option asks for a column which is not there.
pub(crate) fn require<'a>(
    is_asked: bool,
    place: Option<usize>,
    fault: TitleFault<'a>,
) -> Result<(), TitleFault<'a>> {
    if is_asked && place.is_none() {
        Err(fault)
    } else {
        Ok(())
    }
}
