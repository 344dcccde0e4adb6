// Columns that may change what is read are read or refused, and never passed over.

use crate::columns::{Columns, is_read};
use crate::fault::{PassedOver, TitleFault};
use crate::lookup::{is_usual, require};
use crate::named::{Named, Role};
use crate::plain::comes_to;
use crate::usual::{
    ALGORITHM_OUTLIER, ARGOS_CLASSES, DEGREES, DOPS, FAMILIES, FIX_TYPES, Family, IMPORT_OUTLIER,
    LOCATION_CLASSES, MANUAL_OUTLIER, MANUAL_VALID, MARK_WORDS, NO_MARKS, ODD_CLASSES,
    SATELLITE_WORDS, SENSOR, SENSOR_NUMBER, TIMES, USE, UTM_ZONE, VISIBLE,
};
use crate::words::has_word;
use std::alloc::Allocator;

// Titles of marks and of sensors, which no option names.
const UNNAMED: [&str; 8] = [
    USE,
    VISIBLE,
    MANUAL_OUTLIER,
    ALGORITHM_OUTLIER,
    IMPORT_OUTLIER,
    MANUAL_VALID,
    SENSOR,
    SENSOR_NUMBER,
];

// Whether a title comes to one of two.
fn is_of_pair(title: &[u8], pair: (&str, &str)) -> bool {
    comes_to(title, pair.0.as_bytes()) || comes_to(title, pair.1.as_bytes())
}

/// Whether a title is a usual one of coordinates, and no `x`, as which R writes numbers of rows.
pub fn is_of_places(title: &[u8]) -> bool {
    let is_of_metres = FAMILIES
        .iter()
        .any(|family| is_of_pair(title, family.metres()));
    let is_of_degrees = DEGREES.iter().any(|pair| is_of_pair(title, *pair));
    !comes_to(title, b"x") && (is_of_metres || is_of_degrees)
}

// The first column of one of these titles that is not read.
fn unread<A: Allocator>(titles: &[&[u8]], columns: &Columns<A>, usuals: &[&str]) -> Option<usize> {
    for (at, own) in titles.iter().enumerate() {
        if is_usual(own, usuals) && !is_read(columns, at) {
            return Some(at);
        }
    }
    None
}

// The first column that may have classes of Argos by its title: beside such a column, or where an option asks for one, also by a
// title that other classes have.
fn odd_classes<A: Allocator>(
    titles: &[&[u8]],
    named: &Named<'_>,
    columns: &Columns<A>,
) -> Option<usize> {
    if named.has_argos_class || columns.argos.is_some() {
        unread(titles, columns, &ODD_CLASSES)
    } else {
        unread(titles, columns, &LOCATION_CLASSES)
    }
}

// Refuses a column that may have classes of Argos, unless one was named, and that an option asks for one where none is.
fn refuse_classes<'a, A: Allocator>(
    titles: &[&[u8]],
    named: &Named<'a>,
    columns: &Columns<A>,
) -> Result<(), TitleFault<'a>> {
    if named.argos.is_some() {
        return Ok(());
    }
    let Some(at) = odd_classes(titles, named, columns) else {
        return require(
            named.has_argos_class,
            columns.argos,
            TitleFault::NoArgosClass,
        );
    };
    match columns.argos {
        Some(first) => Err(TitleFault::OneRole {
            first,
            second: at,
            role: Role::Argos,
        }),
        None => Err(TitleFault::PassedOver {
            at,
            what: PassedOver::Classes,
        }),
    }
}

// Whether a word of a title says that a column may have marks.
fn may_be_mark(title: &[u8]) -> bool {
    let is_other = has_word(title, &SATELLITE_WORDS) || is_usual(title, &NO_MARKS);
    has_word(title, &MARK_WORDS) && !is_other
}

// The first column that may have marks, and is not read.
fn unread_mark<A: Allocator>(titles: &[&[u8]], columns: &Columns<A>) -> Option<usize> {
    for (at, own) in titles.iter().enumerate() {
        if may_be_mark(own) && !is_read(columns, at) {
            return Some(at);
        }
    }
    None
}

// Refuses a column that may have marks, unless the column `use` says which fixes are used.
fn refuse_marks<'a, A: Allocator>(
    titles: &[&[u8]],
    columns: &Columns<A>,
) -> Result<(), TitleFault<'a>> {
    if columns.marks.usage.is_some() {
        return Ok(());
    }
    match unread_mark(titles, columns) {
        Some(at) => Err(TitleFault::PassedOver {
            at,
            what: PassedOver::Mark,
        }),
        None => Ok(()),
    }
}

// Refuses zones of UTM beside coordinates that are not of UTM, unless longitude and latitude were named.
fn refuse_zone<'a, A: Allocator>(
    titles: &[&[u8]],
    named: &Named<'a>,
    columns: &Columns<A>,
) -> Result<(), TitleFault<'a>> {
    if columns.is_utm || named.lon.is_some() {
        return Ok(());
    }
    match unread(titles, columns, &[UTM_ZONE]) {
        Some(at) => Err(TitleFault::PassedOver {
            at,
            what: PassedOver::Zone,
        }),
        None => Ok(()),
    }
}

// The columns whose titles come to this one: the first that is read, and the first that is not, in the order of columns.
fn twins<A: Allocator>(
    titles: &[&[u8]],
    columns: &Columns<A>,
    title: &str,
) -> Option<(usize, usize)> {
    let mut read: Option<usize> = None;
    let mut other: Option<usize> = None;
    for (at, own) in titles.iter().enumerate() {
        if !comes_to(own, title.as_bytes()) {
            continue;
        }
        if is_read(columns, at) {
            read = read.or(Some(at));
        } else {
            other = other.or(Some(at));
        }
    }
    match (read, other) {
        (Some(one), Some(two)) => Some((one.min(two), one.max(two))),
        _ => None,
    }
}

// Refuses two columns of one of these titles, of which one is read and the other is not.
fn refuse_twins<'a, A: Allocator>(
    titles: &[&[u8]],
    columns: &Columns<A>,
    usuals: &[&'static str],
    is_named: bool,
) -> Result<(), TitleFault<'a>> {
    for title in usuals {
        match twins(titles, columns, title) {
            Some((first, second)) if !is_named => {
                return Err(TitleFault::OneTitle {
                    first,
                    second,
                    title,
                });
            }
            _ => {}
        }
    }
    Ok(())
}

// Refuses two pairs of columns of the same two titles of coordinates, of which one is read and the other is not.
fn refuse_pair<'a, A: Allocator>(
    titles: &[&[u8]],
    columns: &Columns<A>,
    pair: (&str, &str),
    role: Role,
) -> Result<(), TitleFault<'a>> {
    match (
        twins(titles, columns, pair.0),
        twins(titles, columns, pair.1),
    ) {
        (Some((first, second)), Some(_)) => Err(TitleFault::OneRole {
            first,
            second,
            role,
        }),
        _ => Ok(()),
    }
}

// Refuses two pairs of metres of the same titles, but for `x` and `y`, beside which tables have degrees as `X` and `Y`.
fn refuse_metres<'a, A: Allocator>(
    titles: &[&[u8]],
    columns: &Columns<A>,
) -> Result<(), TitleFault<'a>> {
    for family in FAMILIES.iter() {
        if *family != Family::Adehabitat {
            refuse_pair(titles, columns, family.metres(), Role::Easting)?;
        }
    }
    Ok(())
}

// Refuses two pairs of degrees of the same titles.
fn refuse_degrees<'a, A: Allocator>(
    titles: &[&[u8]],
    columns: &Columns<A>,
) -> Result<(), TitleFault<'a>> {
    for pair in DEGREES.iter() {
        refuse_pair(titles, columns, *pair, Role::Longitude)?;
    }
    Ok(())
}

// Refuses two pairs of coordinates of the same titles, unless one was named.
fn refuse_pairs<'a, A: Allocator>(
    titles: &[&[u8]],
    named: &Named<'a>,
    columns: &Columns<A>,
) -> Result<(), TitleFault<'a>> {
    if named.easting.is_some() || named.lon.is_some() {
        return Ok(());
    }
    refuse_metres(titles, columns)?;
    refuse_degrees(titles, columns)
}

// Refuses two columns of one title that says which fixes count, or when they were, and that was not named, of which one is read
// and the other is not.
fn refuse_all_twins<'a, A: Allocator>(
    titles: &[&[u8]],
    named: &Named<'a>,
    columns: &Columns<A>,
) -> Result<(), TitleFault<'a>> {
    refuse_pairs(titles, named, columns)?;
    refuse_twins(titles, columns, &UNNAMED, false)?;
    refuse_twins(titles, columns, &TIMES, !named.time.is_empty())?;
    refuse_twins(titles, columns, &ARGOS_CLASSES, named.argos.is_some())?;
    refuse_twins(titles, columns, &DOPS, named.dop.is_some())?;
    refuse_twins(titles, columns, &FIX_TYPES, named.fix.is_some())
}

// Refuses the first column that would be passed over and may change what is read.
pub(crate) fn refuse_passed_over<'a, A: Allocator>(
    titles: &[&[u8]],
    named: &Named<'a>,
    columns: &Columns<A>,
) -> Result<(), TitleFault<'a>> {
    refuse_classes(titles, named, columns)?;
    refuse_zone(titles, named, columns)?;
    refuse_all_twins(titles, named, columns)?;
    refuse_marks(titles, columns)
}
