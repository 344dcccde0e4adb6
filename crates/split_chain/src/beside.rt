// Longitudes and latitudes that are not read, beside coordinates that are.

ghost use Rattle.std.specs.Prelude.{IfErr};
ghost use Rattle.split_refusal.specs.Refused.{IsOfNoFix};

use crate::passed::title_at;
use crate::read::shown;
use crate::wish::Wish;
use range_plane::{OutOfMemory, Scale};
use split_export::{Export, are_turned, count_apart, first_of_both, lie_otherwise};
use split_reading::Zone;
use split_refusal::{Kind, Refusal};
use split_said::{Said, are_far_in, push_degrees_of};
use split_table::TableFault;
use split_titles::{Pair, degrees_beside, is_of_places, trimmed};
use std::alloc::{AllocError, Global};

// How many columns a table may have whose titles are compared two by two.
const MOST_COLUMNS: usize = 512;

// The columns of longitude and latitude that are not read.
fn degrees_in(alloc: Global, export: &Export<'_>) -> Result<Option<Pair>, OutOfMemory> {
    if export.titles.len() > MOST_COLUMNS {
        return Ok(None);
    }
    let titles = shown(alloc, &export.titles)?;
    Ok(degrees_beside(&titles, &export.columns))
}

// Appends two columns by their numbers and their titles.
fn push_pair(
    alloc: Global,
    text: &mut String,
    titles: &[Vec<u8>],
    pair: Pair,
) -> Result<(), AllocError> {
    for column in [pair.first, pair.second] {
        let title = match titles.get(column) {
            Some(title) => str::from_utf8(trimmed(title)).unwrap_or(""),
            None => "",
        };
        let joint = if column == pair.first { "" } else { " and " };
        let number = column.saturating_add(1);
        let part = format!(in alloc; "{joint}column {number} '{title}'")?;
        text.push_str(&part)?;
    }
    Ok(())
}

// How coordinates lie beside degrees that are not read, where these are not theirs.
#[derive(Clone, Copy)]
enum Lie {
    // Degrees: with axes swapped, or other signs.
    Turned,
    // Metres: in another shape.
    Otherwise,
    // Metres: far away in the zone that was named.
    Far,
}

// How metres lie beside degrees that are not read; none where these may be theirs.
fn lie_of_metres(
    alloc: Global,
    unit: Scale,
    zone: Option<Zone>,
    export: &Export<'_>,
    degrees: Pair,
) -> Result<Option<Lie>, TableFault> {
    let rows = &export.ledger.rows;
    if lie_otherwise(alloc, &export.text, degrees, unit, rows)? {
        return Ok(Some(Lie::Otherwise));
    }
    let Some(zone) = zone else {
        return Ok(None);
    };
    match first_of_both(alloc, &export.text, degrees, rows)? {
        Some(both) if are_far_in(zone, both.metres, both.degrees, unit) => Ok(Some(Lie::Far)),
        _ => Ok(None),
    }
}

// How degrees lie beside others that are not read; none where these may be theirs, or those of something else.
fn lie_of_degrees(
    alloc: Global,
    export: &Export<'_>,
    degrees: Pair,
) -> Result<Option<Lie>, TableFault> {
    let is_turned = are_turned(alloc, &export.text, degrees, &export.ledger.rows)?;
    Ok(if is_turned { Some(Lie::Turned) } else { None })
}

// How coordinates lie, before the columns of degrees that are not read.
fn said_of(lie: Lie) -> &'static str {
    match lie {
        Lie::Turned => {
            " are read as longitude and latitude, and are, with axes swapped or without their signs, "
        }
        Lie::Otherwise => " are read as metres, and fixes lie otherwise by ",
        Lie::Far => {
            " are read as metres of the zone that was named, and fixes lie more than 10 km away by "
        }
    }
}

// What is to be done about it.
fn remedy_of(lie: Lie) -> &'static str {
    match lie {
        Lie::Turned => ": name these, by --lon and --lat, or remove those that are wrong",
        Lie::Otherwise => {
            ": name these, by --lon and --lat, or write metres of one zone or system, or remove those that are not theirs"
        }
        Lie::Far => {
            ": name the zone of the metres, or name these, by --lon and --lat, or remove those that are not theirs"
        }
    }
}

// Why coordinates are refused beside degrees.
fn words(
    alloc: Global,
    titles: &[Vec<u8>],
    own: Pair,
    degrees: Pair,
    lie: Lie,
) -> Result<String, AllocError> {
    let mut text = String::new(alloc);
    push_pair(alloc, &mut text, titles, own)?;
    text.push_str(said_of(lie))?;
    push_pair(alloc, &mut text, titles, degrees)?;
    text.push_str(remedy_of(lie))?;
    Ok(text)
}

// The columns of the coordinates that are read, and how they lie beside degrees that are not.
fn lie_in(
    alloc: Global,
    unit: Scale,
    zone: Option<Zone>,
    export: &Export<'_>,
    degrees: Pair,
) -> Result<Option<(Pair, Lie)>, TableFault> {
    let (own, lie) = match (export.columns.metres, export.columns.degrees) {
        (Some(own), None) => (own, lie_of_metres(alloc, unit, zone, export, degrees)?),
        (None, Some(own)) => (own, lie_of_degrees(alloc, export, degrees)?),
        _ => return Ok(None),
    };
    match lie {
        Some(lie) => Ok(Some((own, lie))),
        None => Ok(None),
    }
}

/// Refuses coordinates beside longitudes and latitudes that are not read and by which fixes lie elsewhere.
///
/// # Errors
///
/// They do, or memory ran out.
pub(crate) fn refuse_beside(
    alloc: Global,
    unit: Scale,
    wish: &Wish<'_>,
    export: &Export<'_>,
) -> Result<(), Refusal>
    ensures { IfErr result IsOfNoFix }
{
    let degrees = match degrees_in(alloc, export) {
        Ok(Some(degrees)) => degrees,
        Ok(None) => return Ok(()),
        Err(_) => return Err(Refusal::out_of_memory(alloc)),
    };
    match lie_in(alloc, unit, wish.zone, export, degrees) {
        Ok(None) => Ok(()),
        Ok(Some((own, lie))) => match words(alloc, &export.titles, own, degrees, lie) {
            Ok(text) => Err(Refusal::new(alloc, Kind::Columns, None, text.as_bytes())),
            Err(_) => Err(Refusal::out_of_memory(alloc)),
        },
        Err(_) => Err(Refusal::out_of_memory(alloc)),
    }
}

// Where the first fix lies by degrees that are not read, in words.
fn place_words(
    alloc: Global,
    titles: &[Vec<u8>],
    degrees: Pair,
    place: (i64, i64),
) -> Result<Vec<u8>, AllocError> {
    let mut text = String::from_str(alloc, "by ")?;
    push_pair(alloc, &mut text, titles, degrees)?;
    let mut words = Vec::from_slice(alloc, text.as_bytes())?;
    words.extend_from_slice(b", which are not read, the first fix is near ")?;
    push_degrees_of(alloc, &mut words, place)?;
    Ok(words)
}

// Says where the first fix lies by degrees that are not read.
fn tell_place(
    alloc: Global,
    said: &mut Said,
    export: &Export<'_>,
    degrees: Pair,
) -> Result<(), OutOfMemory> {
    match first_of_both(alloc, &export.text, degrees, &export.ledger.rows) {
        Ok(Some(both)) => {
            let words = place_words(alloc, &export.titles, degrees, both.degrees)?;
            said.say(alloc, &words)
        }
        Ok(None) => Ok(()),
        Err(_) => Err(OutOfMemory),
    }
}

// Whether columns of degrees that are not read have usual titles, and so those of fixes.
fn are_usual(export: &Export<'_>, degrees: Pair) -> bool {
    [degrees.first, degrees.second]
        .iter()
        .all(|column| is_of_places(title_at(export, *column)))
}

// What is asked of so many fixes that lie elsewhere by degrees that are not read.
fn apart_words(
    alloc: Global,
    titles: &[Vec<u8>],
    degrees: Pair,
    count: usize,
) -> Result<String, AllocError> {
    let mut text = format!(in alloc; "{count} fixes lie more than 1 km from ")?;
    push_pair(alloc, &mut text, titles, degrees)?;
    text.push_str(", which are not read: are these theirs?")?;
    Ok(text)
}

// Asks about fixes that lie elsewhere by degrees of usual titles that are not read, but not of Argos, which has two places for each.
fn tell_apart(
    alloc: Global,
    said: &mut Said,
    export: &Export<'_>,
    degrees: Pair,
) -> Result<(), OutOfMemory> {
    if export.columns.argos.is_some() || !are_usual(export, degrees) {
        return Ok(());
    }
    match count_apart(alloc, &export.text, degrees, &export.ledger.rows) {
        Ok(0) => Ok(()),
        Ok(count) => {
            let words = apart_words(alloc, &export.titles, degrees, count)?;
            said.say(alloc, words.as_bytes())
        }
        Err(_) => Err(OutOfMemory),
    }
}

// Says of degrees that are not read where fixes lie by them: the first one of metres of no known zone, and of degrees those that lie
// elsewhere.
fn tell(
    alloc: Global,
    said: &mut Said,
    wish: &Wish<'_>,
    export: &Export<'_>,
    degrees: Pair,
) -> Result<(), OutOfMemory> {
    match (export.columns.metres, export.columns.degrees) {
        (Some(_), None) if wish.zone.is_none() => tell_place(alloc, said, export, degrees),
        (None, Some(_)) => tell_apart(alloc, said, export, degrees),
        _ => Ok(()),
    }
}

/// Says where the first fix of metres of no known zone lies by longitudes and latitudes that are not read, and asks about such of degrees
/// that lie elsewhere.
///
/// # Errors
///
/// Memory ran out.
pub(crate) fn tell_beside(
    alloc: Global,
    said: &mut Said,
    wish: &Wish<'_>,
    export: &Export<'_>,
) -> Result<(), Refusal>
    ensures { IfErr result IsOfNoFix }
{
    let told = match degrees_in(alloc, export) {
        Ok(Some(degrees)) => tell(alloc, said, wish, export, degrees),
        Ok(None) => Ok(()),
        Err(fault) => Err(fault),
    };
    match told {
        Ok(()) => Ok(()),
        Err(_) => Err(Refusal::out_of_memory(alloc)),
    }
}
