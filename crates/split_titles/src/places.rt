// The columns of coordinates.

ghost use Rattle.std.specs.Prelude.{◌≡◌, false, IfOk, length};
ghost use Rattle.split_titles.specs.Columns.{IfPairWithin, IsPairWithin};
ghost use Rattle.split_titles.specs.Places.{AreFoundWithin, ArePlacesWithin, IfPlacesWithin};

use crate::columns::Pair;
use crate::fault::TitleFault;
use crate::lookup::{named_place, usual_pair};
use crate::named::{Named, Role};
use crate::plain::comes_to;
use crate::usual::{DEGREES, FAMILIES, Family, LOCATION, UTM_EASTING, UTM_NORTHING};

// Columns of coordinates, and the family that they are of, if of one.
#[derive(Clone, Copy)]
pub(crate) struct Places {
    pub(crate) metres: Option<Pair>,
    pub(crate) degrees: Option<Pair>,
    pub(crate) is_utm: bool,
    pub(crate) is_own: bool,
    pub(crate) family: Option<Family>,
}

// Whether the titles of a pair are those of metres of UTM.
fn is_utm(titles: &[&[u8]], pair: Pair) -> bool
    requires { IsPairWithin (length titles.now) pair }
{
    comes_to(titles[pair.first], UTM_EASTING.as_bytes())
        && comes_to(titles[pair.second], UTM_NORTHING.as_bytes())
}

// A pair that was named.
fn named_pair<'a>(
    titles: &[&[u8]],
    first: Role,
    one: Option<&'a [u8]>,
    second: Role,
    other: Option<&'a [u8]>,
) -> Result<Option<Pair>, TitleFault<'a>>
    ensures { IfOk result (IfPairWithin (length titles.now)) }
{
    match (one, other) {
        (None, None) => Ok(None),
        (Some(one), Some(other)) => {
            let pair = Pair {
                first: named_place(titles, one, first)?,
                second: named_place(titles, other, second)?,
            };
            if pair.first == pair.second {
                return Err(TitleFault::OneColumn { first, second });
            }
            Ok(Some(pair))
        }
        _ => Err(TitleFault::HalfPair { first, second }),
    }
}

// The coordinates that were named, if any were.
fn named_places<'a>(titles: &[&[u8]], named: &Named<'a>) -> Result<Option<Places>, TitleFault<'a>>
    ensures { IfOk result (IfPlacesWithin (length titles.now)) }
{
    let metres = named_pair(
        titles,
        Role::Easting,
        named.easting,
        Role::Northing,
        named.northing,
    )?;
    let degrees = named_pair(
        titles,
        Role::Longitude,
        named.lon,
        Role::Latitude,
        named.lat,
    )?;
    match (metres, degrees) {
        (None, None) => Ok(None),
        (Some(_), Some(_)) => Err(TitleFault::TwoPairs),
        (None, Some(_)) => Ok(Some(degrees_of(degrees, None))),
        (Some(pair), None) => {
            let is_utm = is_utm(titles, pair);
            let family = if is_utm { Some(Family::Movebank) } else { None };
            Ok(Some(Places {
                metres,
                degrees,
                is_utm,
                is_own: false,
                family,
            }))
        }
    }
}

// Degrees alone.
fn degrees_of(degrees: Option<Pair>, family: Option<Family>) -> Places
    ensures { result ≡ record {
      metres = None;
      degrees = degrees;
      is_utm = false;
      is_own = false;
      family = family;
    } }
{
    Places {
        metres: None,
        degrees,
        is_utm: false,
        is_own: false,
        family,
    }
}

// The metres of usual titles, and their family. Two pairs are refused.
fn usual_metres<'a>(titles: &[&[u8]]) -> Result<Option<(Family, Pair)>, TitleFault<'a>>
    ensures { IfOk result (AreFoundWithin (length titles.now)) }
{
    let mut found: Option<(Family, Pair)> = None;
    let mut other: Option<(Family, Pair)> = None;
    for family in FAMILIES.iter() {
        let (easting, northing) = family.metres();
        let Some(pair) = usual_pair(titles, easting, northing)? else {
            continue;
        };
        if found.is_none() {
            found = Some((*family, pair));
        } else if other.is_none() {
            other = Some((*family, pair));
        }
    }
    match (found, other) {
        (Some((_, one)), Some((_, two))) => Err(TitleFault::OneRole {
            first: one.first,
            second: two.first,
            role: Role::Easting,
        }),
        _ => Ok(found),
    }
}

// The degrees of usual titles. Two pairs are refused.
fn usual_degrees<'a>(titles: &[&[u8]]) -> Result<Option<Pair>, TitleFault<'a>>
    ensures { IfOk result (IfPairWithin (length titles.now)) }
{
    let mut found: Option<Pair> = None;
    let mut other: Option<Pair> = None;
    for (longitude, latitude) in DEGREES.iter() {
        let pair = usual_pair(titles, longitude, latitude)?;
        if found.is_none() {
            found = pair;
        } else if other.is_none() {
            other = pair;
        }
    }
    match (found, other) {
        (Some(one), Some(two)) => Err(TitleFault::OneRole {
            first: one.first,
            second: two.first,
            role: Role::Longitude,
        }),
        _ => Ok(found),
    }
}

// The coordinates of usual titles.
fn usual_places<'a>(titles: &[&[u8]]) -> Result<Places, TitleFault<'a>>
    ensures { IfOk result (ArePlacesWithin (length titles.now)) }
{
    let metres = usual_metres(titles)?;
    let location = usual_pair(titles, LOCATION.0, LOCATION.1)?;
    if let Some((family, pair)) = metres {
        let is_utm = family == Family::Movebank;
        return Ok(Places {
            metres: Some(pair),
            degrees: if is_utm { location } else { None },
            is_utm,
            is_own: family == Family::Homerange,
            family: Some(family),
        });
    }
    let degrees = usual_degrees(titles)?;
    if degrees.is_none() {
        return Err(TitleFault::NoCoordinates);
    }
    let family = if location.is_some() {
        Some(Family::Movebank)
    } else {
        None
    };
    Ok(degrees_of(degrees, family))
}

// The coordinates that were named, or else those of usual titles.
pub(crate) fn find_places<'a>(titles: &[&[u8]], named: &Named<'a>) -> Result<Places, TitleFault<'a>>
    ensures { IfOk result (ArePlacesWithin (length titles.now)) }
{
    match named_places(titles, named)? {
        Some(places) => Ok(places),
        None => usual_places(titles),
    }
}
