// All columns of a table that are read.

ghost use Rattle.std.specs.Prelude.{ℕ, ◌<◌, ◌≤◌, All, IfOk, IsTrue, OnOk, length};
ghost use Rattle.split_titles.specs.Columns.{AreMarksWithin, AreWithin, HasUsageAlone, IsWithin, has_places};

use crate::columns::{Columns, Marks};
use crate::fault::TitleFault;
use crate::lookup::{
    first_of, is_usual, named_or_usual, named_place, next_place, one_of, require, usual,
};
use crate::named::{Named, Role};
use crate::passed_over::refuse_passed_over;
use crate::places::find_places;
use crate::plain::comes_to;
use crate::said::refuse_said;
use crate::usual::{
    ALGORITHM_OUTLIER, ANIMALS, ARGOS_CLASSES, CLOCK_PARTS, COLUMN_LIMIT, DOPS, FIX_TYPES, Family,
    IMPORT_OUTLIER, MANUAL_OUTLIER, MANUAL_VALID, MOMENTS, SECOND, SENSOR, SENSOR_NUMBER, TIMES,
    USE, UTM_ZONE, VISIBLE,
};
use range_plane::OutOfMemory;
use std::alloc::Allocator;

// The columns of titles that were named.
fn named_columns<'a, A: Allocator>(
    alloc: A,
    titles: &[&[u8]],
    named: &[&'a [u8]],
    role: Role,
) -> Result<Vec<usize, A>, TitleFault<'a>>
    ensures { IfOk result (λ places. All (λ at. at < length titles.now) places.items) }
{
    let mut places = Vec::new(alloc);
    for wanted in named {
        places.push(named_place(titles, wanted, role)?)?;
    }
    Ok(places)
}

// The column at a place, if there is one.
fn listed<A: Allocator>(alloc: A, place: Option<usize>) -> Result<Vec<usize, A>, OutOfMemory>
    ensures { IfOk result (λ places. (width : ℕ) → IsWithin width place
        → All (λ at. at < width) places.items) }
{
    let mut places = Vec::new(alloc);
    if let Some(at) = place {
        places.push(at)?;
    }
    Ok(places)
}

// The column of the animal by its usual title: that of Movebank or of the coordinates' own family, or else the first. Others
// have to part the records as it does, which `other_animals` is for.
fn usual_animal<'a>(
    titles: &[&[u8]],
    family: Option<Family>,
) -> Result<Option<usize>, TitleFault<'a>>
    ensures { IfOk result (IsWithin (length titles.now)) }
{
    let of_movebank = usual(titles, Family::Movebank.animal())?;
    if of_movebank.is_some() {
        return Ok(of_movebank);
    }
    if let Some(family) = family {
        let own = usual(titles, family.animal())?;
        if own.is_some() {
            return Ok(own);
        }
    }
    first_of(titles, &ANIMALS)
}

// The columns of the animal.
fn animal_columns<'a, A: Allocator>(
    alloc: A,
    titles: &[&[u8]],
    named: &Named<'a>,
    family: Option<Family>,
) -> Result<Vec<usize, A>, TitleFault<'a>>
    ensures { IfOk result (λ places. All (λ at. at < length titles.now) places.items) }
{
    if named.animal.is_empty() {
        Ok(listed(alloc, usual_animal(titles, family)?)?)
    } else {
        named_columns(alloc, titles, named.animal, Role::Animal)
    }
}

// Whether there are columns of the hour and of the minute, beside which one of seconds has those of a minute.
fn has_clock_parts(titles: &[&[u8]]) -> bool {
    CLOCK_PARTS.iter().all(|part| next_place(titles, 0, part.as_bytes(), false).is_some())
}

// The column of the time by its usual title: that of the coordinates' own family, where it is more than a day and no
// column counts seconds, or the only one, beside which seconds may be those of a minute.
fn usual_time<'a>(titles: &[&[u8]], family: Option<Family>) -> Result<Option<usize>, TitleFault<'a>>
    ensures { IfOk result (IsWithin (length titles.now)) }
{
    if let Some(family) = family {
        let own = usual(titles, family.time())?;
        let has_seconds = next_place(titles, 0, SECOND.as_bytes(), false).is_some();
        if own.is_some() && !family.has_days() && !has_seconds {
            return Ok(own);
        }
    }
    if has_clock_parts(titles) {
        let moment = one_of(titles, &MOMENTS, Role::Time)?;
        if moment.is_some() {
            return Ok(moment);
        }
    }
    one_of(titles, &TIMES, Role::Time)
}

// Refuses seconds as the time beside a column of minutes or hours: they may be those of a minute.
fn refuse_parts<'a>(titles: &[&[u8]], time: Option<usize>) -> Result<(), TitleFault<'a>>
    requires { IsWithin (length titles.now) time }
{
    let Some(first) = time else {
        return Ok(());
    };
    if !comes_to(titles[first], SECOND.as_bytes()) {
        return Ok(());
    }
    for (second, title) in titles.iter().enumerate() {
        if is_usual(title, &CLOCK_PARTS) {
            return Err(TitleFault::OneRole {
                first,
                second,
                role: Role::Time,
            });
        }
    }
    Ok(())
}

// The columns of the time.
fn time_columns<'a, A: Allocator>(
    alloc: A,
    titles: &[&[u8]],
    named: &Named<'a>,
    family: Option<Family>,
) -> Result<Vec<usize, A>, TitleFault<'a>>
    ensures { IfOk result (λ places. All (λ at. at < length titles.now) places.items) }
{
    if named.time.is_empty() {
        let time = usual_time(titles, family)?;
        refuse_parts(titles, time)?;
        Ok(listed(alloc, time)?)
    } else {
        named_columns(alloc, titles, named.time, Role::Time)
    }
}

// Whether the time is one column that counts seconds.
fn is_second(titles: &[&[u8]], time: &[usize]) -> bool
    requires { All (λ at. at < length titles.now) time.now }
{
    match time {
        [at] => comes_to(titles[*at], SECOND.as_bytes()),
        _ => false,
    }
}

// The columns with another usual title for the animal than the one that is taken, where that was not named.
fn other_animals<A: Allocator>(
    alloc: A,
    titles: &[&[u8]],
    named: &Named,
    animal: &[usize],
) -> Result<Vec<usize, A>, OutOfMemory>
    requires { All (λ at. at < length titles.now) animal.now }
    ensures { IfOk result (λ places. All (λ at. at < length titles.now) places.items) }
{
    let mut others = Vec::new(alloc);
    let [taken] = animal else {
        return Ok(others);
    };
    if !named.animal.is_empty() {
        return Ok(others);
    }
    for (at, title) in titles.iter().enumerate() {
        if at != *taken && is_usual(title, &ANIMALS) {
            others.push(at)?;
        }
    }
    Ok(others)
}

// The columns of marks.
fn find_marks<'a>(titles: &[&[u8]]) -> Result<Marks, TitleFault<'a>>
    ensures within { IfOk result (AreMarksWithin (length titles.now)) }
    ensures usage { IfOk result HasUsageAlone }
{
    let usage = usual(titles, USE)?;
    if usage.is_some() {
        return Ok(Marks {
            usage,
            visible: None,
            manual_outlier: None,
            algorithm_outlier: None,
            import_outlier: None,
            manual_valid: None,
        });
    }
    Ok(Marks {
        usage: None,
        visible: usual(titles, VISIBLE)?,
        manual_outlier: usual(titles, MANUAL_OUTLIER)?,
        algorithm_outlier: usual(titles, ALGORITHM_OUTLIER)?,
        import_outlier: usual(titles, IMPORT_OUTLIER)?,
        manual_valid: usual(titles, MANUAL_VALID)?,
    })
}

// The column of sensors, and whether it has their numbers.
fn find_sensor<'a>(titles: &[&[u8]]) -> Result<(Option<usize>, bool), TitleFault<'a>>
    ensures { IfOk result (λ sensor. IsWithin (length titles.now) sensor.0) }
{
    let by_name = usual(titles, SENSOR)?;
    if by_name.is_some() {
        return Ok((by_name, false));
    }
    let by_number = usual(titles, SENSOR_NUMBER)?;
    Ok((by_number, by_number.is_some()))
}

// The column that an option asks for, where it is there. One that is named has to be there, also where nothing asks for it.
fn asked_for<'a>(
    is_asked: bool,
    titles: &[&[u8]],
    named: Option<&'a [u8]>,
    usuals: &[&'static str],
    role: Role,
) -> Result<Option<usize>, TitleFault<'a>>
    ensures { IfOk result (IsWithin (length titles.now)) }
{
    if is_asked {
        return named_or_usual(titles, named, usuals, role);
    }
    if let Some(wanted) = named {
        let _at = named_place(titles, wanted, role)?;
    }
    Ok(None)
}

// Refuses a name of the one animal where there is a column of the animal.
fn refuse_name<'a>(named: &Named<'a>, animal: &[usize]) -> Result<(), TitleFault<'a>> {
    match animal.first() {
        Some(at) if named.has_name => Err(TitleFault::NamedAnimal { at: *at }),
        _ => Ok(()),
    }
}

// Refuses more titles than a table may have, and those that are none, but say what stands between fields, as `sep=;` does.
fn refuse_line<'a>(titles: &[&[u8]]) -> Result<(), TitleFault<'a>>
    ensures { OnOk result (length titles.now ≤ COLUMN_LIMIT) }
{
    if titles.len() > COLUMN_LIMIT {
        return Err(TitleFault::TooManyColumns);
    }
    match titles.first() {
        Some(title) if titles.len() <= 2 && title.starts_with(b"sep=") => {
            Err(TitleFault::SeparatorLine)
        }
        _ => Ok(()),
    }
}

/// The columns of a table of these titles that are read, where these were named.
///
/// # Errors
///
/// Why the table is refused, or that memory ran out.
pub fn find_columns<'a, A: Allocator + Copy>(
    alloc: A,
    titles: &[&[u8]],
    named: &Named<'a>,
) -> Result<Columns<A>, TitleFault<'a>>
    ensures within { IfOk result (AreWithin (length titles.now)) }
    ensures places { IfOk result (λ columns. IsTrue (has_places columns)) }
    ensures usage { IfOk result (λ columns. HasUsageAlone columns.marks) }
    ensures few { IfOk result (λ _. length titles.now ≤ COLUMN_LIMIT) }
{
    refuse_line(titles)?;
    let places = find_places(titles, named)?;
    let animal = animal_columns(alloc, titles, named, places.family)?;
    refuse_name(named, &animal)?;
    let time = time_columns(alloc, titles, named, places.family)?;
    let is_second = is_second(titles, &time);
    let other_animals = other_animals(alloc, titles, named, &animal)?;
    let marks = find_marks(titles)?;
    let (sensor, is_sensor_number) = find_sensor(titles)?;
    let argos = named_or_usual(titles, named.argos, &ARGOS_CLASSES, Role::Argos)?;
    let dop = asked_for(named.has_max_dop, titles, named.dop, &DOPS, Role::Dop)?;
    let fix_type = asked_for(
        named.has_fix_type,
        titles,
        named.fix,
        &FIX_TYPES,
        Role::FixType,
    )?;
    require(named.has_max_dop, dop, TitleFault::NoDop)?;
    require(named.has_fix_type, fix_type, TitleFault::NoFixType)?;
    let zone = if places.is_utm {
        usual(titles, UTM_ZONE)?
    } else {
        None
    };
    let columns = Columns {
        animal,
        time,
        is_second,
        metres: places.metres,
        degrees: places.degrees,
        is_utm: places.is_utm,
        is_own: places.is_own,
        zone,
        marks,
        sensor,
        is_sensor_number,
        argos,
        dop,
        fix_type,
        other_animals,
    };
    refuse_passed_over(titles, named, &columns)?;
    refuse_said(titles, named, &columns)?;
    Ok(columns)
}
