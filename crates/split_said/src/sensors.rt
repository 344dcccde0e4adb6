// The sensors of fixes that are used.

use crate::left::{LeftCounts, tell_left};
use crate::ranked::{Ranked, push_ranked, rank, word_or_none};
use crate::said::Said;
use crate::sheet::Sheet;
use crate::stop::{Stop, refused};
use crate::words::{push, push_option};
use range_plane::OutOfMemory;
use split_filters::ARGOS;
use split_reading::{Ledger, Row, Told, ToldFix};
use split_refusal::Kind;
use split_titles::comes_to;
use split_tracks::Reason;
use std::alloc::{AllocError, Global};

const GPS: &[u8] = b"gps";

// Which fixes are counted.
#[derive(Clone, Copy)]
enum Counted {
    All,
    Used,
    // Those that are used, of sensors that are wanted.
    Wanted,
}

// Whether a fix is counted.
fn is_counted(counted: Counted, fix: ToldFix) -> bool {
    match counted {
        Counted::All => true,
        Counted::Used => fix.is_used,
        Counted::Wanted => fix.is_used && fix.is_of_sensor,
    }
}

// Whether a row has a fix that is counted.
fn is_counted_row(counted: Counted, row: &Row) -> bool {
    match row.told {
        Told::Fix(fix) => is_counted(counted, fix),
        Told::LeftOut(_) => false,
    }
}

// How many of some fixes each sensor of a ledger has.
fn counts_of(alloc: Global, ledger: &Ledger, counted: Counted) -> Result<Vec<usize>, OutOfMemory> {
    let mut counts = vec![in alloc; 0usize; ledger.sensors.len()]?;
    for row in ledger.rows.iter() {
        if is_counted_row(counted, row) {
            if let Some(count) = counts.get_mut(row.sensor as usize) {
                *count = count.saturating_add(1);
            }
        }
    }
    Ok(counts)
}

// The sensors with these counts, but for those of no fix, the most frequent first.
fn ranked_sensors(
    alloc: Global,
    ledger: &Ledger,
    counts: &[usize],
) -> Result<Vec<Ranked>, OutOfMemory> {
    let mut sensors = Vec::new(alloc);
    for (name, count) in ledger.sensors.iter().zip(counts) {
        if *count > 0 {
            sensors.push(Ranked::new(Vec::from_slice(alloc, name)?, *count))?;
        }
    }
    rank(&mut sensors)?;
    Ok(sensors)
}

// That fixes are of several sensors.
fn several_text(alloc: Global, sensors: &[Ranked], first: &[u8]) -> Result<Vec<u8>, AllocError> {
    let mut text = Vec::new(alloc);
    push(&mut text, "fixes are of several sensors (")?;
    push_ranked(&mut text, sensors)?;
    push(&mut text, "): name those to take, such as ")?;
    push_option(&mut text, "--sensor", word_or_none(first))?;
    Ok(text)
}

// That fixes are of Argos.
fn argos_text(alloc: Global) -> Result<Vec<u8>, AllocError> {
    let mut text = Vec::new(alloc);
    push(
        &mut text,
        "fixes are of Argos, most of whose classes are off by kilometres: name the classes to take, such as \
         --argos-class 3,2,1 (none is a fix without a class)",
    )?;
    Ok(text)
}

// Says of which sensor all fixes are, where it is not the usual one.
fn tell_sensor(alloc: Global, said: &mut Said, sensors: &[Ranked]) -> Result<(), OutOfMemory> {
    let [only] = sensors else {
        return Ok(());
    };
    if only.word.is_empty() || only.word.as_slice() == GPS {
        return Ok(());
    }
    let mut text = Vec::new(alloc);
    push(&mut text, "all fixes are of the sensor ")?;
    text.extend_from_slice(&only.word)?;
    said.say(alloc, &text)
}

// Whether some fix is of this sensor.
fn has_sensor(ledger: &Ledger, counts: &[usize], sensor: &[u8]) -> bool {
    ledger
        .sensors
        .iter()
        .zip(counts)
        .any(|(own, count)| *count > 0 && comes_to(own, sensor))
}

// That no fix is of this sensor, and of which they are, where a column has them.
fn absent_text(
    alloc: Global,
    sensor: &[u8],
    column: Option<usize>,
    sensors: &[Ranked],
) -> Result<Vec<u8>, AllocError> {
    let mut text = Vec::new(alloc);
    push(&mut text, "--sensor: no fix is of ")?;
    text.extend_from_slice(word_or_none(sensor))?;
    if column.is_none() {
        push(
            &mut text,
            ": no column has a usual title for the sensor: name it sensor-type, or leave --sensor out",
        )?;
    } else if !sensors.is_empty() {
        push(&mut text, ": they are of ")?;
        push_ranked(&mut text, sensors)?;
    }
    Ok(text)
}

// Refuses a sensor that is wanted and of which no fix is: the first by name.
fn check_wanted(alloc: Global, sheet: &Sheet<'_>, ledger: &Ledger) -> Result<(), Stop> {
    let counts = counts_of(alloc, ledger, Counted::All)?;
    let mut absent: Vec<&[u8]> = Vec::new(alloc);
    for sensor in sheet.filters.sensors {
        if !has_sensor(ledger, &counts, sensor) {
            absent.push(*sensor)?;
        }
    }
    match absent.iter().min() {
        Some(first) => {
            let sensors = ranked_sensors(alloc, ledger, &counts)?;
            let text = absent_text(alloc, first, sheet.columns.sensor, &sensors);
            Err(refused(alloc, Kind::Sensor, None, text))
        }
        None => Ok(()),
    }
}

// Refuses fixes that are used and of several sensors, none of which was named.
fn check_one(alloc: Global, ledger: &Ledger) -> Result<(), Stop> {
    let sensors = ranked_sensors(alloc, ledger, &counts_of(alloc, ledger, Counted::Used)?)?;
    match sensors.first() {
        Some(first) if sensors.len() > 1 => {
            let text = several_text(alloc, &sensors, &first.word);
            Err(refused(alloc, Kind::Sensor, None, text))
        }
        _ => Ok(()),
    }
}

// Refuses several sensors of which none was named, and a named one of which no fix is; says how many records are of others, and
// of which sensor all fixes are.
pub(crate) fn check_sensors(
    alloc: Global,
    said: &mut Said,
    sheet: &Sheet<'_>,
    ledger: &Ledger,
    left: &LeftCounts,
) -> Result<(), Stop> {
    if sheet.filters.sensors.is_empty() {
        // A table without a column of sensors has one, without a name.
        if sheet.columns.sensor.is_none() {
            return Ok(());
        }
        check_one(alloc, ledger)?;
    } else {
        check_wanted(alloc, sheet, ledger)?;
        said.say_counted(
            alloc,
            left.count(Reason::Sensor),
            b"records of other sensors: left out",
        )?;
    }
    let sensors = ranked_sensors(alloc, ledger, &counts_of(alloc, ledger, Counted::Wanted)?)?;
    tell_sensor(alloc, said, &sensors)?;
    Ok(())
}

// The number of the sensor of Argos in a ledger.
fn argos_in(ledger: &Ledger) -> Option<usize> {
    ledger
        .sensors
        .iter()
        .position(|sensor| sensor.as_slice() == ARGOS)
}

// Whether a row is of Argos, whose sensor has this number: its fix is used, and has a class of Argos or is of its sensor.
fn is_of_argos(argos: Option<usize>, row: &Row) -> bool {
    let Told::Fix(fix) = row.told else {
        return false;
    };
    is_counted(Counted::Wanted, fix) && (fix.has_class || argos == Some(row.sensor as usize))
}

// Refuses fixes of Argos whose classes were not named, and else says how many are of others.
pub(crate) fn check_classes(
    alloc: Global,
    said: &mut Said,
    sheet: &Sheet<'_>,
    ledger: &Ledger,
    left: &LeftCounts,
) -> Result<(), Stop> {
    if sheet.filters.classes.is_empty() {
        let argos = argos_in(ledger);
        if ledger.rows.iter().any(|row| is_of_argos(argos, row)) {
            return Err(refused(alloc, Kind::Argos, None, argos_text(alloc)));
        }
        return Ok(());
    }
    let mut text = Vec::new(alloc);
    push(&mut text, "fixes are of other Argos classes than ")?;
    text.extend_from_slice(sheet.wanted.classes)?;
    tell_left(alloc, said, left, Reason::Class, text)?;
    Ok(())
}
