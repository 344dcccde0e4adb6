// What a record says, beside the names of its animal and its sensor.

ghost use Rattle.std.specs.Prelude.{◌≡◌, ◌<◌, IfOk, option_map};
ghost use Rattle.csv.specs.Records.{fields_of};
ghost use Rattle.split_reading.specs.Moments.{time_text};
ghost use Rattle.split_reading.specs.Told.{IsTimely, class_in, dop_in, first_filled, fix_at, fix_in, is_taken, name_in, named_fix_in, reason_in, sensor_in, told_at, told_in};

use crate::cells::{cell, trillionths_in, word_in};
use crate::fault::CellFault;
use crate::marks::is_used_in;
use crate::moment::{When, moment_in};
use crate::place::{Place, Position, place_in};
use crate::rules::Rules;
use crate::zone::{Zone, zone_in, zone_or_at};
use csv::ByteRecord;
use split_clock::ClockMoment;
use split_filters::{class_name, is_known_class, is_of_sensor, left_for, sensor_name};
use split_times::Moment;
use split_tracks::Reason;

/// A fix that a record tells of.
#[derive(Clone, Copy, PartialEq, Eq, Debug)]
pub struct ToldFix {
    pub moment: Moment,
    /// Whether its time does not say how far its clock is ahead of UTC, and so is by the clock that was asked for.
    pub is_local: bool,
    /// Whether the clock showed its time twice.
    pub is_twice: bool,
    /// Easting and northing in whole units; none where the record has longitude and latitude alone.
    pub metres: Option<(i64, i64)>,
    /// Longitude and latitude in whole trillionths of a degree.
    pub degrees: Option<(i64, i64)>,
    /// The zone that the record names, or else that of its longitude.
    pub zone: Option<Zone>,
    /// Whether its marks have it as used.
    pub is_used: bool,
    /// Whether it is of a sensor that is wanted.
    pub is_of_sensor: bool,
    /// Whether it has a class of Argos.
    pub has_class: bool,
    /// The first reason for which filters leave it out, if they do.
    pub left_for: Option<Reason>,
}

impl ToldFix {
    /// Whether it is used, and no filter leaves it out.
    pub fn is_taken(&self) -> bool
        ensures { result ≡ is_taken self.now }
    {
        self.is_used && self.is_of_sensor && self.left_for.is_none()
    }
}

/// What a record says.
#[derive(Clone, Copy, PartialEq, Eq, Debug)]
pub enum Told {
    LeftOut(Reason),
    Fix(ToldFix),
}

// The first of some columns that is not empty in a record; empty where all are.
fn first_filled<'a>(fields: &'a ByteRecord, columns: &[usize], rules: &Rules<'_, '_>) -> &'a [u8]
    ensures { result.now ≡ first_filled rules.now columns.now (fields_of «fields».entry.now) }
{
    let Some((column, others)) = columns.split_first() else {
        return b"";
    };
    let text = cell(fields, *column, rules);
    if text.is_empty() {
        first_filled(fields, others, rules)
    } else {
        text
    }
}

// The name of the animal; none where the record has none.
pub(crate) fn name_in<'a>(fields: &'a ByteRecord, rules: &Rules<'a, '_>) -> Option<&'a [u8]>
    ensures { option_map (λ name. name.now) result ≡ name_in rules.now rules.now.animal.now (fields_of «fields».entry.now) }
{
    if rules.animal.is_empty() {
        return Some(rules.name);
    }
    let name = first_filled(fields, rules.animal, rules);
    if name.is_empty() { None } else { Some(name) }
}

// The sensor of a record; empty where it names none.
pub(crate) fn sensor_in<'a>(fields: &'a ByteRecord, rules: &Rules<'_, '_>) -> &'a [u8]
    ensures { result.now ≡ sensor_in rules.now (fields_of «fields».entry.now) }
{
    sensor_name(word_in(fields, rules.sensor, rules))
}

// The class of Argos of a record, which is one even if it is a word for what is missing; empty where it names none.
fn class_in<'a>(fields: &'a ByteRecord, rules: &Rules<'_, '_>) -> &'a [u8]
    ensures { result.now ≡ class_in rules.now rules.now.class (fields_of «fields».entry.now) }
{
    let Some(column) = rules.class else {
        return b"";
    };
    let text = fields.get(column).unwrap_or(b"");
    if is_known_class(text) {
        class_name(text)
    } else {
        class_name(word_in(fields, rules.class, rules))
    }
}

// The dilution of precision of a record, in trillionths.
fn dop_in(fields: &ByteRecord, rules: &Rules<'_, '_>) -> Result<Option<i64>, CellFault>
    ensures { result ≡ dop_in rules.now rules.now.dop (fields_of «fields».now) }
{
    match rules.dop {
        Some(column) => trillionths_in(cell(fields, column, rules), column, rules),
        None => Ok(None),
    }
}

// The first reason for which filters leave out the fix of a record of this second, if they do.
fn reason_in(
    fields: &ByteRecord,
    rules: &Rules<'_, '_>,
    second: u64,
) -> Result<Option<Reason>, CellFault>
    ensures { result ≡ reason_in rules.now second (fields_of «fields».now) }
{
    let dop = dop_in(fields, rules)?;
    let class = class_in(fields, rules);
    let fix_type = word_in(fields, rules.fix_type, rules);
    Ok(left_for(&rules.filters, class, dop, fix_type, second))
}

// The fix of a record at a position, of which these things are known.
fn fix_at(
    fields: &ByteRecord,
    rules: &Rules<'_, '_>,
    at: Position,
    is_used: bool,
    time: ClockMoment,
    zone: Option<Zone>,
    left_for: Option<Reason>,
) -> ToldFix
    ensures { result ≡ fix_at rules.now at is_used time zone left_for (fields_of «fields».now) }
{
    ToldFix {
        moment: time.moment,
        is_local: time.is_local,
        is_twice: time.is_twice,
        metres: at.metres,
        degrees: at.degrees,
        zone: zone_or_at(zone, at.degrees),
        is_used,
        is_of_sensor: is_of_sensor(&rules.filters, sensor_in(fields, rules)),
        has_class: !class_in(fields, rules).is_empty(),
        left_for,
    }
}

// The fix of a record at a position.
fn fix_in(
    fields: &ByteRecord,
    when: When<'_>,
    rules: &Rules<'_, '_>,
    at: Position,
) -> Result<Told, CellFault>
    requires number { 0 < when.number }
    requires text { when.text.now ≡ time_text rules.now (fields_of «fields».now) }
    ensures value { result ≡ fix_in rules.now when.entry.number when.entry.before at (fields_of «fields».now) }
    ensures timely { IfOk result IsTimely }
{
    let is_used = is_used_in(fields, rules)?;
    let time = moment_in(fields, when, rules)?;
    let zone = zone_in(fields, rules)?;
    let reason = reason_in(fields, rules, time.moment.second)?;
    Ok(Told::Fix(fix_at(fields, rules, at, is_used, time, zone, reason)))
}

// The same, where the record names an animal; else it is left out, or that is a fault.
fn named_fix_in(
    fields: &ByteRecord,
    when: When<'_>,
    rules: &Rules<'_, '_>,
    at: Position,
) -> Result<Told, CellFault>
    requires number { 0 < when.number }
    requires text { when.text.now ≡ time_text rules.now (fields_of «fields».now) }
    ensures value { result ≡ named_fix_in rules.now when.entry.number when.entry.before at (fields_of «fields».now) }
    ensures timely { IfOk result IsTimely }
{
    if name_in(fields, rules).is_some() {
        fix_in(fields, when, rules, at)
    } else if rules.skips_unnamed {
        Ok(Told::LeftOut(Reason::Animal))
    } else {
        Err(CellFault::NoAnimal)
    }
}

// What a record says that is at a place.
fn told_at(
    fields: &ByteRecord,
    when: When<'_>,
    rules: &Rules<'_, '_>,
    place: Place,
) -> Result<Told, CellFault>
    requires number { 0 < when.number }
    requires text { when.text.now ≡ time_text rules.now (fields_of «fields».now) }
    ensures value { result ≡ told_at rules.now when.entry.number when.entry.before (fields_of «fields».now) place }
    ensures timely { IfOk result IsTimely }
{
    match place {
        Place::Missing => Ok(Told::LeftOut(Reason::Coordinates)),
        Place::Zero => Ok(Told::LeftOut(Reason::Zero)),
        Place::At(at) => named_fix_in(fields, when, rules, at),
    }
}

// What a record says.
pub(crate) fn told_in(
    fields: &ByteRecord,
    when: When<'_>,
    rules: &Rules<'_, '_>,
) -> Result<Told, CellFault>
    requires number { 0 < when.number }
    requires text { when.text.now ≡ time_text rules.now (fields_of «fields».now) }
    ensures value { result ≡ told_in rules.now when.entry.number when.entry.before (fields_of «fields».now) }
    ensures timely { IfOk result IsTimely }
{
    let count = fields.len();
    if count != rules.width {
        return Err(CellFault::FieldCount { count });
    }
    told_at(fields, when, rules, place_in(fields, rules)?)
}
