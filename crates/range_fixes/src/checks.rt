// What a record says, and what is wrong with it.

ghost use Rattle.std.specs.Prelude.{◌≡◌, ◌≢◌, ◌∷◌, ◌<◌, [], length, IfSome, MatchOption, option_map};
ghost use Rattle.csv.specs.Records.{fields_of};
ghost use Rattle.range_fixes.specs.Check.{IsSplit, animal_in, checked_in, is_earlier, fix_in, number_in, used_in};
ghost use Rattle.range_fixes.specs.Previous.{IsWithin};
ghost use Rattle.range_fixes.specs.Field.{first_field, header_of, is_name, is_name_byte, names_animal, width};

use crate::previous::Previous;
use crate::read_fault::ReadFault;
use csv::ByteRecord;
use range_numbers::{VALUE_LIMIT, value_of};
use range_plane::{Fix, Point, SECOND_LIMIT, Scale};

// How many fields the header and each record have, without the column `use`.
pub(crate) const FIELD_COUNT: usize = 4;

// How many fields the header and each record have, with the column `use`.
pub(crate) const FIELD_COUNT_WITH_USE: usize = 5;

/// The most bytes of a name.
pub(crate) const NAME_LIMIT: usize = 32;

// A record that passed all checks: its fix, and whether that is used.
#[derive(Clone, Copy)]
pub(crate) struct CheckedRecord {
    pub fix: Fix,
    pub used: bool,
}

// How many fields each record has below a header that has the column `use` or not.
fn width(has_use: bool) -> usize
    ensures { result ≡ width has_use }
{
    if has_use {
        FIELD_COUNT_WITH_USE
    } else {
        FIELD_COUNT
    }
}

// The fields of a record; `used` is `None` where it has no field `use`.
#[derive(Clone, Copy)]
struct Fields<'a> {
    name: &'a [u8],
    second: &'a [u8],
    easting: &'a [u8],
    northing: &'a [u8],
    used: Option<&'a [u8]>,
}

// The fields of a record, if it has as many as the header asks.
fn fields_in(record: &ByteRecord, has_use: bool) -> Option<Fields<'_>>
    ensures { MatchOption result (length (fields_of «record».now) ≢ width has_use)
        (λ f. IsSplit has_use (fields_of «record».now) f.name.now f.second.now f.easting.now
        f.northing.now (option_map (λ u. u.now) f.used)) }
{
    if record.len() != width(has_use) {
        return None;
    }
    Some(Fields {
        name: record.get(0)?,
        second: record.get(1)?,
        easting: record.get(2)?,
        northing: record.get(3)?,
        used: record.get(4),
    })
}

// The first field of a record.
pub(crate) fn name_of(record: &ByteRecord) -> &[u8]
    ensures { result.now ≡ first_field (fields_of «record».now) }
{
    match record.get(0) {
        Some(name) => name,
        None => &[],
    }
}

// Whether a field is the header's first, which a byte order mark may come before.
fn names_animal(field: &[u8]) -> bool
    ensures { result ≡ names_animal field.now }
{
    field == b"animal".as_slice()
        || field == b"\xEF\xBB\xBFanimal".as_slice()
        || field == b"\xEF\xBB\xBF\"animal\"".as_slice()
}

// Whether a header has the column `use`; `None` where the record is no header.
pub(crate) fn header_of(record: &ByteRecord) -> Option<bool>
    ensures { result ≡ header_of (fields_of «record».now) }
{
    let has_use = record.len() == FIELD_COUNT_WITH_USE;
    let fields = fields_in(record, has_use)?;
    let is_header = names_animal(fields.name)
        && fields.second == b"second".as_slice()
        && fields.easting == b"easting".as_slice()
        && fields.northing == b"northing".as_slice()
        && (!has_use || fields.used == Some(b"use".as_slice()));
    if is_header { Some(has_use) } else { None }
}

// Whether a byte may stand in a name.
fn is_name_byte(byte: u8) -> bool
    ensures { result ≡ is_name_byte byte }
{
    byte >= 0x20 && byte != b',' && byte != b'"' && byte != 0x7F
}

// Whether a field is a name.
fn is_name(field: &[u8]) -> bool
    ensures { result ≡ is_name field.now }
{
    !field.is_empty() && field.len() <= NAME_LIMIT && field.iter().all(|byte| is_name_byte(*byte))
}

// Checks the name of a record. One that is that of the record before was checked there; the test of slices is
// quicker than a loop over their bytes.
fn check_animal(name: &[u8], rec: u32, previous: Option<&Previous>) -> Result<(), ReadFault>
    requires within { IfSome previous (λ p. IsWithin p.now) }
    ensures { result ≡ animal_in rec (option_map (λ p. p.now) previous.entry) name.now }
{
    if let Some(previous) = previous
        && previous.animal() == name
    {
        return Ok(());
    }
    if !is_name(name) {
        return Err(ReadFault::BadName { rec });
    }
    match previous {
        Some(_) => Err(ReadFault::OtherAnimal { rec }),
        None => Ok(()),
    }
}

// The number of a field, which may be as great as the limit.
fn number_in(bytes: &[u8], unit: Scale, rec: u32, field: u32, limit: u64) -> Result<u64, ReadFault>
    requires { limit < VALUE_LIMIT }
    ensures { result ≡ number_in unit rec field limit bytes.now }
{
    let Some(value) = value_of(bytes, limit) else {
        return Err(ReadFault::NotNumber { rec, field });
    };
    if value > limit {
        return Err(ReadFault::TooLarge { rec, field, unit });
    }
    Ok(value)
}

// Whether a second is less than that of the record before.
fn is_earlier(second: u64, previous: Option<&Previous>) -> bool
    ensures { result ≡ is_earlier (option_map (λ p. p.now) previous.entry) second }
{
    match previous {
        Some(previous) => second < previous.second(),
        None => false,
    }
}

// The fix of a record in this unit, which is held against the one before it.
fn fix_in(
    fields: Fields<'_>,
    unit: Scale,
    rec: u32,
    previous: Option<&Previous>,
) -> Result<Fix, ReadFault>
    requires within { IfSome previous (λ p. IsWithin p.now) }
    ensures { result ≡ fix_in unit rec (option_map (λ p. p.now) previous.entry)
        fields.entry.name.now fields.entry.second.now
        fields.entry.easting.now fields.entry.northing.now }
{
    let limit = unit.limit() as u64;
    check_animal(fields.name, rec, previous)?;
    let second = number_in(fields.second, unit, rec, 1, SECOND_LIMIT)?;
    let easting = number_in(fields.easting, unit, rec, 2, limit)?;
    let northing = number_in(fields.northing, unit, rec, 3, limit)?;
    if is_earlier(second, previous) {
        return Err(ReadFault::SecondFalls { rec });
    }
    let at = Point::new(easting as i64, northing as i64).unwrap();
    Ok(Fix { second, at })
}

// Whether a record is used, by the field that says so. One that has no such field is used.
fn used_in(field: Option<&[u8]>, rec: u32) -> Result<bool, ReadFault>
    ensures { result ≡ used_in rec (option_map (λ f. f.now) field.entry) }
{
    let Some(field) = field else {
        return Ok(true);
    };
    if field == b"1".as_slice() {
        Ok(true)
    } else if field == b"0".as_slice() {
        Ok(false)
    } else {
        Err(ReadFault::BadUse { rec })
    }
}

// What a record comes to, which is held against the one before it.
pub(crate) fn checked_in(
    record: &ByteRecord,
    unit: Scale,
    has_use: bool,
    rec: u32,
    previous: Option<&Previous>,
) -> Result<CheckedRecord, ReadFault>
    requires within { IfSome previous (λ p. IsWithin p.now) }
    ensures { result ≡ checked_in unit has_use rec (option_map (λ p. p.now) previous.entry)
        (fields_of «record».now) }
{
    let Some(fields) = fields_in(record, has_use) else {
        let found = record.len() as u64;
        let wanted = width(has_use) as u32;
        return Err(ReadFault::WrongFieldCount { rec, found, wanted });
    };
    let fix = fix_in(fields, unit, rec, previous)?;
    let used = used_in(fields.used, rec)?;
    Ok(CheckedRecord { fix, used })
}
