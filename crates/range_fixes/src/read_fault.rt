// Why a file cannot be read to its end.

ghost use Rattle.std.specs.Prelude.{◌≡◌, ◌++◌, Some, codes};
ghost use Rattle.std.specs.Fmt.{WritesOnOk};
ghost use Rattle.range_fixes.specs.FaultText.{count_text, fault_text, field_name, fields_word, limit_text, record_text, record_of, wrong_text};

use crate::checks::NAME_LIMIT;
use range_plane::{FIX_LIMIT, SECOND_LIMIT, Scale};
use std::error::Error;
use std::fmt;

/// Why a file cannot be read on. `rec` is the number of the record, the first after the header being
/// 1, and `field` that of the field, the animal being 0.
#[derive(Clone, Copy, PartialEq, Eq, Debug)]
pub enum ReadFault {
    /// An allocation failed.
    OutOfMemory,
    /// A read of the source failed.
    Read,
    /// The source has no record.
    NoHeader,
    /// The first record is not the header.
    BadHeader,
    /// The record has `found` fields, and not the `wanted` ones of the header.
    WrongFieldCount { rec: u32, found: u64, wanted: u32 },
    /// The record's first field is not a name.
    BadName { rec: u32 },
    /// The record's name is not that of the first record.
    OtherAnimal { rec: u32 },
    /// The field is not a number.
    NotNumber { rec: u32, field: u32 },
    /// The field is a number past its limit, which for eastings and northings is that of the unit.
    TooLarge { rec: u32, field: u32, unit: Scale },
    /// The record's second is less than that of the record before.
    SecondFalls { rec: u32 },
    /// There is a record after as many as a file may have.
    TooManyFixes,
    /// There is no record after the header that is used.
    NoFixes,
    /// The fixes could not be handed on. No reader answers this.
    Gone,
    /// The record's fifth field is neither `0` nor `1`.
    BadUse { rec: u32 },
}

// What a field is called.
fn field_name(field: u32) -> &'static str
    ensures { result.now ≡ field_name field }
{
    match field {
        0 => "animal",
        1 => "second",
        2 => "easting",
        _ => "northing",
    }
}

impl ReadFault {
    // The number of the record that is at fault, if one is.
    fn record(self) -> Option<u32>
        ensures { result ≡ record_of self }
    {
        match self {
            ReadFault::WrongFieldCount { rec, .. }
            | ReadFault::BadName { rec }
            | ReadFault::OtherAnimal { rec }
            | ReadFault::NotNumber { rec, .. }
            | ReadFault::TooLarge { rec, .. }
            | ReadFault::SecondFalls { rec }
            | ReadFault::BadUse { rec } => Some(rec),
            ReadFault::OutOfMemory
            | ReadFault::Read
            | ReadFault::NoHeader
            | ReadFault::BadHeader
            | ReadFault::TooManyFixes
            | ReadFault::NoFixes
            | ReadFault::Gone => None,
        }
    }
}

// The record that is at fault, with which a text begins, if one is.
#[derive(Clone, Copy)]
struct FaultyRecord(Option<u32>);

impl fmt::Display for FaultyRecord {
    ghost output = { λ faulty. Some (record_text faulty.0) };

    fn fmt<W: fmt::Write>(&self, f: &mut fmt::Formatter<W>) -> fmt::Result {
        match self.0 {
            Some(rec) => write!(f, "record {rec}: "),
            None => Ok(()),
        }
    }
}

// The word for so many fields.
fn fields_word(count: u64) -> &'static str
    ensures { result.now ≡ fields_word count }
{
    if count == 1 { "field" } else { "fields" }
}

// How many fields there are, and how many are wanted.
fn write_count<W: fmt::Write>(f: &mut fmt::Formatter<W>, found: u64, wanted: u32) -> fmt::Result
    ensures { WritesOnOk W.write_str_gives f.old result (count_text found wanted) f.new }
{
    let fields = fields_word(found);
    write!(f, "{found} {fields} where {wanted} are wanted")
}

// Which field is no number.
fn write_no_number<W: fmt::Write>(f: &mut fmt::Formatter<W>, field: u32) -> fmt::Result
    ensures { WritesOnOk W.write_str_gives f.old result
        (field_name field ++ codes " is not a whole number: no point, sign, space or exponent")
        f.new }
{
    let name = field_name(field);
    write!(
        f,
        "{name} is not a whole number: no point, sign, space or exponent"
    )
}

// Which limit the number of a field is past.
fn write_limit<W: fmt::Write>(f: &mut fmt::Formatter<W>, field: u32, unit: Scale) -> fmt::Result
    ensures { WritesOnOk W.write_str_gives f.old result (limit_text field unit) f.new }
{
    let name = field_name(field);
    if field == 1 {
        return write!(f, "{name} is past its limit of {SECOND_LIMIT}");
    }
    let limit = unit.limit();
    write!(f, "{name} is past its limit of {limit} {unit}")
}

// What is wrong, without the record.
#[derive(Clone, Copy)]
struct Wrong(ReadFault);

impl fmt::Display for Wrong {
    ghost output = { λ wrong. Some (wrong_text wrong.0) };

    fn fmt<W: fmt::Write>(&self, f: &mut fmt::Formatter<W>) -> fmt::Result {
        match self.0 {
            ReadFault::OutOfMemory => write!(f, "out of memory"),
            ReadFault::Read => write!(f, "a read failed"),
            ReadFault::NoHeader => write!(
                f,
                "empty where animal,second,easting,northing is wanted"
            ),
            ReadFault::BadHeader => write!(
                f,
                "the first line is not animal,second,easting,northing (commas, small letters, this order; plain UTF-8 text), nor that with ,use behind it"
            ),
            ReadFault::WrongFieldCount { found, wanted, .. } => write_count(f, found, wanted),
            ReadFault::BadName { .. } => write!(
                f,
                "animal is not a name of 1 to {NAME_LIMIT} bytes with no comma, double quote or control character"
            ),
            ReadFault::OtherAnimal { .. } => write!(f, "animal is another than in record 1"),
            ReadFault::NotNumber { field, .. } => write_no_number(f, field),
            ReadFault::TooLarge { field, unit, .. } => write_limit(f, field, unit),
            ReadFault::SecondFalls { .. } => write!(
                f,
                "second is less than in the record before: sort the file by time"
            ),
            ReadFault::TooManyFixes => write!(f, "more than {FIX_LIMIT} records after the header"),
            ReadFault::NoFixes => write!(f, "no record after the header, or none that is used"),
            ReadFault::Gone => write!(f, "the fixes could not be handed on"),
            ReadFault::BadUse { .. } => write!(f, "use is neither 0 nor 1"),
        }
    }
}

impl fmt::Display for ReadFault {
    ghost output = { λ fault. Some (fault_text fault) };

    fn fmt<W: fmt::Write>(&self, f: &mut fmt::Formatter<W>) -> fmt::Result {
        write!(f, "{}{}", FaultyRecord(self.record()), Wrong(*self))
    }
}

impl Error for ReadFault {}
