// A second look at the records of a table: what of it no rule of reading has, and what is said of it.

use csv::ByteRecord;
use indexmap::IndexSet;
use range_plane::{OutOfMemory, Scale};
use split_fates::metres_moved;
use split_reading::{Row, Told};
use split_table::{Table, TableFault, TableText};
use split_titles::Pair;
use split_tracks::Fate;
use std::alloc::Global;

// How many bytes of a number with a comma are read as metres: more digits than they have tell no two apart.
const NUMBER_BYTES: usize = 40;

// A fix that moves by so much of a unit moves by as much as any, in two digits: each axis moves by at most half a unit, and a fix
// so by at most 0.7072 of one.
const FULL_MOVE: f64 = 0.7051;

// The field of a record in a column; one that is not there is empty.
fn cell(fields: &ByteRecord, column: usize) -> &[u8] {
    fields.get(column).unwrap_or(b"")
}

// Whether a byte may stand before decimals.
fn is_point(byte: u8) -> bool {
    byte == b'.' || byte == b','
}

// Where the first point of a number stands, or the comma in its place.
fn point_in(number: &[u8]) -> Option<usize> {
    number.iter().position(|byte| is_point(*byte))
}

// Whether a number has no decimals, or zeros alone.
fn is_whole(text: &[u8]) -> bool {
    match point_in(text) {
        Some(point) => text
            .iter()
            .skip(point)
            .all(|byte| is_point(*byte) || *byte == b'0'),
        None => true,
    }
}

// The number of a text with a comma before its decimals.
fn number_with_comma(text: &[u8]) -> f64 {
    let mut bytes = [b'0'; NUMBER_BYTES];
    for (own, byte) in bytes.iter_mut().zip(text) {
        *own = if *byte == b',' { b'.' } else { *byte };
    }
    let number = str::from_utf8(&bytes[..text.len().min(NUMBER_BYTES)]).unwrap_or("");
    number.parse::<f64>().unwrap_or(0.0)
}

// The metres that a text writes; 0 where it writes none.
fn metres_in(text: &[u8]) -> f64 {
    if text.contains(&b',') {
        return number_with_comma(text);
    }
    let number = str::from_utf8(text).unwrap_or("");
    number.parse::<f64>().unwrap_or(0.0)
}

// What the form of a number says of the signs of its column.
#[derive(Clone, Copy, PartialEq, Eq)]
enum Form {
    // Its only sign stands before three digits, and behind no more: it may be that of thousands.
    Grouped,
    // It has at most three digits, and no sign.
    Short,
    // Its signs stand before decimals, or it has none where thousands would have one.
    Plain,
}

// The form of a number.
fn form_of(text: &[u8]) -> Form {
    let number = text.strip_prefix(b"-").unwrap_or(text);
    match point_in(number) {
        Some(point) if 1 <= point && point <= 3 && number.len() == point + 4 => Form::Grouped,
        None if number.len() <= 3 => Form::Short,
        _ => Form::Plain,
    }
}

// What the numbers of a column so far say of its signs.
#[derive(Clone, Copy)]
struct Signs {
    // The first record with a sign that may be one of thousands.
    grouped: Option<u32>,
    // Whether a number shows that signs stand before decimals.
    are_plain: bool,
}

impl Signs {
    // Those of no numbers.
    fn new() -> Signs {
        Signs {
            grouped: None,
            are_plain: false,
        }
    }

    // The signs with those of the number of a record.
    fn with(self, record: u32, text: &[u8]) -> Signs {
        match form_of(text) {
            Form::Grouped => Signs {
                grouped: self.grouped.or(Some(record)),
                are_plain: self.are_plain,
            },
            Form::Short => self,
            Form::Plain => Signs {
                grouped: self.grouped,
                are_plain: true,
            },
        }
    }

    // The first record with a sign that may be one of thousands, where all of the column may be.
    fn first(self) -> Option<u32> {
        if self.are_plain { None } else { self.grouped }
    }
}

/// What a second look at the metres of a table finds.
#[derive(Clone, Copy)]
pub struct Look {
    /// The easting and the northing, in metres, of the first fix that is taken, where not all that are taken are whole.
    pub unrounded: Option<(f64, f64)>,
    /// The first record and the column of a number whose sign may stand before thousands, where all of the column may be such.
    pub grouped: Option<(u32, usize)>,
}

// What is seen of the records so far.
#[derive(Clone, Copy)]
struct Seen {
    first: Option<(f64, f64)>,
    is_rounded: bool,
    easting: Signs,
    northing: Signs,
}

impl Seen {
    // What is seen of no record.
    fn new() -> Seen {
        Seen {
            first: None,
            is_rounded: true,
            easting: Signs::new(),
            northing: Signs::new(),
        }
    }

    // The same with the metres of a record that is taken or not.
    fn with(self, record: u32, easting: &[u8], northing: &[u8], is_taken: bool) -> Seen {
        let signs = Seen {
            easting: self.easting.with(record, easting),
            northing: self.northing.with(record, northing),
            ..self
        };
        if !is_taken {
            return signs;
        }
        Seen {
            first: self
                .first
                .or(Some((metres_in(easting), metres_in(northing)))),
            is_rounded: self.is_rounded && is_whole(easting) && is_whole(northing),
            ..signs
        }
    }

    // Whether no record can change what is found.
    fn is_whole_look(self) -> bool {
        !self.is_rounded && self.easting.are_plain && self.northing.are_plain
    }

    // What is found.
    fn look(self, metres: Pair) -> Look {
        let grouped = match (self.easting.first(), self.northing.first()) {
            (Some(record), _) => Some((record, metres.first)),
            (None, Some(record)) => Some((record, metres.second)),
            (None, None) => None,
        };
        Look {
            unrounded: if self.is_rounded { None } else { self.first },
            grouped,
        }
    }
}

// What is seen with the next record of a table, which says this and has this number.
fn with_next(
    table: &mut Table<'_>,
    metres: Pair,
    seen: Seen,
    record: u32,
    row: &Row,
) -> Result<Seen, TableFault> {
    if !table.advance()? {
        return Ok(seen);
    }
    match row.told {
        Told::Fix(fix) if fix.metres.is_some() => {
            let fields = table.current();
            let easting = cell(fields, metres.first);
            let northing = cell(fields, metres.second);
            Ok(seen.with(record, easting, northing, fix.is_taken()))
        }
        _ => Ok(seen),
    }
}

/// Looks at the metres of a text whose records say this by the rules.
///
/// # Errors
///
/// Memory ran out.
pub fn look_at_metres(
    alloc: Global,
    text: &TableText<'_>,
    metres: Pair,
    rows: &[Row],
) -> Result<Look, TableFault> {
    let mut seen = Seen::new();
    let mut table = text.table(alloc)?;
    for (index, row) in rows.iter().enumerate() {
        let record = u32::try_from(index).unwrap_or(u32::MAX).saturating_add(1);
        seen = with_next(&mut table, metres, seen, record, row)?;
        if seen.is_whole_look() {
            return Ok(seen.look(metres));
        }
    }
    Ok(seen.look(metres))
}

// How far a record moves that becomes this.
fn moved_record(fields: &ByteRecord, metres: Pair, unit: Scale, fate: &Fate) -> f64 {
    match *fate {
        Fate::InTrack { entry, .. } => {
            let east = metres_in(cell(fields, metres.first));
            let north = metres_in(cell(fields, metres.second));
            metres_moved((entry.easting, entry.northing), (east, north), unit)
        }
        Fate::LeftOut { .. } => 0.0,
    }
}

// From how many metres on no fix moves by more, in two digits.
fn full_move(unit: Scale) -> f64 {
    match unit {
        Scale::Metre => FULL_MOVE,
        Scale::Decimetre => FULL_MOVE / 10.0,
    }
}

/// By how many metres rounding to whole units moves a fix at most, in two digits, of a text whose records become this.
///
/// # Errors
///
/// Memory ran out.
pub fn most_moved(
    alloc: Global,
    text: &TableText<'_>,
    metres: Pair,
    unit: Scale,
    fates: &[Fate],
) -> Result<f64, TableFault> {
    let mut most = 0.0;
    let mut table = text.table(alloc)?;
    for fate in fates {
        if most >= full_move(unit) || !table.advance()? {
            return Ok(most);
        }
        let own = moved_record(table.current(), metres, unit, fate);
        if own > most {
            most = own;
        }
    }
    Ok(most)
}

// Which words of two columns stand side by side.
#[derive(Drop)]
struct Sides {
    ones: IndexSet<Vec<u8>>,
    others: IndexSet<Vec<u8>>,
    pairs: IndexSet<(usize, usize)>,
}

// The number of a word among others, to which it is added.
fn number_of(
    alloc: Global,
    words: &mut IndexSet<Vec<u8>>,
    word: &[u8],
) -> Result<usize, OutOfMemory> {
    let own = Vec::from_slice(alloc, word)?;
    let (number, _) = words.insert_full(own)?;
    Ok(number)
}

impl Sides {
    // Adds the words of a record.
    fn add(&mut self, alloc: Global, one: &[u8], other: &[u8]) -> Result<(), OutOfMemory> {
        let one = number_of(alloc, &mut self.ones, one)?;
        let other = number_of(alloc, &mut self.others, other)?;
        self.pairs.insert((one, other))?;
        Ok(())
    }

    // Whether each word stands beside one and the same.
    fn are_alike(&self) -> bool {
        self.pairs.len() == self.ones.len() && self.pairs.len() == self.others.len()
    }
}

// Adds the words of the next record of a table, where there is one.
fn add_next(
    alloc: Global,
    table: &mut Table<'_>,
    sides: &mut Sides,
    first: usize,
    second: usize,
) -> Result<(), TableFault> {
    if !table.advance()? {
        return Ok(());
    }
    let fields = table.current();
    match sides.add(alloc, cell(fields, first), cell(fields, second)) {
        Ok(()) => Ok(()),
        Err(_) => Err(TableFault::OutOfMemory),
    }
}

/// Whether two columns of a text part its first records, so many, alike: where the one has a word, the other has one and the
/// same.
///
/// # Errors
///
/// Memory ran out.
pub fn part_alike(
    alloc: Global,
    text: &TableText<'_>,
    count: usize,
    first: usize,
    second: usize,
) -> Result<bool, TableFault> {
    let mut table = text.table(alloc)?;
    let mut sides = Sides {
        ones: IndexSet::new(alloc),
        others: IndexSet::new(alloc),
        pairs: IndexSet::new(alloc),
    };
    for _record in 0..count {
        add_next(alloc, &mut table, &mut sides, first, second)?;
    }
    Ok(sides.are_alike())
}

/// The fields of a record of a text, counted from 1; none where it has no such record.
///
/// # Errors
///
/// Memory ran out.
pub fn fields_of_record(
    alloc: Global,
    text: &[u8],
    record: u32,
) -> Result<Vec<Vec<u8>>, TableFault> {
    let mut table = Table::new(alloc, text)?;
    for _passed in 0..record {
        if !table.advance()? {
            return Ok(Vec::new(alloc));
        }
    }
    crate::export::fields_of(alloc, table.current())
}
