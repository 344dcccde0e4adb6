// Words that say of a folder what its files say.

use crate::fault::{PageFault, refused};
use crate::given::{Given, Words};
use page_ground::{is_of_zone, push_system};
use page_record::{Record, system_of};
use std::alloc::{AllocError, Global};

// The reference system that a record names, as it is written; none where it names none.
fn system_in(alloc: Global, record: &Record) -> Result<Option<Vec<u8>>, AllocError> {
    let named = system_of(record);
    if record.zone.is_none() && named.is_none() {
        return Ok(None);
    }
    let mut text = Vec::new(alloc);
    push_system(&mut text, record.zone, named)?;
    Ok(Some(text))
}

// Refuses another reference system than that of the record.
fn check_system(alloc: Global, words: &Words, record: &Record) -> Result<(), PageFault> {
    let (Some(system), Some(own)) = (words.system, system_in(alloc, record)?) else {
        return Ok(());
    };
    if system == own.as_slice() {
        return Ok(());
    }
    let system = str::from_utf8(system).unwrap_or("");
    let own = str::from_utf8(&own).unwrap_or("");
    Err(refused(format!(in alloc;
        "--system is '{system}', and tracks/split.txt says {own}: leave it out"
    )))
}

// Refuses a shift beside that of the record.
fn check_shift(alloc: Global, words: &Words) -> Result<(), PageFault> {
    if words.shift == (0, 0) {
        return Ok(());
    }
    Err(refused(String::from_str(
        alloc,
        "--shift: tracks/split.txt says by how much coordinates are shifted: leave it out",
    )))
}

/// Whether coordinates are of a UTM zone: of the one that was named, or else of that of the record.
pub(crate) fn are_of_zone(
    alloc: Global,
    words: &Words,
    record: Option<&Record>,
) -> Result<bool, AllocError> {
    match words.system {
        Some(system) => is_of_zone(alloc, system),
        None => Ok(record.is_some_and(|record| record.zone.is_some())),
    }
}

// Refuses differences of areas that are computed, and a name of a boundary that is not there.
fn check_unused(
    alloc: Global,
    given: &Given,
    words: &Words,
    record: Option<&Record>,
) -> Result<(), PageFault> {
    if words.differences.is_some() && are_of_zone(alloc, words, record)? {
        return Err(refused(String::from_str(
            alloc,
            "--area-difference: that of a zone of UTM is computed: leave it out",
        )));
    }
    if words.page.boundary.is_some() && given.boundary.is_none() {
        return Err(refused(String::from_str(
            alloc,
            "--boundary-name: the folder has no boundary.csv: put it there, or leave the name out",
        )));
    }
    Ok(())
}

/// Refuses words that say otherwise, or once more, what the files of a folder say, and such as nothing is made of.
///
/// # Errors
///
/// There are such words, or memory ran out.
pub(crate) fn check_words(
    alloc: Global,
    given: &Given,
    words: &Words,
    record: Option<&Record>,
) -> Result<(), PageFault> {
    if let Some(record) = record {
        check_system(alloc, words, record)?;
        check_shift(alloc, words)?;
    }
    check_unused(alloc, given, words, record)
}
