// What is found in titles, in words.

use split_titles::{
    Columns, FaultKind, Marks, Named, Pair, TitleFault, fault_text, find_columns, not_read,
};
use std::alloc::{AllocError, Global};
use std::process::Abort;
use std::test::Fail;

// Nothing was named.
pub(crate) const NOTHING: Named<'static> = Named {
    animal: &[],
    time: &[],
    easting: None,
    northing: None,
    lon: None,
    lat: None,
    argos: None,
    dop: None,
    fix: None,
    zone: None,
    has_name: false,
    has_argos_class: false,
    has_max_dop: false,
    has_fix_type: false,
};

// Appends a word behind a semicolon, unless it is the first.
fn tell_word(text: &mut Vec<u8>, word: &str) -> Result<(), AllocError> {
    if !text.is_empty() {
        text.extend_from_slice(b"; ")?;
    }
    text.extend_from_slice(word.as_bytes())
}

// Appends a role with its places, if it has some.
fn tell(alloc: Global, text: &mut Vec<u8>, role: &str, places: &[usize]) -> Result<(), AllocError> {
    if places.is_empty() {
        return Ok(());
    }
    tell_word(text, role)?;
    for at in places {
        let number = format!(in alloc; " {at}")?;
        text.extend_from_slice(number.as_bytes())?;
    }
    Ok(())
}

// The same of a role with one place, or none.
fn tell_one(
    alloc: Global,
    text: &mut Vec<u8>,
    role: &str,
    place: Option<usize>,
) -> Result<(), AllocError> {
    match place {
        Some(at) => tell(alloc, text, role, &[at]),
        None => Ok(()),
    }
}

// The same of a pair.
fn tell_pair(
    alloc: Global,
    text: &mut Vec<u8>,
    role: &str,
    pair: Option<Pair>,
) -> Result<(), AllocError> {
    match pair {
        Some(pair) => tell(alloc, text, role, &[pair.first, pair.second]),
        None => Ok(()),
    }
}

// Appends a word, if it holds.
fn tell_truth(text: &mut Vec<u8>, word: &str, is_true: bool) -> Result<(), AllocError> {
    if is_true {
        tell_word(text, word)
    } else {
        Ok(())
    }
}

// Appends the columns of marks by their usual titles.
fn tell_marks(alloc: Global, text: &mut Vec<u8>, marks: &Marks) -> Result<(), AllocError> {
    tell_one(alloc, text, "use", marks.usage)?;
    tell_one(alloc, text, "visible", marks.visible)?;
    tell_one(alloc, text, "manually-marked-outlier", marks.manual_outlier)?;
    tell_one(
        alloc,
        text,
        "algorithm-marked-outlier",
        marks.algorithm_outlier,
    )?;
    tell_one(alloc, text, "import-marked-outlier", marks.import_outlier)?;
    tell_one(alloc, text, "manually-marked-valid", marks.manual_valid)
}

// What is found: each role with its places, and those that are read in none.
fn found(alloc: Global, columns: &Columns<Global>, width: usize) -> Result<Vec<u8>, Fail> {
    let mut text = Vec::new(alloc);
    tell(alloc, &mut text, "animal", &columns.animal)?;
    tell(alloc, &mut text, "time", &columns.time)?;
    tell_truth(&mut text, "second", columns.is_second)?;
    tell_pair(alloc, &mut text, "metres", columns.metres)?;
    tell_pair(alloc, &mut text, "degrees", columns.degrees)?;
    tell_truth(&mut text, "utm", columns.is_utm)?;
    tell_truth(&mut text, "own", columns.is_own)?;
    tell_one(alloc, &mut text, "zone", columns.zone)?;
    tell_marks(alloc, &mut text, &columns.marks)?;
    tell_one(alloc, &mut text, "sensor", columns.sensor)?;
    tell_truth(&mut text, "numbers", columns.is_sensor_number)?;
    tell_one(alloc, &mut text, "argos", columns.argos)?;
    tell_one(alloc, &mut text, "dop", columns.dop)?;
    tell_one(alloc, &mut text, "fix", columns.fix_type)?;
    tell(alloc, &mut text, "others", &columns.other_animals)?;
    let rest = not_read(alloc, columns, width)?;
    tell(alloc, &mut text, "unread", &rest)?;
    Ok(text)
}

// The kind of a refusal, as refusals have it.
fn kind_of(fault: TitleFault) -> &'static str {
    match fault.kind() {
        None => "",
        Some(FaultKind::Ambiguous) => "ambiguous: ",
        Some(FaultKind::Columns) => "columns: ",
        Some(FaultKind::Option) => "option: ",
    }
}

// What is found in these titles, or the kind of a refusal and its sentence.
pub(crate) fn told_of(alloc: Global, titles: &[&[u8]], named: &Named) -> Result<Vec<u8>, Fail> {
    match find_columns(alloc, titles, named) {
        Ok(columns) => found(alloc, &columns, titles.len()),
        Err(fault) => {
            let mut text = Vec::from_slice(alloc, kind_of(fault).as_bytes())?;
            let sentence = fault_text(alloc, fault, titles)?;
            text.extend_from_slice(&sentence)?;
            Ok(text)
        }
    }
}

// Checks what is told of the titles of lines, between which commas stand.
pub(crate) fn expect_told(
    rt: &impl Abort,
    alloc: Global,
    named: &Named,
    cases: &[(&str, &str)],
) -> Result<(), Fail> {
    for (line, expected) in cases {
        let titles: Vec<&[u8]> = line.as_bytes().split(|byte| *byte == b',').collect(alloc)?;
        let text = told_of(alloc, &titles, named)?;
        assert!(rt; text.as_slice() == expected.as_bytes(), "{line}");
    }
    Ok(())
}
