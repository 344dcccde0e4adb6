// Several exports as one table.

use crate::text::{Text, table_in, text_of};
use range_plane::OutOfMemory;
use split_export::{text_fault, titles_of};
use split_join::{JoinFault, Joined, join, place_of};
use split_refusal::{Kind, Refusal, refused_table, refused_text};
use split_words::Words;
use std::alloc::{AllocError, Global};

// The path of an export.
fn path_at<'a>(paths: &[&'a str], export: usize) -> &'a str {
    match paths.get(export) {
        Some(path) => path,
        None => "",
    }
}

// A refusal of this export.
fn of_export(alloc: Global, mut refusal: Refusal, path: &str) -> Refusal {
    match Vec::from_slice(alloc, path.as_bytes()) {
        Ok(path) => {
            refusal.export = Some(path);
            refusal
        }
        Err(_) => Refusal::out_of_memory(alloc),
    }
}

// The refusal of an export for these words.
fn refused(alloc: Global, kind: Kind, path: &str, words: Result<String, AllocError>) -> Refusal {
    match words {
        Ok(words) => of_export(
            alloc,
            Refusal::new(alloc, kind, None, words.as_bytes()),
            path,
        ),
        Err(_) => Refusal::out_of_memory(alloc),
    }
}

// The first title of an export that the other has not in its place, and what that has there.
fn other_titles(
    alloc: Global,
    first: &[u8],
    other: &[u8],
) -> Result<(String, String), OutOfMemory> {
    let (Ok(first), Ok(other)) = (titles_of(alloc, first), titles_of(alloc, other)) else {
        return Err(OutOfMemory);
    };
    let same = first
        .iter()
        .zip(other.iter())
        .take_while(|(one, other)| one.as_slice() == other.as_slice())
        .count();
    Ok((
        title_text(alloc, &first, same)?,
        title_text(alloc, &other, same)?,
    ))
}

// A title in quotes, or that there is none.
fn title_text(alloc: Global, titles: &[Vec<u8>], place: usize) -> Result<String, OutOfMemory> {
    let text = match titles.get(place) {
        Some(title) => {
            let title = str::from_utf8(title).unwrap_or("");
            format!(in alloc; "'{title}'")?
        }
        None => String::from_str(alloc, "no title")?,
    };
    Ok(text)
}

// The refusal of an export whose titles are not those of the first.
fn titles_refusal(alloc: Global, paths: &[&str], tables: &[&[u8]], export: usize) -> Refusal {
    let (Some(first), Some(other)) = (tables.first(), tables.get(export)) else {
        return Refusal::out_of_memory(alloc);
    };
    let Ok((wanted, found)) = other_titles(alloc, first, other) else {
        return Refusal::out_of_memory(alloc);
    };
    let path = path_at(paths, 0);
    let words = format!(in alloc;
        "its titles are not those of {path}: {found} stands in place of {wanted}; split it alone, or give it the same titles"
    );
    refused(alloc, Kind::Columns, path_at(paths, export), words)
}

// The refusal of an export whose fields stand between other signs than those of the first.
fn sign_refusal(alloc: Global, paths: &[&str], export: usize) -> Refusal {
    let path = path_at(paths, 0);
    let words = format!(in alloc;
        "its fields do not stand between the same signs as those of {path}: split it alone, or write both with the same"
    );
    refused(alloc, Kind::Text, path_at(paths, export), words)
}

// The refusal of an export that is no table.
fn table_refusal(alloc: Global, refusal: Refusal, path: &str) -> Refusal {
    if refusal.record.is_some() {
        of_export(alloc, refusal, path)
    } else {
        refusal
    }
}

// Why exports are not joined.
fn join_refusal(alloc: Global, paths: &[&str], tables: &[&[u8]], fault: JoinFault) -> Refusal {
    match fault {
        JoinFault::OutOfMemory => Refusal::out_of_memory(alloc),
        JoinFault::Table { text, fault } => {
            let path = path_at(paths, text);
            table_refusal(alloc, refused_table(alloc, fault, path.as_bytes()), path)
        }
        JoinFault::Separator { text } => sign_refusal(alloc, paths, text),
        JoinFault::Titles { text } => titles_refusal(alloc, paths, tables, text),
        JoinFault::TooManyRecords => Refusal::new(
            alloc,
            Kind::Text,
            None,
            b"the exports have 4,294,967,295 records or more, which are not read as one table: split each alone",
        ),
        JoinFault::NotOne => Refusal::new(
            alloc,
            Kind::Columns,
            None,
            b"the exports are not read as one table, since a title has a semicolon or a tab: split each alone",
        ),
    }
}

// The texts of exports.
fn own_texts(alloc: Global, words: &Words<'_>, all: &[Vec<u8>]) -> Result<Vec<Text>, Refusal> {
    let mut own = Vec::new(alloc);
    for (path, bytes) in words.exports.iter().zip(all) {
        let text = text_of(alloc, path, bytes, words)?;
        if own.push(text).is_err() {
            return Err(Refusal::out_of_memory(alloc));
        }
    }
    Ok(own)
}

// The table in the text of an export.
fn table_of<'a>(
    alloc: Global,
    words: &Words<'_>,
    path: &str,
    bytes: &'a [u8],
    own: &'a Text,
) -> Result<&'a [u8], Refusal> {
    let text = own.own.as_deref().unwrap_or(bytes);
    let table = match table_in(alloc, text, words) {
        Ok(table) => table,
        Err(refusal) => return Err(of_export(alloc, refusal, path)),
    };
    match text_fault(table) {
        Some(fault) => Err(refused_text(alloc, fault, path.as_bytes())),
        None => Ok(table),
    }
}

// The tables in the texts of exports.
fn tables_of<'a>(
    alloc: Global,
    words: &Words<'_>,
    all: &'a [Vec<u8>],
    own: &'a [Text],
) -> Result<Vec<&'a [u8]>, Refusal> {
    let mut tables: Vec<&[u8]> = Vec::new(alloc);
    for ((path, bytes), own) in words.exports.iter().zip(all).zip(own) {
        let table = table_of(alloc, words, path, bytes, own)?;
        if tables.push(table).is_err() {
            return Err(Refusal::out_of_memory(alloc));
        }
    }
    Ok(tables)
}

/// Several exports as one table.
#[derive(Drop)]
pub(crate) struct Several {
    pub joined: Joined,
    /// How many points of GPX are not read.
    pub other_points: usize,
}

// How many points of the GPX of all texts are not read.
fn points_of_all(texts: &[Text]) -> usize {
    texts.iter().fold(0usize, |count, text| {
        count.saturating_add(text.other_points)
    })
}

/// The table of several exports.
///
/// # Errors
///
/// Why they are not read as one.
pub(crate) fn join_exports(
    alloc: Global,
    words: &Words<'_>,
    all: &[Vec<u8>],
) -> Result<Several, Refusal> {
    let own = own_texts(alloc, words, all)?;
    let tables = tables_of(alloc, words, all, &own)?;
    match join(alloc, &tables) {
        Ok(joined) => Ok(Several {
            joined,
            other_points: points_of_all(&own),
        }),
        Err(fault) => Err(join_refusal(alloc, &words.exports, &tables, fault)),
    }
}

/// A refusal of a table of several exports, with the export that has its record, and the number there.
pub(crate) fn placed(alloc: Global, refusal: Refusal, paths: &[&str], counts: &[u32]) -> Refusal {
    let Some(record) = refusal.record else {
        return refusal;
    };
    let (export, number) = place_of(counts, record);
    let mut refusal = of_export(alloc, refusal, path_at(paths, export));
    refusal.record = Some(number);
    refusal
}
