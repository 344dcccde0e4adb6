// The table of a text that is GPX.

use crate::characters::left_from_bad;
use crate::declaration::{without_declaration, without_mark};
use crate::document::Document;
use crate::fault::{GpxCause, GpxFault};
use crate::markup::split_markup;
use crate::signs::split_before;
use crate::stop::Stop;
use crate::tracks::GpxTable;
use std::alloc::Global;

// Reads a text into a document.
fn read_all<'a>(document: &mut Document<'a>, text: &'a [u8]) -> Result<(), Stop> {
    let mut rest = text;
    for _ in 0..text.len() {
        let Some((before, found)) = split_before(rest, b'<') else {
            break;
        };
        document.check_text(before, found)?;
        let (markup, behind) = split_markup(found)?;
        document.take(markup, found, behind)?;
        rest = behind;
    }
    document.check_text(rest, &[])
}

// The table of a text.
fn table_of(alloc: Global, text: &[u8], are_of_one: bool) -> Result<GpxTable, Stop> {
    let mut document = Document::new(alloc);
    read_all(&mut document, without_declaration(without_mark(text)))?;
    document.finish(are_of_one)
}

/// The track points of GPX as a table in CSV, whose titles are `animal`, `time`, `lon` and `lat`, and whose cells all
/// stand between quotes. Its records are the points of each `trk` of `gpx`, in their order, and of a `trk` those of each
/// `trkseg`. The animal is the first `name` of the `trk`, in one line; where one `trk` alone has points and has no name, or all
/// that have points have none and are of one animal, the table has no column of the animal. A point without a time, a longitude
/// or a latitude has an empty cell. Waypoints, routes and what else there is are not read, and their points counted. Namespaces
/// do not count.
///
/// The text is in UTF-8, whatever encoding it names. It may begin with a byte order mark. It is not looked at whether the
/// prefixes of namespaces are declared, whether other attributes than `lon` and `lat` stand twice in a tag, and which
/// letters beyond ASCII a name has.
///
/// # Errors
///
/// The text is not UTF-8, it is no XML, has a document type, an entity that is none of XML, or more than 100 elements in
/// each other, its outermost element is not `gpx`, it has no track point, a track of several has points and no name, or memory
/// ran out.
pub fn table_of_gpx(alloc: Global, text: &[u8], are_of_one: bool) -> Result<GpxTable, GpxFault> {
    let Ok(characters) = str::from_utf8(text) else {
        return Err(GpxFault::NotUtf8);
    };
    let read = match left_from_bad(characters) {
        Some(left) => Err(Stop::Refused {
            left,
            cause: GpxCause::Character,
        }),
        None => table_of(alloc, text, are_of_one),
    };
    read.map_err(|stop| stop.fault_in(text))
}
