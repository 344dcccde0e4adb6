// The text of an export, in UTF-8.

use crate::begins::{said_of_file, said_of_mark, said_of_text};
use split_encoding::{DecodeFault, Encoding, decode, encoding_of};
use split_gpx::{GpxCause, GpxFault, GpxTable, declared_encoding, table_of_gpx};
use split_refusal::{Kind, Refusal};
use split_words::Words;
use std::alloc::{AllocError, Global};

// The refusal of a path, for what these words say of it.
fn refused(alloc: Global, words: Result<String, AllocError>) -> Refusal {
    match words {
        Ok(words) => Refusal::new(alloc, Kind::Text, None, words.as_bytes()),
        Err(_) => Refusal::out_of_memory(alloc),
    }
}

// Refuses a path of which something is said.
fn refuse_said(alloc: Global, path: &str, said: Option<&str>) -> Result<(), Refusal> {
    match said {
        Some(words) => Err(refused(alloc, format!(in alloc; "{path} {words}"))),
        None => Ok(()),
    }
}

// The refusal of GPX whose bytes are no text of its encoding.
fn gpx_decode_refusal(
    alloc: Global,
    path: &str,
    encoding: Encoding,
    fault: DecodeFault,
) -> Refusal {
    let name = encoding.name();
    match fault {
        DecodeFault::OutOfMemory => Refusal::out_of_memory(alloc),
        DecodeFault::NoMark => refused(
            alloc,
            format!(in alloc;
                "{path} is no text in {name}: it has no byte order mark; write it anew in UTF-8"
            ),
        ),
        DecodeFault::NoCharacter { place } => refused(
            alloc,
            format!(in alloc;
                "{path} is no text in {name}: byte {place} is none of it; GPX names its encoding in its first line, as <?xml version=\"1.0\" encoding=\"latin-1\"?>"
            ),
        ),
    }
}

// The refusal of bytes that are no text of an encoding.
fn decode_refusal(alloc: Global, path: &str, encoding: Encoding, fault: DecodeFault) -> Refusal {
    let name = encoding.name();
    match fault {
        DecodeFault::OutOfMemory => Refusal::out_of_memory(alloc),
        DecodeFault::NoMark => refused(
            alloc,
            format!(in alloc;
                "{path} is no text in {name}: it has no byte order mark; name the order by --encoding {name}-le or {name}-be"
            ),
        ),
        DecodeFault::NoCharacter { place } => refused(
            alloc,
            format!(in alloc;
                "{path} is no text in {name}: byte {place} is none of it; name its coding, such as --encoding latin-1"
            ),
        ),
    }
}

// The text of bytes in an encoding.
fn decoded(
    alloc: Global,
    path: &str,
    bytes: &[u8],
    encoding: Encoding,
) -> Result<Vec<u8>, Refusal> {
    match decode(alloc, bytes, encoding) {
        Ok(text) => Ok(text),
        Err(fault) => Err(decode_refusal(alloc, path, encoding, fault)),
    }
}

// What is wrong in a line of GPX.
fn cause_words(cause: GpxCause) -> &'static str {
    match cause {
        GpxCause::Character => "has a character that XML cannot have",
        GpxCause::DocumentType => "has a document type, which is not read: remove it",
        GpxCause::Reference => "has & without a name of XML behind it",
        GpxCause::Markup => "has markup that is not that of XML",
        GpxCause::OtherEnd => "ends another element than the last that is open",
        GpxCause::TooDeep => "has an element in more than 100 others",
        GpxCause::Outside => "has something outside of the outermost element",
        GpxCause::Unclosed => "has an element without an end",
    }
}

// The refusal of a text that is no GPX.
fn gpx_refusal(alloc: Global, path: &str, fault: GpxFault) -> Refusal {
    match fault {
        GpxFault::OutOfMemory => Refusal::out_of_memory(alloc),
        GpxFault::NotUtf8 | GpxFault::NotGpx => refused(
            alloc,
            format!(in alloc; "{path} is no GPX"),
        ),
        GpxFault::NoPoints => refused(
            alloc,
            format!(in alloc; "{path} has no track point: waypoints and routes are not read"),
        ),
        GpxFault::NoName { track } => refused(
            alloc,
            format!(in alloc;
                "{path}: track {track} has no name, which is that of its animal: write one into it, or name the animal of all tracks, where \
                 none has a name, as by --name fox"
            ),
        ),
        GpxFault::Refused { line, cause } => {
            let words = cause_words(cause);
            refused(
                alloc,
                format!(in alloc; "{path} is no GPX: line {line} {words}"),
            )
        }
    }
}

// The encoding that GPX names itself.
fn gpx_encoding(alloc: Global, path: &str, bytes: &[u8]) -> Result<Encoding, Refusal> {
    let Some(name) = declared_encoding(bytes) else {
        return Ok(Encoding::Utf8);
    };
    match encoding_of(name) {
        Some(encoding) => Ok(encoding),
        None => {
            let name = str::from_utf8(name).unwrap_or("another one");
            let words = format!(in alloc;
                "{path}: the encoding {name} is not read: write it anew in UTF-8"
            );
            Err(refused(alloc, words))
        }
    }
}

// The table in the text of GPX.
fn gpx_text_table(
    alloc: Global,
    path: &str,
    text: &[u8],
    are_of_one: bool,
) -> Result<GpxTable, Refusal> {
    match table_of_gpx(alloc, text, are_of_one) {
        Ok(table) => Ok(table),
        Err(fault) => Err(gpx_refusal(alloc, path, fault)),
    }
}

// The table of GPX.
fn gpx_table(
    alloc: Global,
    path: &str,
    bytes: &[u8],
    are_of_one: bool,
) -> Result<GpxTable, Refusal> {
    let encoding = gpx_encoding(alloc, path, bytes)?;
    match decode(alloc, bytes, encoding) {
        Ok(text) => gpx_text_table(alloc, path, &text, are_of_one),
        Err(fault) => Err(gpx_decode_refusal(alloc, path, encoding, fault)),
    }
}

// A text behind its first line, which ends in LF, CRLF or CR.
fn behind_line(text: &[u8]) -> &[u8] {
    let Some(end) = text
        .iter()
        .position(|byte| *byte == b'\n' || *byte == b'\r')
    else {
        return b"";
    };
    let rest = text.get(end..).unwrap_or(b"");
    match rest {
        [b'\r', b'\n', behind @ ..] => behind,
        [_, behind @ ..] => behind,
        [] => b"",
    }
}

// A text behind so many lines.
fn behind_lines(text: &[u8], count: usize) -> &[u8] {
    let mut rest = text;
    for _line in 0..count {
        if rest.is_empty() {
            return rest;
        }
        rest = behind_line(rest);
    }
    rest
}

// A text without the byte order mark of UTF-8 and the quotes at its start.
fn without_quotes(text: &[u8]) -> &[u8] {
    let text = text
        .strip_prefix(b"\xEF\xBB\xBF".as_slice())
        .unwrap_or(text);
    let start = text.iter().position(|byte| *byte != b'"');
    text.get(start.unwrap_or(text.len())..).unwrap_or(b"")
}

// A text from the line on that begins with a header, before which quotes may stand.
fn from_header<'a>(alloc: Global, text: &'a [u8], header: &str) -> Result<&'a [u8], Refusal> {
    let mut rest = text;
    for _byte in 0..text.len() {
        if without_quotes(rest).starts_with(header.as_bytes()) {
            return Ok(rest);
        }
        rest = behind_line(rest);
        if rest.is_empty() {
            break;
        }
    }
    let words = format!(in alloc; "no line begins with '{header}', as that of titles does");
    match words {
        Ok(words) => Err(Refusal::new(alloc, Kind::Columns, None, words.as_bytes())),
        Err(_) => Err(Refusal::out_of_memory(alloc)),
    }
}

/// The table in the text of an export, behind what the words leave out before it.
///
/// # Errors
///
/// No line begins as that of titles does, or memory ran out.
pub(crate) fn table_in<'a>(
    alloc: Global,
    text: &'a [u8],
    words: &Words<'_>,
) -> Result<&'a [u8], Refusal> {
    let table = behind_lines(text, words.text.skipped);
    match words.header {
        Some(header) => from_header(alloc, table, header),
        None => Ok(table),
    }
}

/// The text of an export, which is a table.
#[derive(Drop)]
pub(crate) struct Text {
    /// None where the bytes of the export are that text.
    pub own: Option<Vec<u8>>,
    /// How many points of GPX are not read, since they are no points of tracks.
    pub other_points: usize,
}

impl Text {
    // A text of a table.
    fn of_table(own: Option<Vec<u8>>) -> Text {
        Text {
            own,
            other_points: 0,
        }
    }
}

impl From<GpxTable> for Text {
    fn from(table: GpxTable) -> Text {
        Text {
            own: Some(table.text),
            other_points: table.other_points,
        }
    }
}

/// The text of the bytes of an export at a path.
///
/// # Errors
///
/// Why it is refused.
pub(crate) fn text_of(
    alloc: Global,
    path: &str,
    bytes: &[u8],
    words: &Words<'_>,
) -> Result<Text, Refusal> {
    refuse_said(alloc, path, said_of_file(bytes))?;
    if words.text.is_gpx {
        let table = gpx_table(alloc, path, bytes, words.name.is_some())?;
        return Ok(Text::from(table));
    }
    let encoding = words.text.encoding;
    refuse_said(alloc, path, said_of_mark(bytes, encoding))?;
    if encoding == Encoding::Utf8 {
        refuse_said(alloc, path, said_of_text(bytes, encoding))?;
        return Ok(Text::of_table(None));
    }
    let text = decoded(alloc, path, bytes, encoding)?;
    refuse_said(alloc, path, said_of_text(&text, encoding))?;
    Ok(Text::of_table(Some(text)))
}
