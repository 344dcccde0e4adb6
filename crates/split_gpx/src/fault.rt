// Why a text is no GPX.

/// What is wrong in a line.
#[derive(Clone, Copy, PartialEq, Eq, Debug)]
pub enum GpxCause {
    /// A character that XML cannot have, such as a byte 0.
    Character,
    /// A document type, which is not read.
    DocumentType,
    /// `&` without one of the five names of XML or the number of a character behind it.
    Reference,
    /// A tag, an attribute, a comment, an instruction or a section of characters that is not as XML has it.
    Markup,
    /// A tag that ends another element than the last that is open.
    OtherEnd,
    /// An element in more others than are read.
    TooDeep,
    /// Something else than comments and instructions stands outside of the outermost element.
    Outside,
    /// The text ends before an element does.
    Unclosed,
}

/// Why a text is no GPX.
#[derive(Clone, Copy, PartialEq, Eq, Debug)]
pub enum GpxFault {
    OutOfMemory,
    /// The text is not UTF-8.
    NotUtf8,
    /// It has no element, or its outermost element is not `gpx`.
    NotGpx,
    /// It has no track point.
    NoPoints,
    /// This track has points and no name, of several. Tracks are counted from 1.
    NoName { track: usize },
    /// What begins in this line is refused. Lines are counted from 1.
    Refused { line: usize, cause: GpxCause },
}
