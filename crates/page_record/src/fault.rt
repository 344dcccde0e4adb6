// Why a text is not read as a record of tracks.

/// What is wrong with a line.
#[derive(Clone, Copy, PartialEq, Eq, Debug)]
pub enum Wrong {
    /// It is no UTF-8.
    NoText,
    /// It is of no kind that a record has.
    Unknown,
    /// It may not stand behind the line before it, or not at the beginning.
    Place,
    /// Its export is no plain name of a file.
    Export,
    /// Its checksum is none.
    Sum,
    /// Its unit is none.
    Scale,
    /// Its zone is none, and not `none`.
    Zone,
    /// Its shift is none.
    Shift,
    /// Its value of an option has a backslash that begins no escape.
    Escape,
    /// It says of no animal how many fixes were left out and why.
    Left,
    /// It is no track of an animal.
    Track,
    /// Its animal has a track already.
    Again,
    /// It is not there: the record ends before the line of what made the tracks.
    Missing,
    /// It is the last one, and has no end.
    Unended,
}

/// Why a text is not read as a record of tracks.
#[derive(Clone, Copy, PartialEq, Eq, Debug)]
pub enum RecordFault {
    OutOfMemory,
    /// The line of this number, from 1 on, is the first with which something is wrong.
    Line { number: usize, wrong: Wrong },
}

// Why a line is not taken.
#[derive(Clone, Copy, PartialEq, Eq, Debug)]
pub(crate) enum LineFault {
    OutOfMemory,
    Wrong { wrong: Wrong },
}

/// What is wrong with a line, in one short sentence without its point.
pub fn sentence(wrong: Wrong) -> &'static str {
    match wrong {
        Wrong::NoText => "it is no text in UTF-8",
        Wrong::Unknown => "it is of no kind that a record of tracks has",
        Wrong::Place =>
            "a line of its kind may not stand there, or another one is missing before it",
        Wrong::Export => "the export is no plain name of a file",
        Wrong::Sum => "the checksum is not 64 digits from 0 to f",
        Wrong::Scale => "the unit is neither m nor dm",
        Wrong::Zone => "the zone is neither none nor a number from 1 to 60 with N or S",
        Wrong::Shift => "the shift is not two whole numbers up to 999999999",
        Wrong::Escape => "a backslash in the value begins no escape",
        Wrong::Left => "it is not an animal, a number up to 999999999 and a reason",
        Wrong::Track =>
            "it is not an animal, its records, those of them that are used, and a checksum",
        Wrong::Again => "this animal has a track already",
        Wrong::Missing => "it is missing: the last line of a record says what made the tracks",
        Wrong::Unended => "it has no end: the record was cut off",
    }
}
