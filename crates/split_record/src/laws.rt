// Laws of records of tracks, for who reads what is promised. Each is a function that does nothing and promises the law;
// nobody calls it.

ghost use Rattle.split_record.specs.Laws.{EachLineIsOneThatWasGiven, LinesHaveNoControlCharacters, LinesHaveNoSeparators};

/// No line has a control character of ASCII, whatever is said in it; so none has a line feed or a carriage return.
pub fn lines_have_no_control_characters()
    ensures { LinesHaveNoControlCharacters }
{}

/// Nor has one a control character beyond ASCII, such as U+0085, or a separator of lines or of paragraphs, wherever its
/// bytes may stand.
pub fn lines_have_no_separators()
    ensures { LinesHaveNoSeparators }
{}

/// The lines of a record are those that were given, so no text can forge one.
pub fn each_line_is_one_that_was_given()
    ensures { EachLineIsOneThatWasGiven }
{}
