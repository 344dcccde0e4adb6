// Laws of texts as they are shown, for who reads what is promised. Each is a function that does nothing and promises
// the law; nobody calls it, since proofs of crates above cite `proofs/ForCallers.antt`.

ghost use Rattle.range_texts.specs.Laws.{JoinedLinesAreOneLine, NumbersAreOneLine, PrintableTextsAreOneLine, ShownNamesAreOneLine, ShownTextsAreOneLine, ShownTextsDiffer};

/// Two texts of one line, one after the other, are one line.
pub fn joined_lines_are_one_line()
    ensures { JoinedLinesAreOneLine }
{}

/// What ASCII prints is one line.
pub fn printable_texts_are_one_line()
    ensures { PrintableTextsAreOneLine }
{}

/// A number is one line.
pub fn numbers_are_one_line()
    ensures { NumbersAreOneLine }
{}

/// A text as [`OneLine`](crate::OneLine) shows it is one line, whatever stands in it.
pub fn shown_texts_are_one_line()
    ensures { ShownTextsAreOneLine }
{}

/// A name as [`Name`](crate::Name) shows it is one line, whatever its bytes are.
pub fn shown_names_are_one_line()
    ensures { ShownNamesAreOneLine }
{}

/// Two texts that are shown alike, with a backslash doubled, are the same text.
pub fn shown_texts_differ()
    ensures { ShownTextsDiffer }
{}
