// The law of plain texts, for who reads what is promised: a function that does nothing and promises it. Nobody calls it.

ghost use Rattle.split_table.specs.Laws.{PlainRecordsAreLines};

/// In a text without quotes, whose lines end in LF, the records are the lines that are not blank, and the fields what stands
/// between separators.
pub fn plain_records_are_lines()
    ensures { PlainRecordsAreLines }
{}
