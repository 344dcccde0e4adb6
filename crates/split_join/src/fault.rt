// Why texts are not joined.

use split_table::TableFault;

/// Why texts are not joined. They are numbered from 0.
#[derive(Clone, Copy, PartialEq, Eq, Debug)]
pub enum JoinFault {
    OutOfMemory,
    /// A text is no table.
    Table { text: usize, fault: TableFault },
    /// The fields of a text do not stand between the same signs as those of the first.
    Separator { text: usize },
    /// The titles of a text are not those of the first.
    Titles { text: usize },
    /// They have 4,294,967,295 records or more together.
    TooManyRecords,
    /// No text of a table has those titles, which have a semicolon or a tab.
    NotOne,
}

/// Why the table of a text is not read.
pub(crate) fn fault_of(text: usize, fault: TableFault) -> JoinFault {
    match fault {
        TableFault::OutOfMemory => JoinFault::OutOfMemory,
        _ => JoinFault::Table { text, fault },
    }
}
