// Laws of lines and of their messages, for who reads what is promised. Each is a function that does nothing and
// promises the law; nobody calls it, since proofs of crates above cite `proofs/ForCallers.antt`.

ghost use Rattle.range_line.specs.Laws.{FilesAreStepsApart, LastMessagesComeNext, LinesAreInOrder, MessagesAddTheirFixes, StreamsAreLawful, TheMarkIsLast};

/// At every moment of a line: each message that was taken or that the channel holds is of a file of the
/// line; of each file, what was taken and then what the channel holds is what its feeder sent, and is
/// lawful; what was sent has the mark exactly where its feeder is closed; and the channel holds at most
/// as many messages as the line's depth.
pub fn lines_are_in_order()
    ensures { LinesAreInOrder }
{}

/// A beginning of a file's lawful messages that has the mark is all of them.
pub fn the_mark_is_last()
    ensures { TheMarkIsLast }
{}

/// At most as many fixes as a file may have, cut into blocks of any size from 1 to
/// [`BLOCK_LIMIT`](range_options::BLOCK_LIMIT) and sent with the mark last, are lawful, and their blocks joined are
/// those fixes.
pub fn streams_are_lawful()
    ensures { StreamsAreLawful }
{}

/// A message more adds its fixes to those of its file, and none to another's.
pub fn messages_add_their_fixes()
    ensures { MessagesAddTheirFixes }
{}

/// The last of lawful messages is placed after the fixes of its file before it, with which its own stay
/// within the limit, and no mark of its file came before.
pub fn last_messages_come_next()
    ensures { LastMessagesComeNext }
{}

/// The files of a line are its first, and each a step after the one before.
pub fn files_are_steps_apart()
    ensures { FilesAreStepsApart }
{}
