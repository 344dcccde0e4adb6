// The law of files that are written, for who reads what is promised: a function that does nothing and promises it. Nobody
// calls it.

ghost use Rattle.split_export.specs.Laws.{FilesAreReadBack};

/// The file of each animal is read by `homerange` as its name and the fixes that are chosen, sorted by time, in whole units
/// and seconds, with no fault.
pub fn files_are_read_back()
    ensures { FilesAreReadBack }
{}
