// Laws of the names of files, for who reads what is promised. Each is a function that does nothing and promises the
// law; nobody calls it.

ghost use Rattle.split_names.specs.Laws.{CleanNamesAreUtf8, CleanNamesNameFiles, FileNamesAreUtf8, FileNamesDiffer, FileNamesNameFiles};

/// What the name of an animal becomes may name a file, also one of fixes, where it is not empty.
pub fn clean_names_name_files()
    ensures { CleanNamesNameFiles }
{}

/// What the name of an animal becomes is UTF-8 where the name is, so no character is cut in two.
pub fn clean_names_are_utf8()
    ensures { CleanNamesAreUtf8 }
{}

/// The names of the files of several animals may name files too, also those with a number.
pub fn file_names_name_files()
    ensures { FileNamesNameFiles }
{}

/// And they are UTF-8, also those with a number.
pub fn file_names_are_utf8()
    ensures { FileNamesAreUtf8 }
{}

/// No two names of files fold alike, so no two are the same, and each clean name with a number found a free one.
pub fn file_names_differ()
    ensures { FileNamesDiffer }
{}
