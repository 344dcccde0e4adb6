// The law of what is written, for who reads what is promised. It is a function that does nothing and promises the law;
// nobody calls it.

ghost use Rattle.split_files.specs.Laws.{TracksAreReadBack};

/// The text of a track is read as what was written.
pub fn tracks_are_read_back()
    ensures { TracksAreReadBack }
{}
