// The law of tracks that are written, for who reads what is promised: a function that does nothing and promises it.
// Nobody calls it.

ghost use Rattle.split_fates.specs.Laws.{TracksMayBeWritten};

/// The fixes of a track, shifted, may stand in a file: each is on the grid, none is earlier than the one before it, and
/// without marks all are used. So `tracks_are_read_back` holds of its text.
pub fn tracks_may_be_written()
    ensures { TracksMayBeWritten }
{}
