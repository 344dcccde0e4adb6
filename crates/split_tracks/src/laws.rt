// Laws of tracks, for who reads what is promised. Each is a function that does nothing and promises the law; proofs
// of crates above call it.

ghost use Rattle.split_tracks.specs.Laws.{EveryRecordHasOnePlace, TracksAreInTheOrderOfTime};

/// Each record is in exactly one track, once, or left out, where each entry is of one of the animals that were counted.
pub fn every_record_has_one_place()
    ensures { EveryRecordHasOnePlace }
{}

/// The entries of a track are sorted by time, and those of one time stand in the order of their records.
pub fn tracks_are_in_the_order_of_time()
    ensures { TracksAreInTheOrderOfTime }
{}
