// Laws of the two filters, for who reads what is promised. Each is a function that does nothing and promises the law; nobody
// calls it.

ghost use Rattle.split_pace.specs.Laws.{KeptAreReached, OnlyFirstsAreKept, TracksAreFiltered};

/// Of one fix in each piece of time: a used fix is kept exactly if no used one before it in the track is in the same piece.
pub fn only_firsts_are_kept()
    ensures { OnlyFirstsAreKept }
{}

/// Of the greatest speed: the animal comes to each fix that is kept from the one that is kept before it.
pub fn kept_are_reached()
    ensures { KeptAreReached }
{}

/// Where records are numbered from 1, the track of each animal has, once a filter leaves records out, what the filter does not
/// leave out of it, in the same order. The records have their numbers still, so the next filter may follow.
pub fn tracks_are_filtered()
    ensures { TracksAreFiltered }
{}
