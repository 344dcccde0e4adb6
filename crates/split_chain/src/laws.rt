// Laws of splits, for who reads what is promised. Each is a function that promises the law and does nothing, but that two call
// the laws from which theirs follows. Nobody else calls them.

ghost use Rattle.split_chain.specs.Laws.{EveryRecordOfASplitHasOnePlace, RecordsOfASplitAddUp, SplitsAreReadBack};

use split_counts::every_record_is_counted_once;
use split_tracks::every_record_has_one_place;

/// The file of each animal is read by `homerange`, in the unit asked, as its name and the fixes that are chosen, sorted by time,
/// without those that the filters leave out, with no fault.
pub fn splits_are_read_back()
    ensures { SplitsAreReadBack }
{}

/// Each record of a table is, in its split, in the track of one of the animals, once, or it is left out, and in exactly one of the
/// counts.
pub fn every_record_of_a_split_has_one_place()
    ensures { EveryRecordOfASplitHasOnePlace }
{
    every_record_has_one_place();
    every_record_is_counted_once();
}

/// The records of the files of a split, and the counts of those that are left out, are together as many as the records of the
/// table.
pub fn records_of_a_split_add_up()
    ensures { RecordsOfASplitAddUp }
{
    every_record_has_one_place();
    every_record_of_a_split_has_one_place();
}
