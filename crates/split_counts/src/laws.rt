// Laws of counts, for who reads what is promised. Each is a function that does nothing and promises the law; proofs
// of crates above call it.

ghost use Rattle.split_counts.specs.Laws.{EveryRecordIsCountedOnce, OneAnimalAndOneReasonAreCounted};

/// Each record is in a track or in exactly one count, where each that is left out is of one of the animals that were
/// counted, or of none.
pub fn every_record_is_counted_once()
    ensures { EveryRecordIsCountedOnce }
{}

/// A count is that of the records that are left out for one reason and are of one animal, or of none, and of no others.
pub fn one_animal_and_one_reason_are_counted()
    ensures { OneAnimalAndOneReasonAreCounted }
{}
