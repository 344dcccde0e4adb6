// The law of rounding, for who reads what is promised: a function that does nothing and promises it. Nobody calls it.

ghost use Rattle.split_numbers.specs.Laws.{RoundingMovesByAtMostHalfAUnit};

/// What a decimal comes to is at most half a unit from it, and half a unit only above it.
pub fn rounding_moves_by_at_most_half_a_unit()
    ensures { RoundingMovesByAtMostHalfAUnit }
{}
