// The law of places, for who reads what is promised: a function that does nothing and promises it; nobody calls it.

ghost use Rattle.page_drawing.specs.Laws.{PlacesAreNearest};

/// A place is the nearest tenth of a pixel, and of two that are as near the greater one.
pub fn places_are_nearest()
    ensures { PlacesAreNearest }
{}
