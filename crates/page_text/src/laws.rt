// Laws of texts and numbers of the page, for who reads what is promised. Each is a function that does nothing and promises
// the law; nobody calls it.

ghost use Rattle.page_text.specs.Laws.{AttributesAreReadBack, CellsAreReadBack, RoundedIsNearest, ShownTextIsHarmless};

/// Whatever stands in a text of a user, what is shown of it has no markup and no control character, and each `&` of it
/// begins an entity.
pub fn shown_text_is_harmless()
    ensures { ShownTextIsHarmless }
{}

/// The value of an attribute is read as it was, up to the quote behind it, whatever stands in it and behind it.
pub fn attributes_are_read_back()
    ensures { AttributesAreReadBack }
{}

/// A cell is read as the text that it was made of, behind an apostrophe where it has one, whatever stands behind the cell.
pub fn cells_are_read_back()
    ensures { CellsAreReadBack }
{}

/// A quotient that is rounded is the nearest number, and of two that are as near the greater one.
pub fn rounded_is_nearest()
    ensures { RoundedIsNearest }
{}
