// Which characters are seen.

ghost use Rattle.std.specs.Prelude.{◌≡◌};
ghost use Rattle.range_texts.specs.Seen.{is_unseen};

use ucd_category::GeneralCategory;
use ucd_derived::is_default_ignorable_code_point;

/// Whether the character cannot be seen: it controls, formats, ends a line
/// or a paragraph, is shown as nothing, is of private use or unassigned in Unicode 18, or is a space other than ' '.
pub fn is_unseen(character: char) -> bool
    ensures { result ≡ is_unseen character }
{
    match GeneralCategory::for_char(character) {
        GeneralCategory::Format
        | GeneralCategory::LineSeparator
        | GeneralCategory::ParagraphSeparator
        | GeneralCategory::PrivateUse
        | GeneralCategory::Surrogate
        | GeneralCategory::Unassigned => true,
        GeneralCategory::SpaceSeparator if character != ' ' => true,
        _ => character.is_control() || is_default_ignorable_code_point(character),
    }
}
