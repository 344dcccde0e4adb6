// Texts of columns that are not read, which may say which fixes count.

use split_titles::dictionary::{BAD_FIXES, CHOOSING, CHOOSING_ALONE, JUDGING};
use split_titles::{has_word, is_word};

// Texts of yes and of no, in small letters.
const YES: [&str; 6] = ["1", "1.0", "true", "t", "yes", "y"];

const NO: [&str; 6] = ["0", "0.0", "false", "f", "no", "n"];

// What the texts of a column say of fixes.
#[derive(Clone, Copy, PartialEq, Eq, Debug)]
pub(crate) struct Marks {
    // Whether by its title it may choose fixes by yes and no, and whether it may judge them by words.
    chooses: bool,
    judges: bool,
    // Whether all texts are yes or no, and whether both are there.
    are_binary: bool,
    has_yes: bool,
    has_no: bool,
    // Whether one says that a fix is no good, and whether one says something else.
    has_bad: bool,
    has_other: bool,
}

// Whether a text is one of these, but for capitals.
fn is_one_of(text: &[u8], texts: &[&str]) -> bool {
    texts
        .iter()
        .any(|own| text.eq_ignore_ascii_case(own.as_bytes()))
}

// A title without the lines that R and Python have behind words of theirs.
fn without_lines(title: &[u8]) -> &[u8] {
    title.strip_suffix(b"_").unwrap_or(title)
}

impl Marks {
    // Those of no text, of a column of this title.
    pub(crate) fn none(title: &[u8]) -> Marks {
        Marks {
            chooses: has_word(title, &CHOOSING) || is_word(without_lines(title), &CHOOSING_ALONE),
            judges: has_word(title, &JUDGING),
            are_binary: true,
            has_yes: false,
            has_no: false,
            has_bad: false,
            has_other: false,
        }
    }

    // The same with the text of one fix more.
    pub(crate) fn with(self, text: &[u8]) -> Marks {
        if !self.chooses && !self.judges {
            return self;
        }
        let is_yes = is_one_of(text, &YES);
        let is_no = is_one_of(text, &NO);
        let is_bad = self.judges && is_one_of(text, &BAD_FIXES);
        Marks {
            are_binary: self.are_binary && (is_yes || is_no),
            has_yes: self.has_yes || is_yes,
            has_no: self.has_no || is_no,
            has_bad: self.has_bad || is_bad,
            has_other: self.has_other || !is_bad,
            ..self
        }
    }

    // Whether they may say which fixes count: by yes and no, or since some are no good.
    pub(crate) fn may_count(self) -> bool {
        let are_chosen = self.chooses && self.are_binary && self.has_yes && self.has_no;
        are_chosen || self.judges && self.has_bad && self.has_other
    }

    // Whether a text more may change that.
    pub(crate) fn are_open(self) -> bool {
        let may_choose = self.chooses && self.are_binary;
        (may_choose || self.judges) && !self.may_count()
    }
}
