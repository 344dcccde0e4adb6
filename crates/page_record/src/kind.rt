// The kinds of lines, and their order.

ghost use Rattle.std.specs.Prelude.{◌≡◌};
ghost use Rattle.page_record.specs.Kinds.{kind_of, may_follow, other_kind_of, place_of, rank, single_kind_of};

/// What a line of a record is about.
#[derive(Clone, Copy, PartialEq, Eq, Debug)]
pub enum Kind {
    /// The name of the export.
    Export,
    /// Its checksum.
    Sum,
    /// The unit of coordinates.
    Scale,
    /// The UTM zone.
    Zone,
    /// By how much coordinates were shifted.
    Shift,
    /// An option that was given.
    Given,
    /// A line that was said.
    Said,
    /// How many fixes of an animal were left out, and why.
    Left,
    /// The track of an animal.
    Track,
    /// What made the tracks.
    Tool,
}

// The kind of what stands before a line's first comma, if it is one of those that stand at most once.
#[tactic(auto, unfolding(crate::specs::Kinds::single_kind_of))]
fn single_kind_of(word: &[u8]) -> Option<Kind>
    ensures { result ≡ single_kind_of word.now }
{
    if word == b"export".as_slice() {
        Some(Kind::Export)
    } else if word == b"sha256".as_slice() {
        Some(Kind::Sum)
    } else if word == b"unit".as_slice() {
        Some(Kind::Scale)
    } else if word == b"zone".as_slice() {
        Some(Kind::Zone)
    } else if word == b"shift".as_slice() {
        Some(Kind::Shift)
    } else {
        None
    }
}

// The same, if it is one of those of which there may be several.
#[tactic(auto, unfolding(crate::specs::Kinds::other_kind_of))]
fn other_kind_of(word: &[u8]) -> Option<Kind>
    ensures { result ≡ other_kind_of word.now }
{
    if word == b"option".as_slice() {
        Some(Kind::Given)
    } else if word == b"said".as_slice() {
        Some(Kind::Said)
    } else if word == b"left".as_slice() {
        Some(Kind::Left)
    } else if word == b"track".as_slice() {
        Some(Kind::Track)
    } else if word == b"tool".as_slice() {
        Some(Kind::Tool)
    } else {
        None
    }
}

// The kind of what stands before a line's first comma.
#[tactic(auto, unfolding(crate::specs::Kinds::kind_of))]
pub(crate) fn kind_of(word: &[u8]) -> Option<Kind>
    ensures { result ≡ kind_of word.now }
{
    match single_kind_of(word) {
        Some(kind) => Some(kind),
        None => other_kind_of(word),
    }
}

// The place of a kind in a record.
fn rank(kind: Kind) -> u8
    ensures { result ≡ rank kind }
{
    match kind {
        Kind::Export => 1,
        Kind::Sum => 2,
        Kind::Scale => 3,
        Kind::Zone => 4,
        Kind::Shift => 5,
        Kind::Given => 6,
        Kind::Said => 7,
        Kind::Left => 8,
        Kind::Track => 9,
        Kind::Tool => 10,
    }
}

// The place of the last kind so far, and 0 before the first.
fn place_of(last: Option<Kind>) -> u8
    ensures { result ≡ place_of last }
{
    match last {
        Some(kind) => rank(kind),
        None => 0,
    }
}

// Whether a line of a kind may stand behind one of another.
pub(crate) fn may_follow(last: Option<Kind>, kind: Kind) -> bool
    ensures { result ≡ may_follow last kind }
{
    let before = place_of(last);
    let next = rank(kind);
    if before < 4 {
        next == before + 1 || (before == 0 && next == 3)
    } else {
        before < next || (before == next && 5 < next)
    }
}
