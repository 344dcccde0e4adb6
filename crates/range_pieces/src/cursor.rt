// A position in a list of points.

/// A position in a list, before one of its points or after the last. It stays right until the list changes.
#[derive(Clone, Copy, PartialEq, Eq, Debug)]
pub struct Cursor {
    // The piece of the point after it, or the number of pieces at the end of the list.
    pub(crate) piece: usize,
    // The index of that point in its piece, 0 at the end of the list.
    pub(crate) within: usize,
}
