// What was typed in for a page.

/// What was typed in for a page. None of these is empty.
#[derive(Clone, Copy)]
pub struct Words<'a> {
    /// The title; else it is made of the names of animals.
    pub title: Option<&'a [u8]>,
    pub study: Option<&'a [u8]>,
    pub species: Option<&'a [u8]>,
    /// Who made the page.
    pub by: Option<&'a [u8]>,
    /// The number or the name of the case that the page belongs to.
    pub reference: Option<&'a [u8]>,
    /// What the page is for.
    pub purpose: Option<&'a [u8]>,
    /// What the boundary is called.
    pub boundary: Option<&'a [u8]>,
}

/// What made the report that a page is of, and when the page is made.
#[derive(Clone, Copy)]
pub struct Made<'a> {
    /// A year, a month and a day of it; none where it is not known.
    pub day: Option<(u64, u64, u64)>,
    /// What the program says of its version.
    pub version: &'a [u8],
    /// Its SHA-256 checksum; none where it is not known.
    pub sum: Option<&'a [u8]>,
}
