// What is done to write a folder.

/// What is to be done. A file is told by its index among those that are handed in.
#[derive(Clone, Copy, PartialEq, Eq, Debug)]
pub enum Step {
    /// To make the folder.
    Make,
    /// To add this file.
    Add(usize),
    /// To put the folder in its place.
    Finish,
}
