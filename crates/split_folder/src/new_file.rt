// A file that is to be written.

/// The name of a file in its folder, and its text.
#[derive(Clone, Copy, Debug)]
pub struct NewFile<'a> {
    pub name: &'a str,
    pub text: &'a [u8],
}
