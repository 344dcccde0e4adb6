// Whether bytes are the text of a table.

ghost use Rattle.std.specs.Prelude.{◌≡◌};
ghost use Rattle.std.specs.Str.{is_utf8};
ghost use Rattle.split_export.specs.Text.{text_fault};

/// Why bytes are no text.
#[derive(Clone, Copy, PartialEq, Eq, Debug)]
pub enum TextFault {
    /// There is a byte 0.
    ByteZero,
    /// They are not UTF-8.
    NotUtf8,
}

// Whether bytes are UTF-8.
fn is_utf8(bytes: &[u8]) -> bool
    ensures { result ≡ is_utf8 bytes.now }
{
    match str::from_utf8(bytes) {
        Ok(_) => true,
        Err(_) => false,
    }
}

/// Why bytes are no text; `None` where they are one.
pub fn text_fault(bytes: &[u8]) -> Option<TextFault>
    ensures { result ≡ text_fault bytes.now }
{
    if bytes.contains(&0) {
        Some(TextFault::ByteZero)
    } else if is_utf8(bytes) {
        None
    } else {
        Some(TextFault::NotUtf8)
    }
}
