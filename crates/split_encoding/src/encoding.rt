// The encodings that texts may be in.

/// An encoding of text.
#[derive(Clone, Copy, PartialEq, Eq, Debug)]
pub enum Encoding {
    Ascii,
    Utf8,
    /// UTF-16 that begins with a byte order mark, which tells the order of its bytes and is none of the text.
    Utf16,
    Utf16Le,
    Utf16Be,
    /// UTF-32 that begins with a byte order mark, which tells the order of its bytes and is none of the text.
    Utf32,
    Utf32Le,
    Utf32Be,
    /// ISO 8859-1, with the control characters of C1.
    Latin1,
    /// ISO 8859-2, with the control characters of C1.
    Latin2,
    Windows1250,
    Windows1251,
    Windows1252,
}

impl Encoding {
    /// All of them, in the order in which they are told.
    pub const ALL: [Encoding; 13] = [
        Encoding::Utf8,
        Encoding::Ascii,
        Encoding::Utf16,
        Encoding::Utf16Le,
        Encoding::Utf16Be,
        Encoding::Utf32,
        Encoding::Utf32Le,
        Encoding::Utf32Be,
        Encoding::Latin1,
        Encoding::Latin2,
        Encoding::Windows1250,
        Encoding::Windows1251,
        Encoding::Windows1252,
    ];

    /// Its usual name, by which [`encoding_of`](crate::encoding_of) finds it.
    pub fn name(self) -> &'static str {
        match self {
            Encoding::Ascii => "ascii",
            Encoding::Utf8 => "utf-8",
            Encoding::Utf16 => "utf-16",
            Encoding::Utf16Le => "utf-16-le",
            Encoding::Utf16Be => "utf-16-be",
            Encoding::Utf32 => "utf-32",
            Encoding::Utf32Le => "utf-32-le",
            Encoding::Utf32Be => "utf-32-be",
            Encoding::Latin1 => "latin-1",
            Encoding::Latin2 => "iso-8859-2",
            Encoding::Windows1250 => "windows-1250",
            Encoding::Windows1251 => "windows-1251",
            Encoding::Windows1252 => "windows-1252",
        }
    }
}
