// The code pages.

pub(crate) mod latin_2;
pub(crate) mod windows_1250;
pub(crate) mod windows_1251;
pub(crate) mod windows_1252;
