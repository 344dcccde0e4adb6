// Why a table is refused for its titles.

use crate::named::Role;
use range_plane::OutOfMemory;
use std::alloc::AllocFailed;

/// The kinds of refusals for titles, of those in `docs/TABLES.md`.
#[derive(Clone, Copy, PartialEq, Eq, Debug)]
pub enum FaultKind {
    /// `ambiguous`: two columns fit.
    Ambiguous,
    /// `columns`: a column that is needed or named is not there, or one is there that is passed over, or too many are.
    Columns,
    /// `option`: what was named cannot be right.
    Option,
}

/// What a column that would be passed over may have.
#[derive(Clone, Copy, PartialEq, Eq, Debug)]
pub enum PassedOver {
    /// Classes of Argos, under a title that other classes have too.
    Classes,
    /// Marks of outliers, under a title that says not which.
    Mark,
    /// Zones of UTM, beside coordinates that are not of UTM.
    Zone,
}

/// Why a table is refused for its titles, or for those that were named. Columns are given by their places.
#[derive(Clone, Copy, PartialEq, Eq, Debug)]
pub enum TitleFault<'a> {
    OutOfMemory,
    /// There are more columns than [`COLUMN_LIMIT`](crate::COLUMN_LIMIT).
    TooManyColumns,
    /// Of two coordinates one was named.
    HalfPair {
        first: Role,
        second: Role,
    },
    /// Two coordinates were named by one column.
    OneColumn {
        first: Role,
        second: Role,
    },
    /// Metres and degrees were both named.
    TwoPairs,
    /// A title was named that no column has.
    NoColumn {
        role: Role,
        wanted: &'a [u8],
    },
    /// No usual title is that of coordinates.
    NoCoordinates,
    /// Classes of Argos are asked for, and no usual title is that of them.
    NoArgosClass,
    /// DOP is asked for, and no usual title is that of one.
    NoDop,
    /// Types of fixes are asked for, and no usual title is that of them.
    NoFixType,
    /// Two columns fit one usual title.
    OneTitle {
        first: usize,
        second: usize,
        title: &'a str,
    },
    /// Two columns of usual titles fit one role.
    OneRole {
        first: usize,
        second: usize,
        role: Role,
    },
    /// A column would be passed over that may change what is read.
    PassedOver {
        at: usize,
        what: PassedOver,
    },
    /// The animal was named, and there is a column of it.
    NamedAnimal {
        at: usize,
    },
    /// The first line says the separator, as `sep=;` does, and no titles.
    SeparatorLine,
    /// The title of a column of coordinates says another unit than metres, or than degrees.
    OtherUnit {
        at: usize,
        is_metres: bool,
    },
    /// The title of a column of coordinates says that they are counted to the west, or to the south. The other one of the two decides
    /// what a letter says.
    OtherSide {
        at: usize,
        other: usize,
        role: Role,
    },
    /// The title of a column of coordinates says the other one of the two.
    OtherAxis {
        at: usize,
        role: Role,
    },
    /// The title of a column of the time says a clock other than that of UTC, and no zone was named.
    LocalTime {
        at: usize,
    },
    /// The title of a column of the time says another clock than that of the zone that was named.
    OtherClock {
        at: usize,
        zone: &'a [u8],
    },
    /// The title of a column of the time says that of UTC, and another zone was named.
    UtcTime {
        at: usize,
        zone: &'a [u8],
    },
}

impl<'a, T: Drop> From<AllocFailed<T>> for TitleFault<'a> {
    fn from(_refused: AllocFailed<T>) -> TitleFault<'a> {
        TitleFault::OutOfMemory
    }
}

impl<'a> From<OutOfMemory> for TitleFault<'a> {
    fn from(_refused: OutOfMemory) -> TitleFault<'a> {
        TitleFault::OutOfMemory
    }
}

impl<'a> TitleFault<'a> {
    /// Its kind, where it is a refusal.
    pub fn kind(self) -> Option<FaultKind> {
        match self {
            TitleFault::OutOfMemory => None,
            TitleFault::HalfPair { .. }
            | TitleFault::OneColumn { .. }
            | TitleFault::TwoPairs
            | TitleFault::NamedAnimal { .. } => Some(FaultKind::Option),
            TitleFault::OneTitle { .. } | TitleFault::OneRole { .. } => Some(FaultKind::Ambiguous),
            TitleFault::TooManyColumns
            | TitleFault::NoColumn { .. }
            | TitleFault::NoCoordinates
            | TitleFault::NoArgosClass
            | TitleFault::NoDop
            | TitleFault::NoFixType
            | TitleFault::PassedOver { .. }
            | TitleFault::SeparatorLine
            | TitleFault::OtherUnit { .. }
            | TitleFault::OtherSide { .. }
            | TitleFault::OtherAxis { .. }
            | TitleFault::LocalTime { .. }
            | TitleFault::OtherClock { .. }
            | TitleFault::UtcTime { .. } => Some(FaultKind::Columns),
        }
    }
}
