// The kinds of refusals.

/// The kinds of refusals, as `docs/TABLES.md` has them.
#[derive(Clone, Copy, PartialEq, Eq, Debug)]
pub enum Kind {
    /// No file, no text in its encoding, a byte 0, or quotes that are wrong.
    Text,
    /// A record of more or fewer fields than there are titles.
    Fields,
    /// A column that is needed or named is not there, or there are too many.
    Columns,
    /// Two columns fit.
    Ambiguous,
    /// An option cannot be right.
    Option,
    /// A coordinate is no number.
    Number,
    /// A record without an animal.
    Animal,
    /// A name that cannot be right, or two that come out the same.
    Name,
    /// Every animal has one fix.
    OneFix,
    /// Neither true nor false.
    Mark,
    /// No time, or not one.
    Time,
    /// No zone, several, or not in the one form.
    Zone,
    /// Degrees instead of metres.
    Degrees,
    /// Off the grid, or wider than it.
    Grid,
    /// Areas are wrong by more than a hundredth.
    Scale,
    /// Several sensors, or none of the wanted type.
    Sensor,
    /// Argos without a choice of classes.
    Argos,
    /// No record, or no fix is left.
    Empty,
    /// There is not enough memory.
    Memory,
    /// What this program does not read yet.
    Unread,
    /// The folder cannot be written.
    Output,
}

impl Kind {
    /// Its word.
    pub fn word(self) -> &'static str {
        match self {
            Kind::Text => "text",
            Kind::Fields => "fields",
            Kind::Columns => "columns",
            Kind::Ambiguous => "ambiguous",
            Kind::Option => "option",
            Kind::Number => "number",
            Kind::Animal => "animal",
            Kind::Name => "name",
            Kind::OneFix => "onefix",
            Kind::Mark => "mark",
            Kind::Time => "time",
            Kind::Zone => "zone",
            Kind::Degrees => "degrees",
            Kind::Grid => "grid",
            Kind::Scale => "scale",
            Kind::Sensor => "sensor",
            Kind::Argos => "argos",
            Kind::Empty => "empty",
            Kind::Memory => "memory",
            Kind::Unread => "unread",
            Kind::Output => "output",
        }
    }

    /// The status with which the program ends.
    pub fn status(self) -> u8 {
        match self {
            Kind::Option => 2,
            Kind::Memory => 3,
            Kind::Output => 4,
            _ => 1,
        }
    }
}
