// What was named in options.

/// The titles that were named in options, each of which may be several with `|` between them; and which options ask for a
/// column.
#[derive(Clone, Copy)]
pub struct Named<'a> {
    /// None where the animal was not named.
    pub animal: &'a [&'a [u8]],
    /// None where the time was not named.
    pub time: &'a [&'a [u8]],
    pub easting: Option<&'a [u8]>,
    pub northing: Option<&'a [u8]>,
    pub lon: Option<&'a [u8]>,
    pub lat: Option<&'a [u8]>,
    pub argos: Option<&'a [u8]>,
    pub dop: Option<&'a [u8]>,
    pub fix: Option<&'a [u8]>,
    /// The time zone by whose clock times are read that name none; none where it was not named.
    pub zone: Option<&'a [u8]>,
    /// Whether the one animal of a table without a column of it was named (`--name`).
    pub has_name: bool,
    /// Whether the option `--argos-class` is there, and fixes without a class are none of those that it takes.
    pub has_argos_class: bool,
    /// Whether the option `--max-dop` is there, without which no DOP is read.
    pub has_max_dop: bool,
    /// Whether the option `--fix-type` is there, without which no type of fixes is read.
    pub has_fix_type: bool,
}

/// What a column may be named for.
#[derive(Clone, Copy, PartialEq, Eq, Debug)]
pub enum Role {
    Animal,
    Time,
    Easting,
    Northing,
    Longitude,
    Latitude,
    Argos,
    Dop,
    FixType,
}

impl Role {
    // The option that names the column, without its hyphens.
    pub(crate) fn option(self) -> &'static str {
        match self {
            Role::Animal => "animal",
            Role::Time => "time",
            Role::Easting => "easting",
            Role::Northing => "northing",
            Role::Longitude => "lon",
            Role::Latitude => "lat",
            Role::Argos => "argos",
            Role::Dop => "dop",
            Role::FixType => "fix",
        }
    }

    // What a refusal calls it.
    pub(crate) fn words(self) -> &'static str {
        match self {
            Role::Animal => "the animal",
            Role::Time => "the time",
            Role::Easting => "the easting",
            Role::Northing => "the northing",
            Role::Longitude => "the longitude",
            Role::Latitude => "the latitude",
            Role::Argos => "the Argos class",
            Role::Dop => "the DOP",
            Role::FixType => "the fix type",
        }
    }
}
