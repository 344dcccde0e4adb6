// The presets of makers of collars: `python/homerange/collars.csv` has them too, and a test compares them.

ghost use Rattle.std.specs.Prelude.{◌≡◌, IfSome};
ghost use Rattle.split_titles.specs.Presets.{first_preset};

/// The maker whose exports are GPX.
pub const GPX: &str = "gpx";

/// The options by which the exports of a maker are read, as they are written on the command line. Columns are given by
/// their titles: several columns stand between commas, and titles of which a table has one between `|`.
#[derive(Clone, Copy, PartialEq, Eq, Debug)]
pub struct Preset {
    pub maker: &'static str,
    /// The start of the line of titles, where others stand before it.
    pub header: Option<&'static str>,
    /// The columns of the animal, of which the first that has a text counts.
    pub animal: Option<&'static str>,
    /// The columns of the time, which are joined by blanks.
    pub time: &'static str,
    /// The forms of times, between `|`; those without are ISO texts.
    pub time_format: Option<&'static str>,
    pub lon: &'static str,
    pub lat: &'static str,
    pub dop: Option<&'static str>,
    pub fix: Option<&'static str>,
    pub argos: Option<&'static str>,
    /// Words for what is missing, between commas.
    pub na: Option<&'static str>,
}

/// The presets of all makers.
pub const PRESETS: [Preset; 7] = [
    Preset {
        maker: "vectronic",
        header: None,
        animal: Some("AnimalID,CollarID"),
        time: "UTC_Date,UTC_Time",
        time_format: Some("%d.%m.%Y %H:%M:%S|%Y-%m-%d %H:%M:%S"),
        lon: "Longitude [deg]|Longitude [°]|Longitude[deg]|Longitude[°]|Longitude",
        lat: "Latitude [deg]|Latitude [°]|Latitude[deg]|Latitude[°]|Latitude",
        dop: Some("DOP"),
        fix: Some("FixType"),
        argos: None,
        na: Some("N/A"),
    },
    Preset {
        maker: "lotek",
        header: None,
        animal: Some("Device Name|Device_ID|Device ID|DeviceID,Device_ID|Device ID|DeviceID"),
        time: "Date & Time [GMT]",
        time_format: Some("%m/%d/%Y %I:%M:%S %p|%Y-%m-%d %H:%M:%S"),
        lon: "Longitude",
        lat: "Latitude",
        dop: Some("DOP"),
        fix: Some("Fix Status|FixStatus"),
        argos: None,
        na: None,
    },
    Preset {
        maker: "telonics",
        header: Some("Acquisition Time"),
        animal: None,
        time: "GPS Fix Time",
        time_format: Some("%Y.%m.%d %H:%M:%S"),
        lon: "GPS Longitude",
        lat: "GPS Latitude",
        dop: Some("GPS Horizontal Dilution"),
        fix: Some("GPS Fix Attempt"),
        argos: None,
        na: None,
    },
    Preset {
        maker: "eobs",
        header: None,
        animal: Some("tag-serial-number"),
        time: "timestamp-of-fix",
        time_format: None,
        lon: "longitude",
        lat: "latitude",
        dop: None,
        fix: Some("type-of-fix"),
        argos: None,
        na: None,
    },
    Preset {
        maker: "ornitela",
        header: None,
        animal: Some("device_id"),
        time: "UTC_datetime",
        time_format: None,
        lon: "Longitude",
        lat: "Latitude",
        dop: Some("hdop"),
        fix: None,
        argos: None,
        na: None,
    },
    Preset {
        maker: "argos",
        header: None,
        animal: Some("Platform ID No."),
        time: "Loc. date",
        time_format: Some("%Y/%m/%d %H:%M:%S"),
        lon: "Longitude",
        lat: "Latitude",
        dop: None,
        fix: None,
        argos: Some("Loc. quality"),
        na: None,
    },
    Preset {
        maker: GPX,
        header: None,
        animal: None,
        time: "time",
        time_format: None,
        lon: "lon",
        lat: "lat",
        dop: None,
        fix: None,
        argos: None,
        na: None,
    },
];

// The first of presets that is of a maker.
#[tactic(auto, unfolding(crate::specs::Presets::first_preset))]
fn first_preset(presets: &[Preset], maker: &str) -> Option<Preset>
    ensures value { result ≡ first_preset presets.now maker.now }
    ensures own { IfSome result (λ preset. preset.maker.now ≡ maker.now) }
{
    match presets.split_first() {
        None => None,
        Some((preset, _)) if preset.maker == maker => Some(*preset),
        Some((_, others)) => first_preset(others, maker),
    }
}

/// The preset of a maker; none where there is no such maker.
pub fn preset_of(maker: &str) -> Option<Preset>
    ensures { IfSome result (λ preset. preset.maker.now ≡ maker.now) }
{
    first_preset(&PRESETS, maker)
}
