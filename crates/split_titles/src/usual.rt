// The usual titles of columns, and the families of tables that have them.

use crate::lookup::is_usual;

/// The most columns of a table, as many as spreadsheets have.
pub const COLUMN_LIMIT: usize = 16_384;

const LOCAL_IDENTIFIER: &str = "individual-local-identifier";

const ANIMAL: &str = "animal";

const ID: &str = "id";

const TIMESTAMP: &str = "timestamp";

pub(crate) const SECOND: &str = "second";

const TIME_OF_AMT: &str = "t_";

pub(crate) const DATE: &str = "date";

pub(crate) const TIME: &str = "time";

pub(crate) const UTM_EASTING: &str = "utm-easting";

pub(crate) const UTM_NORTHING: &str = "utm-northing";

pub(crate) const UTM_ZONE: &str = "utm-zone";

const LAT: &str = "lat";

pub(crate) const ANIMALS: [&str; 12] = [
    LOCAL_IDENTIFIER,
    ANIMAL,
    ID,
    "animal-id",
    "animalid",
    "animals-id",
    "individual-id",
    "individual",
    "traj-id",
    "trajectory-id",
    "track-id",
    "user-id",
];

pub(crate) const TIMES: [&str; 9] = [
    TIMESTAMP,
    SECOND,
    TIME_OF_AMT,
    DATE,
    TIME,
    "datetime",
    "date-time",
    "acquisition-time",
    "tracked-at",
];
// Those of them that have moments, beside which a column of seconds may be one of a minute.
pub(crate) const MOMENTS: [&str; 8] = [
    TIMESTAMP,
    TIME_OF_AMT,
    DATE,
    TIME,
    "datetime",
    "date-time",
    "acquisition-time",
    "tracked-at",
];
// Titles of other parts of a time, of which a column of seconds may be one too.
pub(crate) const CLOCK_PARTS: [&str; 2] = ["minute", "hour"];
// Longitude and latitude of Movebank.
pub(crate) const LOCATION: (&str, &str) = ("location-long", "location-lat");

pub(crate) const DEGREES: [(&str, &str); 5] = [
    LOCATION,
    ("longitude", "latitude"),
    ("lon", LAT),
    ("long", LAT),
    ("lng", LAT),
];

pub(crate) const USE: &str = "use";

pub(crate) const VISIBLE: &str = "visible";

pub(crate) const MANUAL_OUTLIER: &str = "manually-marked-outlier";

pub(crate) const ALGORITHM_OUTLIER: &str = "algorithm-marked-outlier";

pub(crate) const IMPORT_OUTLIER: &str = "import-marked-outlier";

pub(crate) const MANUAL_VALID: &str = "manually-marked-valid";
// Words of titles of marks.
pub(crate) const MARK_WORDS: [&str; 76] = [
    "outlier",
    "outliers",
    "outlying",
    "isoutlier",
    "isoutliers",
    "valid",
    "isvalid",
    "invalid",
    "isinvalid",
    "visible",
    "isvisible",
    "invisible",
    "ausreisser",
    "ausreißer",
    "valide",
    "valido",
    "aberrant",
    "valida",
    "invalido",
    "inválida",
    "invalide",
    "gültig",
    "ungültig",
    "gueltig",
    "ungueltig",
    "avvikare",
    "avvikande",
    "avviker",
    "avvikende",
    "uitbijter",
    "uitbijters",
    "uitschieter",
    "uitschieters",
    "geldig",
    "ongeldig",
    "gyldig",
    "ugyldig",
    "giltig",
    "ogiltig",
    "platný",
    "platná",
    "platné",
    "neplatný",
    "neplatná",
    "neplatné",
    "ważny",
    "ważne",
    "nieważny",
    "nieważne",
    "veljaven",
    "veljavna",
    "veljavno",
    "neveljaven",
    "neveljavna",
    "osamelec",
    "odlehlá",
    "odlehlý",
    "odľahlá",
    "odstający",
    "odstająca",
    "kiugró",
    "érvényes",
    "érvénytelen",
    "poikkeava",
    "aykırı",
    "geçerli",
    "geçersiz",
    "aberrante",
    "atípico",
    "atípica",
    "anómalo",
    "anómala",
    "valabil",
    "выброс",
    "выбросы",
    "действителен",
];
// Words of titles of what else is visible.
pub(crate) const SATELLITE_WORDS: [&str; 6] = [
    "sat",
    "sats",
    "satellite",
    "satellites",
    "sv",
    "svs",
];
// Titles of Movebank with such a word, which are no marks: how Argos chose among places, and what was written of a mark.
pub(crate) const NO_MARKS: [&str; 3] = [
    "argos-valid-location-algorithm",
    "argos-valid-location-manual",
    "outlier-comments",
];

pub(crate) const SENSOR: &str = "sensor-type";

pub(crate) const SENSOR_NUMBER: &str = "sensor-type-id";

pub(crate) const ARGOS_CLASSES: [&str; 5] = [
    "argos-lc",
    "argos-class",
    "loc. quality",
    "location-quality",
    "location-class",
];
// Titles that classes of Argos have too, and other classes; of the first two, as those of land, their cells tell.
pub(crate) const ODD_CLASSES: [&str; 6] = [
    "lc",
    "class",
    "argos-loc-class",
    "argos-location-class",
    "loc-class",
    "locationclass",
];

pub(crate) const LOCATION_CLASSES: [&str; 4] = [
    "argos-loc-class",
    "argos-location-class",
    "loc-class",
    "locationclass",
];

pub(crate) const DOPS: [&str; 5] = ["gps-dop", "dop", "gps-hdop", "hdop", "pdop"];

pub(crate) const FIX_TYPES: [&str; 6] = [
    "gps-fix-type",
    "fix-type",
    "fixtype",
    "fix-status",
    "fixstatus",
    "type-of-fix",
];

/// Whether a title is a usual one of the animal.
pub fn is_of_animal(title: &[u8]) -> bool {
    is_usual(title, &ANIMALS)
}

// Tables of one kind, by the titles of their metres.
#[derive(Clone, Copy, PartialEq, Eq, Debug)]
pub(crate) enum Family {
    Movebank,
    Homerange,
    Amt,
    Adehabitat,
    Sp,
}

pub(crate) const FAMILIES: [Family; 5] = [
    Family::Movebank,
    Family::Homerange,
    Family::Amt,
    Family::Adehabitat,
    Family::Sp,
];

impl Family {
    // Its title of the animal.
    pub(crate) fn animal(self) -> &'static str {
        match self {
            Family::Movebank => LOCAL_IDENTIFIER,
            Family::Homerange => ANIMAL,
            Family::Amt | Family::Adehabitat | Family::Sp => ID,
        }
    }

    // Its title of the time.
    pub(crate) fn time(self) -> &'static str {
        match self {
            Family::Movebank => TIMESTAMP,
            Family::Homerange => SECOND,
            Family::Amt => TIME_OF_AMT,
            Family::Adehabitat | Family::Sp => DATE,
        }
    }

    // Whether its title of the time often is that of the day alone.
    pub(crate) fn has_days(self) -> bool {
        match self {
            Family::Movebank | Family::Homerange | Family::Amt => false,
            Family::Adehabitat | Family::Sp => true,
        }
    }

    // Its titles of easting and northing.
    pub(crate) fn metres(self) -> (&'static str, &'static str) {
        match self {
            Family::Movebank => (UTM_EASTING, UTM_NORTHING),
            Family::Homerange => ("easting", "northing"),
            Family::Amt => ("x_", "y_"),
            Family::Adehabitat => ("x", "y"),
            Family::Sp => ("coords.x1", "coords.x2"),
        }
    }
}
