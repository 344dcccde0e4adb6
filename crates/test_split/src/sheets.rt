// Tables by their titles, and how their records are read.

use range_plane::Scale;
use split_filters::Filters;
use split_reading::Rules;
use split_titles::{Marks, Pair};

// The titles of a table, and how its records are read.
#[derive(Clone, Copy)]
pub(crate) struct Sheet {
    pub(crate) titles: &'static str,
    pub(crate) rules: Rules<'static, 'static>,
}

// No column of marks.
pub(crate) const NO_MARKS: Marks = Marks {
    usage: None,
    visible: None,
    manual_outlier: None,
    algorithm_outlier: None,
    import_outlier: None,
    manual_valid: None,
};

// No filter.
pub(crate) const NO_FILTERS: Filters<'static> = Filters {
    sensors: &[],
    classes: &[],
    most_dop: None,
    types: &[],
    since: None,
    until: None,
};

// A table that has what homerange takes.
pub(crate) const OWN: Sheet = Sheet {
    titles: "animal,second,easting,northing",
    rules: Rules {
        width: 4,
        missing: &[],
        has_commas: false,
        animal: &[0],
        name: b"animal",
        time: &[1],
        is_second: true,
        forms: None,
        clock: None,
        metres: Some(Pair {
            first: 2,
            second: 3,
        }),
        degrees: None,
        zone: None,
        marks: NO_MARKS,
        sensor: None,
        class: None,
        dop: None,
        fix_type: None,
        filters: NO_FILTERS,
        unit: Scale::Metre,
        skips_unnamed: false,
    },
};

// Such a table that has longitude and latitude too.
pub(crate) fn with_degrees() -> Sheet {
    Sheet {
        titles: "animal,second,utm-easting,utm-northing,location-long,location-lat",
        rules: Rules {
            width: 6,
            degrees: Some(Pair {
                first: 4,
                second: 5,
            }),
            ..OWN.rules
        },
    }
}

// Such a table that has the zone too.
pub(crate) fn with_zone() -> Sheet {
    Sheet {
        titles: "animal,second,utm-easting,utm-northing,utm-zone",
        rules: Rules {
            width: 5,
            zone: Some(4),
            ..OWN.rules
        },
    }
}

// Such a table that has the sensor too.
pub(crate) fn with_sensor() -> Sheet {
    Sheet {
        titles: "animal,second,easting,northing,sensor-type",
        rules: Rules {
            width: 5,
            sensor: Some(4),
            ..OWN.rules
        },
    }
}

// Such a table that has every mark but `use` too.
pub(crate) fn with_marks() -> Sheet {
    Sheet {
        titles: "animal,second,easting,northing,visible,manually-marked-outlier,algorithm-marked-outlier,import-marked-outlier,manually-marked-valid",
        rules: Rules {
            width: 9,
            marks: Marks {
                usage: None,
                visible: Some(4),
                manual_outlier: Some(5),
                algorithm_outlier: Some(6),
                import_outlier: Some(7),
                manual_valid: Some(8),
            },
            ..OWN.rules
        },
    }
}

// Such a table that has the column of usage too, beside a mark that is not read.
pub(crate) fn with_usage() -> Sheet {
    Sheet {
        titles: "animal,second,easting,northing,use,visible",
        rules: Rules {
            width: 6,
            marks: Marks {
                usage: Some(4),
                visible: Some(5),
                ..NO_MARKS
            },
            ..OWN.rules
        },
    }
}

// A table with times as texts.
pub(crate) fn with_texts() -> Sheet {
    Sheet {
        titles: "id,date,x,y",
        rules: Rules {
            is_second: false,
            ..OWN.rules
        },
    }
}

// A table of Movebank.
pub(crate) const MOVEBANK: Sheet = Sheet {
    titles: "event-id,visible,timestamp,location-long,location-lat,algorithm-marked-outlier,import-marked-outlier,manually-marked-outlier,manually-marked-valid,sensor-type,individual-local-identifier,utm-easting,utm-northing,utm-zone",
    rules: Rules {
        width: 14,
        missing: &[],
        has_commas: false,
        animal: &[10],
        name: b"animal",
        time: &[2],
        is_second: false,
        forms: None,
        clock: None,
        metres: Some(Pair {
            first: 11,
            second: 12,
        }),
        degrees: Some(Pair {
            first: 3,
            second: 4,
        }),
        zone: Some(13),
        marks: Marks {
            usage: None,
            visible: Some(1),
            manual_outlier: Some(7),
            algorithm_outlier: Some(5),
            import_outlier: Some(6),
            manual_valid: Some(8),
        },
        sensor: Some(9),
        class: None,
        dop: None,
        fix_type: None,
        filters: NO_FILTERS,
        unit: Scale::Metre,
        skips_unnamed: false,
    },
};
