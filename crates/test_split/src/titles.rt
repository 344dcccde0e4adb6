// Tests of which columns of a table are read. What is expected was told by the package for Python, but for rules that it
// does not have, which follow `docs/TABLES.md`.

use crate::told_titles::{NOTHING, expect_told, told_of};
use split_titles::{COLUMN_LIMIT, Named, TitleFault, find_columns};
use std::test::Fail;
use test_doubles::{MANY_ALLOCATIONS, Refusing};

#[test]
fn each_family_is_found(rt: HostRuntime) -> Result<(), Fail> {
    expect_told(
        &rt,
        rt.alloc(),
        &NOTHING,
        &[
            (
                "animal,second,easting,northing",
                "animal 0; time 1; second; metres 2 3; own",
            ),
            ("id,date,x,y", "animal 0; time 1; metres 2 3"),
            ("x_,y_,t_,id", "animal 3; time 2; metres 0 1"),
            (
                "individual-local-identifier,timestamp,utm-easting,utm-northing,utm-zone",
                "animal 0; time 1; metres 2 3; utm; zone 4",
            ),
            (
                "individual-local-identifier,timestamp,utm-easting,utm-northing,utm-zone,location-long,location-lat",
                "animal 0; time 1; metres 2 3; degrees 5 6; utm; zone 4",
            ),
            (
                "id,date,coords.x1,coords.x2",
                "animal 0; time 1; metres 2 3",
            ),
            (
                "individual-local-identifier,timestamp,location-long,location-lat",
                "animal 0; time 1; degrees 2 3",
            ),
            (
                "animals_id,acquisition_time,longitude,latitude",
                "animal 0; time 1; degrees 2 3",
            ),
            (
                "user_id,tracked_at,lon,lat",
                "animal 0; time 1; degrees 2 3",
            ),
            (
                "track.id,datetime,long,lat",
                "animal 0; time 1; degrees 2 3",
            ),
            ("traj id,Date Time,lng,lat", "animal 0; time 1; degrees 2 3"),
            ("trajectory-id,time,x,y", "animal 0; time 1; metres 2 3"),
            (
                "individual,timestamp,easting,northing",
                "animal 0; time 1; metres 2 3; own",
            ),
            ("individual:id,time,x_,y_", "animal 0; time 1; metres 2 3"),
            ("animal-id,t_,x,y", "animal 0; time 1; metres 2 3"),
            ("id,timestamp,lon,lat", "animal 0; time 1; degrees 2 3"),
        ],
    )
}

#[test]
fn titles_are_compared_without_capitals_and_signs(rt: HostRuntime) -> Result<(), Fail> {
    expect_told(
        &rt,
        rt.alloc(),
        &NOTHING,
        &[
            (
                "individual_local_identifier,timestamp,utm_easting,utm_northing,utm_zone",
                "animal 0; time 1; metres 2 3; utm; zone 4",
            ),
            (
                "individual.local.identifier,timestamp,utm.easting,utm.northing,utm.zone",
                "animal 0; time 1; metres 2 3; utm; zone 4",
            ),
            (
                "INDIVIDUAL LOCAL IDENTIFIER, Timestamp,UTM Easting ,utm Northing,UTM:ZONE",
                "animal 0; time 1; metres 2 3; utm; zone 4",
            ),
            ("\t id \t,\tdate,x\t, y", "animal 0; time 1; metres 2 3"),
            ("ID,Date,X,Y", "animal 0; time 1; metres 2 3"),
            ("i d,date,x,y", "time 1; metres 2 3; unread 0"),
            (
                "Coords X1,COORDS_X2,id,date",
                "animal 2; time 3; metres 0 1",
            ),
            ("tracK-id,time,x,y", "time 1; metres 2 3; unread 0"),
            ("ID\r,date,x,y", "time 1; metres 2 3; unread 0"),
        ],
    )
}

#[test]
fn exact_titles_go_first(rt: HostRuntime) -> Result<(), Fail> {
    expect_told(
        &rt,
        rt.alloc(),
        &NOTHING,
        &[
            ("X,id,date,x,y", "animal 1; time 2; metres 3 4; unread 0"),
            ("X,id,date,y", "animal 1; time 2; metres 0 3"),
            ("ID,id,date,x,y", "animal 1; time 2; metres 3 4; others 0"),
            (
                "id,date,X,Y,x,y",
                "animal 0; time 1; metres 4 5; unread 2 3",
            ),
            (
                "individual.local.identifier,timestamp,utm_easting,utm-easting,utm-northing,utm-zone",
                "animal 0; time 1; metres 3 4; utm; zone 5; unread 2",
            ),
            (
                "id,Date,DATE,date,x,y",
                "ambiguous: column 2 'Date' and column 4 'date' both fit date: rename one",
            ),
            (
                "animal,second,easting,northing,Use,use,USE",
                "ambiguous: column 5 'Use' and column 6 'use' both fit use: rename one",
            ),
            (
                " X ,id,date, x ,y",
                "animal 1; time 2; metres 3 4; unread 0",
            ),
        ],
    )
}

#[test]
fn metres_go_first_and_half_a_pair_is_none(rt: HostRuntime) -> Result<(), Fail> {
    expect_told(
        &rt,
        rt.alloc(),
        &NOTHING,
        &[
            (
                "animal,second,utm-easting,easting,northing",
                "animal 0; time 1; second; metres 3 4; own; unread 2",
            ),
            (
                "id,timestamp,longitude,latitude,x,y",
                "animal 0; time 1; metres 4 5; unread 2 3",
            ),
            ("second,easting,northing", "time 0; second; metres 1 2; own"),
            ("animal,easting,northing", "animal 0; metres 1 2; own"),
            ("x,y", "metres 0 1"),
            ("id,t_,x_,y_,date", "animal 0; time 1; metres 2 3; unread 4"),
            (
                "id,date,x,y,location-long,location-lat",
                "animal 0; time 1; metres 2 3; unread 4 5",
            ),
            (
                "id,time,lon,latitude,lat",
                "animal 0; time 1; degrees 2 4; unread 3",
            ),
        ],
    )
}

#[test]
fn marks_are_found(rt: HostRuntime) -> Result<(), Fail> {
    expect_told(
        &rt,
        rt.alloc(),
        &NOTHING,
        &[
            (
                "individual-local-identifier,timestamp,utm-easting,utm-northing,utm-zone,visible,manually-marked-outlier,algorithm-marked-outlier,import-marked-outlier,manually-marked-valid",
                "animal 0; time 1; metres 2 3; utm; zone 4; visible 5; manually-marked-outlier 6; algorithm-marked-outlier 7; import-marked-outlier 8; manually-marked-valid 9",
            ),
            (
                "animal,second,easting,northing,visible,use,manually_marked_outlier,outlier",
                "animal 0; time 1; second; metres 2 3; own; use 5; unread 4 6 7",
            ),
            (
                "id,date,x,y,Visible,import.marked.outlier",
                "animal 0; time 1; metres 2 3; visible 4; import-marked-outlier 5",
            ),
            (
                "id,date,x,y,algorithm marked outlier,manually:marked:valid",
                "animal 0; time 1; metres 2 3; algorithm-marked-outlier 4; manually-marked-valid 5",
            ),
        ],
    )
}

#[test]
fn sensors_and_classes_are_found(rt: HostRuntime) -> Result<(), Fail> {
    expect_told(
        &rt,
        rt.alloc(),
        &NOTHING,
        &[
            (
                "individual-local-identifier,timestamp,utm-easting,utm-northing,utm-zone,sensor-type",
                "animal 0; time 1; metres 2 3; utm; zone 4; sensor 5",
            ),
            (
                "individual-local-identifier,timestamp,utm-easting,utm-northing,utm-zone,sensor:type:id",
                "animal 0; time 1; metres 2 3; utm; zone 4; sensor 5; numbers",
            ),
            (
                "individual-local-identifier,timestamp,utm-easting,utm-northing,utm-zone,sensor-type-id,sensor-type",
                "animal 0; time 1; metres 2 3; utm; zone 4; sensor 6; unread 5",
            ),
            (
                "individual-local-identifier,timestamp,utm-easting,utm-northing,utm-zone,argos:lc,sensor-type",
                "animal 0; time 1; metres 2 3; utm; zone 4; sensor 6; argos 5",
            ),
            (
                "id,date,x,y,argos class",
                "animal 0; time 1; metres 2 3; argos 4",
            ),
            (
                "id,date,x,y,Loc. quality",
                "animal 0; time 1; metres 2 3; argos 4",
            ),
            (
                "id,date,x,y,location_quality",
                "animal 0; time 1; metres 2 3; argos 4",
            ),
            (
                "id,date,x,y,location-class",
                "animal 0; time 1; metres 2 3; argos 4",
            ),
        ],
    )
}

#[test]
fn what_is_not_asked_is_not_read(rt: HostRuntime) -> Result<(), Fail> {
    expect_told(
        &rt,
        rt.alloc(),
        &NOTHING,
        &[
            (
                "individual-local-identifier,timestamp,utm-easting,utm-northing,utm-zone,gps:dop,gps:fix-type,comment",
                "animal 0; time 1; metres 2 3; utm; zone 4; unread 5 6 7",
            ),
            (
                "id,date,x,y,hdop,pdop,fixstatus,fix-status",
                "animal 0; time 1; metres 2 3; unread 4 5 6 7",
            ),
        ],
    )
}

#[test]
fn dop_is_read_where_it_is_asked(rt: HostRuntime) -> Result<(), Fail> {
    expect_told(
        &rt,
        rt.alloc(),
        &Named {
            has_max_dop: true,
            ..NOTHING
        },
        &[
            ("id,date,x,y,gps-dop", "animal 0; time 1; metres 2 3; dop 4"),
            ("id,date,x,y,dop", "animal 0; time 1; metres 2 3; dop 4"),
            (
                "id,date,x,y,gps-hdop",
                "animal 0; time 1; metres 2 3; dop 4",
            ),
            ("id,date,x,y,hdop", "animal 0; time 1; metres 2 3; dop 4"),
            ("id,date,x,y,PDOP", "animal 0; time 1; metres 2 3; dop 4"),
            (
                "individual-local-identifier,timestamp,utm-easting,utm-northing,utm-zone,gps:dop,gps:fix-type",
                "animal 0; time 1; metres 2 3; utm; zone 4; dop 5; unread 6",
            ),
        ],
    )
}

#[test]
fn types_of_fixes_are_read_where_they_are_asked(rt: HostRuntime) -> Result<(), Fail> {
    expect_told(
        &rt,
        rt.alloc(),
        &Named {
            has_fix_type: true,
            ..NOTHING
        },
        &[
            (
                "id,date,x,y,gps-fix-type",
                "animal 0; time 1; metres 2 3; fix 4",
            ),
            (
                "id,date,x,y,fix_type",
                "animal 0; time 1; metres 2 3; fix 4",
            ),
            ("id,date,x,y,fixtype", "animal 0; time 1; metres 2 3; fix 4"),
            (
                "id,date,x,y,fix status",
                "animal 0; time 1; metres 2 3; fix 4",
            ),
            (
                "id,date,x,y,fixstatus",
                "animal 0; time 1; metres 2 3; fix 4",
            ),
            (
                "id,date,x,y,type of fix",
                "animal 0; time 1; metres 2 3; fix 4",
            ),
            (
                "individual-local-identifier,timestamp,utm-easting,utm-northing,utm-zone,gps:dop,gps:fix-type",
                "animal 0; time 1; metres 2 3; utm; zone 4; fix 6; unread 5",
            ),
        ],
    )
}

// Those that only come to the title of the one that is taken are no others.
#[test]
fn other_usual_titles_of_the_animal_are_listed(rt: HostRuntime) -> Result<(), Fail> {
    expect_told(
        &rt,
        rt.alloc(),
        &NOTHING,
        &[
            (
                "animal,id,date,x,y",
                "animal 1; time 2; metres 3 4; others 0",
            ),
            (
                "id,animal,second,easting,northing",
                "animal 1; time 2; second; metres 3 4; own; others 0",
            ),
            (
                "id,individual_local_identifier,date,x,y",
                "animal 1; time 2; metres 3 4; others 0",
            ),
            (
                "User ID,individual,x,y,date,id,comment,animal_id",
                "animal 5; time 4; metres 2 3; others 0 1 7; unread 6",
            ),
            (
                "individual-local-identifier,timestamp,utm-easting,utm-northing,utm-zone,track-id,trajectory_id,traj.id,Animal",
                "animal 0; time 1; metres 2 3; utm; zone 4; others 5 6 7 8",
            ),
            (
                "id,ID,Individual.ID,animals-id,date,x,y",
                "animal 0; time 4; metres 5 6; others 1 2 3",
            ),
        ],
    )
}

#[test]
fn the_first_title_of_the_animal_is_taken_where_no_family_decides(
    rt: HostRuntime,
) -> Result<(), Fail> {
    expect_told(
        &rt,
        rt.alloc(),
        &NOTHING,
        &[
            (
                "id,individual,timestamp,lon,lat",
                "animal 0; time 2; degrees 3 4; others 1",
            ),
            (
                "individual,timestamp,id,longitude,latitude",
                "animal 0; time 1; degrees 3 4; others 2",
            ),
            (
                "height,track-id,animal_id,timestamp,utm-easting,utm-northing,utm-zone",
                "animal 1; time 3; metres 4 5; utm; zone 6; others 2; unread 0",
            ),
            (
                "Id,animal,ID,timestamp,lon,lat",
                "ambiguous: column 1 'Id' and column 3 'ID' both fit id: rename one",
            ),
        ],
    )
}

#[test]
fn named_columns_are_taken(rt: HostRuntime) -> Result<(), Fail> {
    let named = Named {
        animal: &[b"Tier"],
        time: &[b"Zeit"],
        easting: Some(b"Ost"),
        northing: Some(b"Nord"),
        ..NOTHING
    };
    expect_told(
        &rt,
        rt.alloc(),
        &named,
        &[("Tier,Zeit,Ost,Nord", "animal 0; time 1; metres 2 3")],
    )?;
    let named = Named {
        animal: &[b"x| Tier|id", b"id"],
        time: &[b"Tag", b"Uhr"],
        lon: Some(b"b|a"),
        lat: Some(b"a"),
        ..NOTHING
    };
    expect_told(
        &rt,
        rt.alloc(),
        &named,
        &[("Tag,Uhr,a,b,Tier,id", "animal 4 5; time 0 1; degrees 3 2")],
    )
}

#[test]
fn named_coordinates_go_before_usual_ones(rt: HostRuntime) -> Result<(), Fail> {
    let named = Named {
        easting: Some(b"utm-easting"),
        northing: Some(b"utm-northing"),
        ..NOTHING
    };
    expect_told(
        &rt,
        rt.alloc(),
        &named,
        &[(
            "individual-local-identifier,timestamp,utm-easting,utm-northing,utm-zone,location-long,location-lat",
            "animal 0; time 1; metres 2 3; utm; zone 4; unread 5 6",
        )],
    )?;
    let named = Named {
        lon: Some(b"location-long"),
        lat: Some(b"location-lat"),
        ..NOTHING
    };
    expect_told(
        &rt,
        rt.alloc(),
        &named,
        &[(
            "individual-local-identifier,timestamp,utm-easting,utm-northing,utm-zone,location-long,location-lat",
            "animal 0; time 1; degrees 5 6; unread 2 3 4",
        )],
    )?;
    let named = Named {
        easting: Some(b"x"),
        northing: Some(b"y"),
        ..NOTHING
    };
    expect_told(
        &rt,
        rt.alloc(),
        &named,
        &[(
            "id,date,x,y,easting,northing",
            "animal 0; time 1; metres 2 3; unread 4 5",
        )],
    )
}

#[test]
fn named_animals_and_times_go_before_usual_ones(rt: HostRuntime) -> Result<(), Fail> {
    let named = Named {
        animal: &[b"individual"],
        ..NOTHING
    };
    expect_told(
        &rt,
        rt.alloc(),
        &named,
        &[(
            "id,individual,timestamp,utm-easting,utm-northing,utm-zone",
            "animal 1; time 2; metres 3 4; utm; zone 5; unread 0",
        )],
    )?;
    let named = Named {
        time: &[b"date", b"time"],
        ..NOTHING
    };
    expect_told(
        &rt,
        rt.alloc(),
        &named,
        &[("id,date,time,x,y", "animal 0; time 1 2; metres 3 4")],
    )?;
    let named = Named {
        time: &[b"second"],
        ..NOTHING
    };
    expect_told(
        &rt,
        rt.alloc(),
        &named,
        &[(
            "animal,second,timestamp,easting,northing",
            "animal 0; time 1; second; metres 3 4; own; unread 2",
        )],
    )?;
    let named = Named {
        time: &[b"timestamp"],
        ..NOTHING
    };
    expect_told(
        &rt,
        rt.alloc(),
        &named,
        &[(
            "animal,second,timestamp,easting,northing",
            "animal 0; time 2; metres 3 4; own; unread 1",
        )],
    )
}

#[test]
fn named_columns_of_filters_are_taken(rt: HostRuntime) -> Result<(), Fail> {
    let named = Named {
        dop: Some(b"PDOP"),
        fix: Some(b"Status"),
        has_max_dop: true,
        has_fix_type: true,
        ..NOTHING
    };
    expect_told(
        &rt,
        rt.alloc(),
        &named,
        &[(
            "individual-local-identifier,timestamp,utm-easting,utm-northing,utm-zone,PDOP,Status",
            "animal 0; time 1; metres 2 3; utm; zone 4; dop 5; fix 6",
        )],
    )?;
    let named = Named {
        dop: Some(b"hdop"),
        has_max_dop: true,
        ..NOTHING
    };
    expect_told(
        &rt,
        rt.alloc(),
        &named,
        &[(
            "id,date,x,y,dop,hdop",
            "animal 0; time 1; metres 2 3; dop 5; unread 4",
        )],
    )?;
    let named = Named {
        dop: Some(b"dop"),
        fix: Some(b"x"),
        ..NOTHING
    };
    expect_told(
        &rt,
        rt.alloc(),
        &named,
        &[("id,date,x,y,dop", "animal 0; time 1; metres 2 3; unread 4")],
    )
}

#[test]
fn named_columns_may_have_titles_of_classes_and_marks(rt: HostRuntime) -> Result<(), Fail> {
    let named = Named {
        argos: Some(b"lc"),
        ..NOTHING
    };
    expect_told(
        &rt,
        rt.alloc(),
        &named,
        &[("id,date,x,y,lc", "animal 0; time 1; metres 2 3; argos 4")],
    )?;
    let named = Named {
        argos: Some(b"class"),
        ..NOTHING
    };
    expect_told(
        &rt,
        rt.alloc(),
        &named,
        &[(
            "id,date,x,y,argos-lc,class",
            "animal 0; time 1; metres 2 3; argos 5; unread 4",
        )],
    )?;
    let named = Named {
        animal: &[b"class"],
        argos: Some(b"lc"),
        ..NOTHING
    };
    expect_told(
        &rt,
        rt.alloc(),
        &named,
        &[("class,date,x,y,lc", "animal 0; time 1; metres 2 3; argos 4")],
    )?;
    let named = Named {
        animal: &[b"outlier"],
        ..NOTHING
    };
    expect_told(
        &rt,
        rt.alloc(),
        &named,
        &[("outlier,date,x,y", "animal 0; time 1; metres 2 3")],
    )
}

#[test]
fn a_table_has_at_most_so_many_columns(rt: HostRuntime) -> Result<(), Fail> {
    let mut titles = Vec::from_slice(rt.alloc(), &[b"x".as_slice(), b"y"])?;
    for _column in 2..16_384 {
        titles.push(b"".as_slice()).ok();
    }
    assert!(&rt; titles.len() == COLUMN_LIMIT, "as many as a table may have");
    assert!(&rt;
        find_columns(rt.alloc(), &titles, &NOTHING).is_ok(),
        "so many"
    );
    titles.push(b"".as_slice()).ok();
    let text = told_of(rt.alloc(), &titles, &NOTHING)?;
    let expected =
        b"columns: has 16385 columns, and a table may have 16384: is its separator another?";
    assert!(&rt; text.as_slice() == expected.as_slice(), "one more");
    Ok(())
}

#[test]
fn each_allocation_may_fail(rt: HostRuntime) -> Result<(), Fail> {
    let titles = [
        b"animal".as_slice(),
        b"id",
        b"individual",
        b"date",
        b"x",
        b"y",
    ];
    let mut is_refused = false;
    for number in 1..MANY_ALLOCATIONS {
        let refusing = Refusing::new(rt.alloc(), number);
        let answer = find_columns(&refusing, &titles, &NOTHING);
        if answer.is_ok() {
            assert!(&rt; !refusing.has_refused(), "at allocation {number}");
            break;
        }
        assert!(&rt; refusing.has_refused(), "at allocation {number}");
        assert!(&rt; answer.err() == Some(TitleFault::OutOfMemory), "the fault");
        is_refused = true;
    }
    assert!(&rt; is_refused, "none was refused");
    Ok(())
}
