// Tests of times and names that stand in several columns, of forms of times, and of numbers. Expected values are counted by hand.

use crate::sheets::{OWN, Sheet, with_texts};
use crate::told_records::{expect_fault, expect_told};
use split_reading::{CellFault, Rules};
use split_times::{FormFault, Forms, TimeFault};
use split_titles::Pair;
use std::test::Fail;

// A table with the name of an animal in two columns, and its time in two others, of these forms.
fn with_forms(forms: &'static [u8]) -> Result<Sheet, FormFault> {
    Ok(Sheet {
        titles: "name,tag,day,hour,easting,northing",
        rules: Rules {
            width: 6,
            animal: &[0, 1],
            time: &[2, 3],
            is_second: false,
            forms: Some(Forms::new(forms)?),
            metres: Some(Pair {
                first: 4,
                second: 5,
            }),
            ..OWN.rules
        },
    })
}

#[test]
fn seconds_may_have_decimals(rt: HostRuntime) -> Result<(), Fail> {
    expect_told(
        &rt,
        rt.alloc(),
        &OWN,
        "fox,1.5,1,2\nfox,2.,3,4\nfox,1099511627776.25,5,6\n",
        "[fox] | [] \
            | 0/0 1+500000000: 1 2\
            ; 0/0 2: 3 4\
            ; 0/0 1099511627776+250000000: 5 6",
    )
}

#[test]
fn numbers_are_seconds_since_1970(rt: HostRuntime) -> Result<(), Fail> {
    expect_told(
        &rt,
        rt.alloc(),
        &with_texts(),
        "fox,1714523404,1,2\nfox,1714523404.25,3,4\nfox,2024-05-01 00:30:05,5,6\n",
        "[fox] | [] \
            | 0/0 1714523404: 1 2\
            ; 0/0 1714523404+250000000: 3 4\
            ; 0/0 1714523405: 5 6",
    )
}

// The first name that is there counts, and a time is what both columns have, with a blank between.
#[test]
fn names_and_times_may_stand_in_several_columns(rt: HostRuntime) -> Result<(), Fail> {
    expect_told(
        &rt,
        rt.alloc(),
        &with_forms(b"%d.%m.%Y %H:%M:%S|%Y-%m-%d %H:%M")?,
        "fox,7,1.5.2024,00:30:04,1,2\n,7,2024-05-01,00:31,3,4\n",
        "[fox][7] | [] | 0/0 1714523404: 1 2; 1/0 1714523460: 3 4",
    )
}

#[test]
fn times_of_several_columns_are_there_or_refused(rt: HostRuntime) -> Result<(), Fail> {
    let alloc = rt.alloc();
    let sheet = with_forms(b"%Y-%m-%d %H:%M")?;
    for (record, fault) in [
        ("fox,7,2024-05-01,,1,2", CellFault::NoTime),
        ("fox,7,NA,00:31,1,2", CellFault::NoTime),
        (
            "fox,7,2024-05-01,00:60,1,2",
            CellFault::Time {
                fault: TimeFault::NotTime,
            },
        ),
        (",,2024-05-01,00:31,1,2", CellFault::NoAnimal),
    ] {
        expect_fault(&rt, alloc, &sheet, record, 1, fault)?;
    }
    Ok(())
}
