// Tests of the numbers of zones. Expected ones are int((longitude + 180) // 6) % 60 + 1 in Python, of fractions.

use split_projection::zone_number;
use std::test::Fail;

#[test]
fn a_zone_is_that_of_the_longitude(rt: HostRuntime) -> Result<(), Fail> {
    for (longitude, number) in [
        (-180_000_000_000_000, 1),
        (-179_999_999_999_999, 1),
        (-180_000_000_000_001, 60),
        (180_000_000_000_000, 1),
        (179_999_999_999_999, 60),
        (180_000_000_000_001, 1),
        (-174_000_000_000_000, 2),
        (-174_000_000_000_001, 1),
        (174_000_000_000_000, 60),
        (173_999_999_999_999, 59),
        (0, 31),
        (-1, 30),
        (1, 31),
        (6_000_000_000_000, 32),
        (5_999_999_999_999, 31),
        (15_805_899_000_000, 33),
        (-122_419_400_000_000, 10),
        (540_000_000_000_000, 1),
        (-540_000_000_000_000, 1),
        (-540_000_000_000_001, 60),
        (i64::MAX, 59),
        (i64::MIN, 2),
    ] {
        assert!(&rt; zone_number(longitude) == number, "{longitude}");
    }
    Ok(())
}
