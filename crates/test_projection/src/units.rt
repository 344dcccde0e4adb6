// Tests of metres in whole units. Expected ones are math.floor(units * metres + 0.5) in Python, whose numbers are the same.

use range_plane::Scale;
use split_projection::units_of;
use std::test::Fail;

#[test]
fn metres_are_rounded_to_whole_units(rt: HostRuntime) -> Result<(), Fail> {
    for (metres, in_metres, in_decimetres) in [
        (0.0, Some(0), Some(0)),
        (0.4, Some(0), Some(4)),
        (0.49999999999999994, Some(1), Some(5)),
        (0.5, Some(1), Some(5)),
        (0.05, Some(0), Some(1)),
        (0.049999999999999996, Some(0), Some(1)),
        (-0.5, Some(0), Some(-5)),
        (-0.05, Some(0), Some(0)),
        (-0.5000000000000001, Some(-1), Some(-5)),
        (-0.6, Some(-1), Some(-6)),
        (1.5, Some(2), Some(15)),
        (562000.275304, Some(562_000), Some(5_620_003)),
        (5134000.764846, Some(5_134_001), Some(51_340_008)),
        (-112954.927225, Some(-112_955), Some(-1_129_549)),
        (499999.5, Some(500_000), Some(4_999_995)),
        (499999.45, Some(499_999), Some(4_999_995)),
        (
            4503599627370497.5,
            Some(4_503_599_627_370_498),
            Some(45_035_996_273_704_976),
        ),
        (9223372036854774784.0, Some(9_223_372_036_854_774_784), None),
        (
            922337203685477478.4,
            Some(922_337_203_685_477_504),
            Some(9_223_372_036_854_774_784),
        ),
        (-9223372036854775808.0, Some(i64::MIN), None),
        (
            -922337203685477580.8,
            Some(-922_337_203_685_477_632),
            Some(i64::MIN),
        ),
        (9223372036854775808.0, None, None),
        (922337203685477580.8, Some(922_337_203_685_477_632), None),
        (-9223372036854777856.0, None, None),
        (1e308, None, None),
        (f64::INFINITY, None, None),
        (f64::NEG_INFINITY, None, None),
        (f64::NAN, None, None),
    ] {
        assert!(&rt;
            units_of(metres, Scale::Metre) == in_metres,
            "{metres} in metres"
        );
        assert!(&rt;
            units_of(metres, Scale::Decimetre) == in_decimetres,
            "{metres} in decimetres"
        );
    }
    Ok(())
}
