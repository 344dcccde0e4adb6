// Tests of the text of the record of tracks. What is expected was written by `record.py` of the package for Python, and
// checksums were computed by `hashlib`.

use range_plane::Scale;
use split_reading::Zone;
use split_record::{ExportRead, Left, OptionGiven, Record, TrackMade, record_text, sum_of};
use split_tracks::Reason;
use std::process::Abort;
use std::test::Fail;
use test_doubles::{MANY_ALLOCATIONS, Refusing};

// The checksums of `export`, `vixen` and `old boar`.
const EXPORT: [u8; 64] = *b"d46aee08cc49f6d1eb41800c1d6bab4506c960c700cff0efffe490d7cb1de5e3";

const VIXEN: [u8; 64] = *b"9cf90bef112438f2194b5265ced5b68a45f8ab7fde95c8b65e9072a0e16cc96c";

const BOAR: [u8; 64] = *b"12070a74d292604b939978fc0de24a5e02e6293ecac4af595a0e2c997a41bdb9";

// A record with no line that may be missing.
const LEAST: Record<'static> = Record {
    exports: &[ExportRead {
        name: b"x",
        sum: EXPORT,
    }],
    unit: Scale::Metre,
    zone: None,
    shift: (0, 0),
    options: &[],
    said: &[],
    left: &[],
    tracks: &[],
    tool: b"t",
};

// One with all kinds of lines.
const FULL: Record<'static> = Record {
    exports: &[ExportRead {
        name: b"foxes.csv",
        sum: EXPORT,
    }],
    unit: Scale::Decimetre,
    zone: Some(Zone {
        number: 33,
        is_south: false,
    }),
    shift: (-500_000, 1_000_000),
    options: &[
        OptionGiven {
            name: b"animal",
            value: Some(b"name"),
        },
        OptionGiven {
            name: b"mark",
            value: Some(b"C:\\a\x1B[0m\xE2\x80\xA8b"),
        },
        OptionGiven {
            name: b"skip-unnamed",
            value: None,
        },
        OptionGiven {
            name: b"type",
            value: Some(b"3D, \"x\""),
        },
    ],
    said: &[
        b"read 5 records",
        b"animal is 'a\\b', tab\x09here, \xE2\x80\xA9 \xC2\x85 f\xC3\xBCchse",
    ],
    left: &[
        Left {
            name: b"",
            count: 2,
            reason: Reason::Animal,
        },
        Left {
            name: b"vixen",
            count: 3,
            reason: Reason::NoDop,
        },
        Left {
            name: b"vixen",
            count: 1,
            reason: Reason::Every,
        },
    ],
    tracks: &[
        TrackMade {
            name: b"vixen",
            records: 12,
            used: 11,
            sum: VIXEN,
        },
        TrackMade {
            name: b"old boar",
            records: 1,
            used: 1,
            sum: BOAR,
        },
    ],
    tool: b"split 1.2.0,d46aee08cc49f6d1eb41800c1d6bab4506c960c700cff0efffe490d7cb1de5e3",
};

#[test]
fn a_record_has_its_lines_in_their_order(rt: HostRuntime) -> Result<(), Fail> {
    let text = record_text(rt.alloc(), &FULL)?;
    let expected = b"export,foxes.csv\n\
        sha256,d46aee08cc49f6d1eb41800c1d6bab4506c960c700cff0efffe490d7cb1de5e3\n\
        unit,dm\n\
        zone,33N\n\
        shift,-500000,1000000\n\
        option,animal,name\n\
        option,mark,C:\\\\a\\x1b[0m\\u2028b\n\
        option,skip-unnamed\n\
        option,type,3D, \"x\"\n\
        said,read 5 records\n\
        said,animal is 'a\\b', tab\\x09here, \\u2029 \\x85 f\xC3\xBCchse\n\
        left,,2,animal\n\
        left,vixen,3,no dop\n\
        left,vixen,1,every\n\
        track,vixen,12,11,9cf90bef112438f2194b5265ced5b68a45f8ab7fde95c8b65e9072a0e16cc96c\n\
        track,old boar,1,1,12070a74d292604b939978fc0de24a5e02e6293ecac4af595a0e2c997a41bdb9\n\
        tool,split 1.2.0,d46aee08cc49f6d1eb41800c1d6bab4506c960c700cff0efffe490d7cb1de5e3\n";
    assert!(&rt; text.as_slice() == expected.as_slice(), "with all lines");
    let text = record_text(rt.alloc(), &LEAST)?;
    let expected = b"export,x\n\
        sha256,d46aee08cc49f6d1eb41800c1d6bab4506c960c700cff0efffe490d7cb1de5e3\n\
        unit,m\n\
        zone,none\n\
        tool,t\n";
    assert!(&rt; text.as_slice() == expected.as_slice(), "with the least");
    Ok(())
}

#[test]
fn each_export_has_its_lines(rt: HostRuntime) -> Result<(), Fail> {
    let record = Record {
        exports: &[
            ExportRead {
                name: b"2023.csv",
                sum: VIXEN,
            },
            ExportRead {
                name: b"2024.csv",
                sum: BOAR,
            },
        ],
        ..LEAST
    };
    let text = record_text(rt.alloc(), &record)?;
    let expected = b"export,2023.csv\n\
        sha256,9cf90bef112438f2194b5265ced5b68a45f8ab7fde95c8b65e9072a0e16cc96c\n\
        export,2024.csv\n\
        sha256,12070a74d292604b939978fc0de24a5e02e6293ecac4af595a0e2c997a41bdb9\n\
        unit,m\n\
        zone,none\n\
        tool,t\n";
    assert!(&rt; text.as_slice() == expected.as_slice(), "two exports");
    Ok(())
}

#[test]
fn no_text_forges_a_line(rt: HostRuntime) -> Result<(), Fail> {
    let record = Record {
        exports: &[ExportRead {
            name: b"a\ntool,x",
            sum: EXPORT,
        }],
        zone: Some(Zone {
            number: 7,
            is_south: true,
        }),
        options: &[
            OptionGiven {
                name: b"o\r\n",
                value: Some(b"v\nsaid,v"),
            },
            OptionGiven {
                name: b"p\n",
                value: None,
            },
        ],
        said: &[b"s\r\nleft,a,1,dop\n"],
        left: &[Left {
            name: b"n\n",
            count: 0,
            reason: Reason::Zero,
        }],
        tracks: &[TrackMade {
            name: b"m\x0Bn\n",
            records: 0,
            used: 0,
            sum: BOAR,
        }],
        tool: b"t\n\x7F\xC2\x80\n",
        ..LEAST
    };
    let text = record_text(rt.alloc(), &record)?;
    let expected = b"export,a\\x0atool,x\n\
        sha256,d46aee08cc49f6d1eb41800c1d6bab4506c960c700cff0efffe490d7cb1de5e3\n\
        unit,m\n\
        zone,7S\n\
        option,o\\x0d\\x0a,v\\x0asaid,v\n\
        option,p\\x0a\n\
        said,s\\x0d\\x0aleft,a,1,dop\\x0a\n\
        left,n\\x0a,0,zero\n\
        track,m\\x0bn\\x0a,0,0,12070a74d292604b939978fc0de24a5e02e6293ecac4af595a0e2c997a41bdb9\n\
        tool,t\\x0a\\x7f\\x80\\x0a\n";
    assert!(&rt; text.as_slice() == expected.as_slice(), "a record");
    Ok(())
}

// Texts with parts of characters, and with what is escaped in several forms.
const ODD: [&[u8]; 18] = [
    b"\xC2\x80",
    b"\xC2",
    b"\xC2\xA0\xC2\x9F\xC2",
    b"\xE2\x80\xA8\xE2\x80\xA9\xE2\x80\xAA\xE2\x80\xA7",
    b"\xE2\x80",
    b"\xE2\xC2\x85\x80\xA8",
    b"\xF0\xE2\x80\xA8",
    b"\x80\x9F\xA8",
    b"\xC2\xC2\x81\xE2\xE2\x80\xA9",
    b"\xED\xA0\x80\xC2\x80",
    b"\x00\x09\x1F ~\x7F",
    b"\\x1b\\",
    b"\xE1\xC2\x80\xE2\x80\xA8",
    b"\xF0\x9F\xE2\x80\xA9\x98",
    b"\xC3\xBC\xF0\x9F\xA6\x8A",
    b"",
    b",,",
    b"\xC2\n\x80",
];

#[test]
fn odd_bytes_are_escaped_or_stay(rt: HostRuntime) -> Result<(), Fail> {
    let alloc = rt.alloc();
    let mut options = Vec::new(alloc);
    for odd in ODD {
        options.push(OptionGiven {
            name: odd,
            value: Some(odd),
        })?;
    }
    let record = Record {
        options: &options,
        said: &ODD,
        ..LEAST
    };
    let text = record_text(alloc, &record)?;
    let expected = b"export,x\n\
        sha256,d46aee08cc49f6d1eb41800c1d6bab4506c960c700cff0efffe490d7cb1de5e3\n\
        unit,m\n\
        zone,none\n\
        option,\\x80,\\x80\n\
        option,\xC2,\xC2\n\
        option,\xC2\xA0\\x9f\xC2,\xC2\xA0\\x9f\xC2\n\
        option,\\u2028\\u2029\xE2\x80\xAA\xE2\x80\xA7,\\u2028\\u2029\xE2\x80\xAA\xE2\x80\xA7\n\
        option,\xE2\x80,\xE2\x80\n\
        option,\xE2\\x85\x80\xA8,\xE2\\x85\x80\xA8\n\
        option,\xF0\\u2028,\xF0\\u2028\n\
        option,\x80\x9F\xA8,\x80\x9F\xA8\n\
        option,\xC2\\x81\xE2\\u2029,\xC2\\x81\xE2\\u2029\n\
        option,\xED\xA0\x80\\x80,\xED\xA0\x80\\x80\n\
        option,\\x00\\x09\\x1f ~\\x7f,\\x00\\x09\\x1f ~\\x7f\n\
        option,\\x1b\\,\\\\x1b\\\\\n\
        option,\xE1\\x80\\u2028,\xE1\\x80\\u2028\n\
        option,\xF0\x9F\\u2029\x98,\xF0\x9F\\u2029\x98\n\
        option,\xC3\xBC\xF0\x9F\xA6\x8A,\xC3\xBC\xF0\x9F\xA6\x8A\n\
        option,,\n\
        option,,,,,,\n\
        option,\xC2\\x0a\x80,\xC2\\x0a\x80\n\
        said,\\x80\n\
        said,\xC2\n\
        said,\xC2\xA0\\x9f\xC2\n\
        said,\\u2028\\u2029\xE2\x80\xAA\xE2\x80\xA7\n\
        said,\xE2\x80\n\
        said,\xE2\\x85\x80\xA8\n\
        said,\xF0\\u2028\n\
        said,\x80\x9F\xA8\n\
        said,\xC2\\x81\xE2\\u2029\n\
        said,\xED\xA0\x80\\x80\n\
        said,\\x00\\x09\\x1f ~\\x7f\n\
        said,\\x1b\\\n\
        said,\xE1\\x80\\u2028\n\
        said,\xF0\x9F\\u2029\x98\n\
        said,\xC3\xBC\xF0\x9F\xA6\x8A\n\
        said,\n\
        said,,,\n\
        said,\xC2\\x0a\x80\n\
        tool,t\n";
    assert!(&rt; text.as_slice() == expected.as_slice(), "a record");
    Ok(())
}

#[test]
fn the_shift_has_a_line_where_it_is_not_zero(rt: HostRuntime) -> Result<(), Fail> {
    for (shift, number, is_south, expected) in [
        (
            (1, 0),
            60,
            true,
            b"zone,60S\nshift,1,0\ntool,t\n".as_slice(),
        ),
        (
            (0, -1),
            1,
            false,
            b"zone,1N\nshift,0,-1\ntool,t\n".as_slice(),
        ),
        (
            (i64::MAX, i64::MIN),
            9,
            true,
            b"zone,9S\nshift,9223372036854775807,-9223372036854775808\ntool,t\n".as_slice(),
        ),
        ((0, 0), 10, false, b"zone,10N\ntool,t\n".as_slice()),
    ] {
        let zone = Some(Zone { number, is_south });
        let record = Record {
            shift,
            zone,
            ..LEAST
        };
        let text = record_text(rt.alloc(), &record)?;
        assert!(&rt; text.ends_with(expected), "zone {number}");
        assert!(&rt; text.starts_with(b"export,x\nsha256,d46a"), "zone {number}");
        assert!(&rt; text.len() == 88 + expected.len(), "zone {number}");
    }
    Ok(())
}

// All reasons, in the order of a record.
const REASONS: [Reason; 14] = [
    Reason::Animal,
    Reason::Coordinates,
    Reason::Zero,
    Reason::Sensor,
    Reason::Outlier,
    Reason::Class,
    Reason::NoDop,
    Reason::Dop,
    Reason::Type,
    Reason::Before,
    Reason::After,
    Reason::Grid,
    Reason::Speed,
    Reason::Every,
];

#[test]
fn each_reason_has_its_words(rt: HostRuntime) -> Result<(), Fail> {
    let alloc = rt.alloc();
    let mut left = Vec::new(alloc);
    for (place, reason) in REASONS.iter().enumerate() {
        left.push(Left {
            name: b"a",
            count: place + 1,
            reason: *reason,
        })?;
    }
    let record = Record {
        left: &left,
        ..LEAST
    };
    let text = record_text(alloc, &record)?;
    let expected = b"export,x\n\
        sha256,d46aee08cc49f6d1eb41800c1d6bab4506c960c700cff0efffe490d7cb1de5e3\n\
        unit,m\n\
        zone,none\n\
        left,a,1,animal\n\
        left,a,2,coordinates\n\
        left,a,3,zero\n\
        left,a,4,sensor\n\
        left,a,5,outlier\n\
        left,a,6,class\n\
        left,a,7,no dop\n\
        left,a,8,dop\n\
        left,a,9,type\n\
        left,a,10,before\n\
        left,a,11,after\n\
        left,a,12,grid\n\
        left,a,13,speed\n\
        left,a,14,every\n\
        tool,t\n";
    assert!(&rt; text.as_slice() == expected.as_slice(), "a record");
    Ok(())
}

#[test]
fn sums_are_those_of_bytes(rt: HostRuntime) -> Result<(), Fail> {
    assert!(&rt; sum_of(b"export") == EXPORT, "a word");
    let bytes = [b'a'; 1000];
    for (length, expected) in [
        (
            0,
            b"e3b0c44298fc1c149afbf4c8996fb92427ae41e4649b934ca495991b7852b855",
        ),
        (
            1,
            b"ca978112ca1bbdcafac231b39a23dc4da786eff8147c4e72b9807785afee48bb",
        ),
        (
            55,
            b"9f4390f8d30c2dd92ec9f095b65e2b9ae9b0a925a5258e241c9f1e910f734318",
        ),
        (
            56,
            b"b35439a4ac6f0948b6d6f9e3c6af0f5f590ce20f1bde7090ef7970686ec6738a",
        ),
        (
            63,
            b"7d3e74a05d7db15bce4ad9ec0658ea98e3f06eeecf16b4c6fff2da457ddc2f34",
        ),
        (
            64,
            b"ffe054fe7ae0cb6dc65c3af9b61d5209f439851db43d0ba5997337df154668eb",
        ),
        (
            119,
            b"31eba51c313a5c08226adf18d4a359cfdfd8d2e816b13f4af952f7ea6584dcfb",
        ),
        (
            120,
            b"2f3d335432c70b580af0e8e1b3674a7c020d683aa5f73aaaedfdc55af904c21c",
        ),
        (
            1000,
            b"41edece42d63e8d9bf515a9ba6932e1c20cbc9f5a5d134645adb5db1b9737ea3",
        ),
    ] {
        let sum = sum_of(&bytes[..length]);
        assert!(&rt; sum.as_slice() == expected.as_slice(), "{length}");
    }
    Ok(())
}

#[test]
fn each_allocation_may_fail(rt: HostRuntime) -> Result<(), Fail> {
    let mut refused = 0;
    for number in 1..MANY_ALLOCATIONS {
        let refusing = Refusing::new(rt.alloc(), number);
        if record_text(&refusing, &FULL).is_ok() {
            assert!(&rt; !refusing.has_refused(), "at allocation {number}");
            break;
        }
        assert!(&rt; refusing.has_refused(), "at allocation {number}");
        refused = number;
    }
    assert!(&rt; refused > 4, "{refused} were refused");
    Ok(())
}
