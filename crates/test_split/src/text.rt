// Tests of the text of a track.

use range_fixes::FixReader;
use range_plane::{Fix, Point, Scale};
use split_files::{MarkedFix, track_text};
use std::alloc::Global;
use std::process::Abort;
use std::test::Fail;
use test_doubles::{MANY_ALLOCATIONS, Refusing};

// Three fixes of which the second is not used.
const FIXES: [MarkedFix; 3] = [
    MarkedFix {
        fix: Fix {
            second: 0,
            at: Point { e: 562_000, n: 0 },
        },
        is_used: true,
    },
    MarkedFix {
        fix: Fix {
            second: 60,
            at: Point { e: 1, n: 5_134_001 },
        },
        is_used: false,
    },
    MarkedFix {
        fix: Fix {
            second: 1_099_511_627_776,
            at: Point {
                e: 16_777_216,
                n: 16_777_216,
            },
        },
        is_used: true,
    },
];

#[test]
fn a_track_has_its_titles_and_a_line_for_each_fix(rt: HostRuntime) -> Result<(), Fail> {
    let text = track_text(rt.alloc(), false, b"vixen", &FIXES)?;
    let expected = b"animal,second,easting,northing\n\
        vixen,0,562000,0\n\
        vixen,60,1,5134001\n\
        vixen,1099511627776,16777216,16777216\n";
    assert!(&rt; text.as_slice() == expected.as_slice(), "without marks");
    let none = track_text(rt.alloc(), false, b"vixen", &[])?;
    assert!(&rt;
        none.as_slice() == b"animal,second,easting,northing\n".as_slice(),
        "of no fix"
    );
    Ok(())
}

#[test]
fn marks_say_which_fixes_are_used(rt: HostRuntime) -> Result<(), Fail> {
    let text = track_text(rt.alloc(), true, b"old boar", &FIXES)?;
    let expected = b"animal,second,easting,northing,use\n\
        old boar,0,562000,0,1\n\
        old boar,60,1,5134001,0\n\
        old boar,1099511627776,16777216,16777216,1\n";
    assert!(&rt; text.as_slice() == expected.as_slice(), "with marks");
    Ok(())
}

// Checks that a text reads as this name and these fixes, and ends there.
fn expect_read(
    rt: &impl Abort,
    alloc: Global,
    text: &[u8],
    name: &[u8],
    fixes: &[Fix],
) -> Result<(), Fail> {
    let mut reader = FixReader::new(alloc, text, Scale::Metre);
    for fix in fixes {
        assert!(rt; reader.next() == Ok(Some(*fix)), "a fix");
    }
    assert!(rt; reader.next() == Ok(None), "the end");
    assert!(rt; reader.name() == Some(name), "the name");
    Ok(())
}

#[test]
fn what_is_written_is_read_back(rt: HostRuntime) -> Result<(), Fail> {
    let alloc = rt.alloc();
    let used = [FIXES[0].fix, FIXES[2].fix];
    let name = "Füchsin = 1; 'x'".as_bytes();
    let marked = track_text(alloc, true, name, &FIXES)?;
    expect_read(&rt, alloc, &marked, name, &used)?;
    let plain = track_text(alloc, false, name, &[FIXES[0], FIXES[2]])?;
    expect_read(&rt, alloc, &plain, name, &used)
}

#[test]
fn each_allocation_may_fail(rt: HostRuntime) -> Result<(), Fail> {
    let mut is_refused = false;
    for number in 1..MANY_ALLOCATIONS {
        let refusing = Refusing::new(rt.alloc(), number);
        if track_text(&refusing, true, b"vixen", &FIXES).is_ok() {
            assert!(&rt; !refusing.has_refused(), "at allocation {number}");
            break;
        }
        assert!(&rt; refusing.has_refused(), "at allocation {number}");
        is_refused = true;
    }
    assert!(&rt; is_refused, "none was refused");
    Ok(())
}
