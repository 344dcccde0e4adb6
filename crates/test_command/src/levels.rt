// Tests of levels, and of lists of them.

use crate::options::{LEVELS, LEVELS_WORD};
use range_options::Levels;
use range_words::{LevelFault, levels};
use std::alloc::{Allocator, Global};
use std::process::Abort;
use std::test::Fail;
use test_doubles::Refusing;

#[test]
fn good_lists_are_read(rt: HostRuntime) -> Result<(), Fail> {
    let cases = [
        (LEVELS_WORD, LEVELS.as_slice()),
        (b"7,7", &[7, 7]),
        (b"007", &[7]),
        (b"1,2,3,4,5,6,7,8", &[1, 2, 3, 4, 5, 6, 7, 8]),
        (b"0000000000000000000000000000000000000000100", &[100]),
    ];
    for (text, expected) in cases {
        let found = levels(rt.alloc(), text)?;
        assert!(rt; found.as_slice() == expected, "{text:?}");
    }
    Ok(())
}

#[test]
fn the_first_bad_level_of_a_list_is_told(rt: HostRuntime) {
    let cases = [
        (b"".as_slice(), 0),
        (b"0", 0),
        (b"101", 0),
        (b"256", 0),
        (b"300", 0),
        (b"18446744073709551617", 0),
        (b"+5", 0),
        (b" 5", 0),
        (b"5 ", 0),
        (b"1e1", 0),
        (b"95,", 1),
        (b",95", 0),
        (b"1,,3", 1),
        (b"1,2;3", 1),
        (b"0,2,3,4,5,6,7,8,9", 0),
        (b"1,2,3,4,5,6,7,x,9", 7),
    ];
    for (text, index) in cases {
        let fault = levels(rt.alloc(), text).err();
        assert!(rt;
            fault == Some(LevelFault::BadLevel { index }),
            "{text:?} {fault:?}"
        );
    }
}

#[test]
fn more_levels_than_the_most_are_refused(rt: HostRuntime) {
    for text in [
        b"1,2,3,4,5,6,7,8,9".as_slice(),
        b"1,2,3,4,5,6,7,8,",
        b"1,2,3,4,5,6,7,8,x,0",
    ] {
        let fault = levels(rt.alloc(), text).err();
        assert!(rt; fault == Some(LevelFault::TooMany), "{text:?} {fault:?}");
    }
}

fn are_levels(alloc: Global, levels: &[u8]) -> Result<bool, Fail> {
    let levels = Vec::from_slice(alloc, levels)?;
    Ok(Levels::new(levels).is_some())
}

#[test]
fn levels_are_numbers_from_1_to_100(rt: HostRuntime) -> Result<(), Fail> {
    for levels in [[].as_slice(), &[1], &[100, 1, 50]] {
        assert!(rt; are_levels(rt.alloc(), levels)?, "{levels:?}");
    }
    for levels in [[0].as_slice(), &[101], &[50, 0]] {
        assert!(rt; !are_levels(rt.alloc(), levels)?, "{levels:?}");
    }
    Ok(())
}

// Reads a list of levels, again where it is refused, which says so. How often it was refused.
fn levels_again<A: Allocator + Copy>(rt: &impl Abort, alloc: A) -> u32 {
    let found = levels(alloc, LEVELS_WORD);
    let refusals = u32::from(found.is_err());
    if refusals > 0 {
        assert!(rt; found.err() == Some(LevelFault::OutOfMemory), "fault");
        let again = levels(alloc, LEVELS_WORD).expect(rt, "again");
        assert!(rt; again.as_slice() == LEVELS.as_slice(), "again");
    } else {
        let found = found.expect(rt, "levels");
        assert!(rt; found.as_slice() == LEVELS.as_slice(), "levels");
    }
    refusals
}

// A list takes memory once.
#[test]
fn levels_fails_only_at_a_refused_allocation(rt: HostRuntime) {
    let first = Refusing::new(rt.alloc(), 1);
    assert!(rt; levels_again(&rt, &first) == 1, "the first allocation");
    let second = Refusing::new(rt.alloc(), 2);
    assert!(rt; levels_again(&rt, &second) == 0, "one allocation");
}
