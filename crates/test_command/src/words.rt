// What words say, and which are refused.

use crate::line::read;
use crate::options::{LEVELS, PLAN};
use range_options::FILE_LIMIT;
use range_plane::Scale;
use range_words::{LevelFault, WordFault};
use std::alloc::Global;
use std::process::Abort;
use std::test::Fail;

// What `--version` says: the name, the version, and the sum of the logic, as `rt version` says it.
const VERSION: &str = "homerange 1.0.0 (logic dac8208d650f15bf)\n";

// Words say this: so many files, these levels, and this block, depth and workers; the unit is the metre.
fn expect<R: Abort>(
    rt: &R,
    alloc: Global,
    words: &[&str],
    said: (usize, &[u8], (u32, u32, u32)),
) -> Result<(), Fail> {
    let (files, levels, plan) = said;
    let found = read(alloc, words)??;
    let asked = found.options.plan;
    assert!(rt; found.files.len() == files);
    assert!(rt; found.options.levels.as_slice() == levels);
    assert!(rt; (asked.block, asked.depth, asked.workers) == plan);
    assert!(rt; asked.unit == Scale::Metre);
    Ok(())
}

#[test]
fn words_say_files_levels_and_the_plan(rt: HostRuntime) -> Result<(), Fail> {
    let alloc = rt.alloc();
    let (plan, levels) = (PLAN, LEVELS.as_slice());
    let cases = [
        ([].as_slice(), (0, levels, plan)),
        (&["--percent", "7,7", "x.csv"], (1, &[7, 7], plan)),
        (
            &["x.csv", "--workers", "8", "y.csv"],
            (2, levels, (256, 4, 8)),
        ),
        (
            &["--block", "1024", "--depth=+64"],
            (0, levels, (1024, 64, 2)),
        ),
        (
            &[
                "--block=1",
                "--depth",
                "01",
                "--workers=1",
                "--percent=1,100",
            ],
            (0, &[1, 100], (1, 1, 1)),
        ),
        (&["--", "--block"], (1, levels, plan)),
    ];
    for (words, said) in cases {
        expect(&rt, alloc, words, said)?;
    }
    Ok(())
}

#[test]
fn words_say_the_unit(rt: HostRuntime) -> Result<(), Fail> {
    let alloc = rt.alloc();
    let cases = [
        (["--unit", "m"].as_slice(), Scale::Metre),
        (&["--unit=dm", "x.csv"], Scale::Decimetre),
        (&["x.csv", "--unit", "dm", "--block", "1"], Scale::Decimetre),
    ];
    for (words, unit) in cases {
        let found = read(alloc, words)??;
        assert!(rt; found.options.plan.unit == unit, "{words:?}");
    }
    Ok(())
}

#[test]
fn paths_are_kept(rt: HostRuntime) -> Result<(), Fail> {
    let alloc = rt.alloc();
    let found = read(alloc, &["b.csv", "a b.csv", "b.csv"])??;
    let files = found.files.as_slice();
    assert!(rt; files.len() == 3 && files[0].as_str() == "b.csv");
    assert!(rt; files[1].as_str() == "a b.csv" && files[2].as_str() == "b.csv");
    Ok(())
}

// Words that `clap` refuses by something else than its help and the version.
#[test]
fn words_that_clap_refuses_are_bad(rt: HostRuntime) -> Result<(), Fail> {
    let alloc = rt.alloc();
    let cases = [
        ["--block", "0"].as_slice(),
        &["--block", "1025"],
        &["--block", "x"],
        &["--block"],
        &["--block", "1", "--block", "1"],
        &["--depth", "0"],
        &["--depth", "65"],
        &["--workers", "0"],
        &["--workers", "9"],
        &["--percent"],
        &["--unit"],
        &["--unit", "km"],
        &["--unit", "DM"],
        &["--unit", "cdm"],
        &["--unit", "dmm"],
        &["--unit", "mm"],
        &["--unit", ""],
        &["--unit=d"],
        &["--unit", "m", "--unit", "m"],
        &["--unit", "km", "--percent", "0"],
        &["--bogus", "--help"],
        &["--bogus", "--version"],
    ];
    for words in cases {
        let refused = read(alloc, words)?;
        assert!(rt;
            matches!(&refused, Err(WordFault::BadWords(_))),
            "{words:?}"
        );
    }
    Ok(())
}

#[test]
fn bad_levels_are_told_by_their_fault(rt: HostRuntime) -> Result<(), Fail> {
    let alloc = rt.alloc();
    let bad = |index| LevelFault::BadLevel { index };
    let cases = [
        ("0", bad(0)),
        ("", bad(0)),
        ("50,101", bad(1)),
        ("50, 95", bad(1)),
        ("1,2,3,4,5,6,7,8,", LevelFault::TooMany),
        ("1,2,3,4,5,6,7,8,9", LevelFault::TooMany),
    ];
    for (levels, fault) in cases {
        let refused = read(alloc, &["--percent", levels])?;
        assert!(rt;
            matches!(&refused, Err(WordFault::BadLevels(found)) if *found == fault),
            "{levels}"
        );
    }
    Ok(())
}

// One file more is refused, and before levels that are bad.
#[test]
fn a_file_more_than_the_most_is_refused_before_bad_levels(rt: HostRuntime) -> Result<(), Fail> {
    let alloc = rt.alloc();
    for levels in ["--percent=50", "--percent=0"] {
        let mut words = vec![in alloc; "x"; FILE_LIMIT as usize + 1]?;
        words.push(levels)?;
        let refused = read(alloc, words.as_slice())?;
        assert!(rt; matches!(&refused, Err(WordFault::TooManyFiles)));
    }
    let words = vec![in alloc; "x"; FILE_LIMIT as usize]?;
    let found = read(alloc, words.as_slice())??;
    assert!(rt; found.files.len() == FILE_LIMIT as usize);
    Ok(())
}

// The help names every option with its default, in lines of 80 columns, and is asked for before a word that is bad.
#[test]
fn the_help_names_each_option_with_its_default(rt: HostRuntime) -> Result<(), Fail> {
    let alloc = rt.alloc();
    let parts = [
        "Usage: homerange [--percent LIST] [--unit UNIT] [--block N] [--depth N]\n",
        " [--workers N] [FILE ...]\n",
        "m for metres, dm for decimetres\n",
        " [default: m]\n",
        "1 to 8 whole numbers\n",
        " from 1 to 100, separated by commas [default: 50,95,100]\n",
        "\n\nSpeed:\n      --block <N> ",
        "1 to 1024 [default: 256]\n      --depth <N> ",
        "1 to 64 [default: 4]\n      --workers <N> ",
        "1 to 8 [default: 2]\n\n",
        "  -V, --version ",
        "Files to read, 64 at most",
        "animal,second,easting,northing and",
        "animal,second,easting,northing,use each",
        "1 to 32 bytes",
        "0 to 1099511627776",
        "0 to\n              16777216, or with --unit dm whole decimetres from 0 to\n              134217728\n",
        "  unit,dm\n",
        "1\n  to 1048576 such lines",
        "use       1, or 0 for",
        "(p*n + 99)/100",
    ];
    for words in [["--help"].as_slice(), &["-h"], &["--help", "--bogus"]] {
        let refused = read(alloc, words)?;
        let text = match &refused {
            Err(WordFault::Help(text)) => text.as_str(),
            _ => "",
        };
        for part in parts {
            assert!(rt; text.contains(part), "{part}");
        }
        for line in text.lines() {
            assert!(rt; line.chars().count() <= 80, "{line}");
        }
    }
    Ok(())
}

// The version is asked for as help is, and its text is one line.
#[test]
fn the_version_is_asked_for_as_help_is(rt: HostRuntime) -> Result<(), Fail> {
    let alloc = rt.alloc();
    for words in [
        ["--version"].as_slice(),
        &["-V"],
        &["--block", "1", "--version", "--bogus"],
    ] {
        let refused = read(alloc, words)?;
        assert!(rt;
            matches!(&refused, Err(WordFault::Version(text)) if text.as_str() == VERSION),
            "{words:?}"
        );
    }
    Ok(())
}
