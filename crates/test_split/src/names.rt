// Tests of the names of files. What is expected was computed by `names.py` of the package for Python, but where a test
// says otherwise.

use range_plane::OutOfMemory;
use split_names::{NamesFault, file_name, file_names};
use std::alloc::Global;
use std::process::Abort;
use std::test::Fail;
use test_doubles::{MANY_ALLOCATIONS, Refusing};

// The names of animals and of their files.
const CLEAN: [(&str, &str); 63] = [
    ("vixen", "vixen"),
    ("old boar 7", "old boar 7"),
    ("a<b>c:d\"e/f\\g|h?i*j,k", "a_b_c_d_e_f_g_h_i_j_k"),
    ("\0\x1f\x7f", "___"),
    ("\u{80}\u{9f}", "\u{80}\u{9f}"),
    ("tab\x09here\x0a", "tab_here_"),
    (".hidden", "_hidden"),
    (" fox", "_fox"),
    ("fox.", "fox_"),
    ("fox ", "fox_"),
    ("..", "__"),
    (".", "_"),
    (" ", "_"),
    ("...", "_._"),
    ("a..", "a._"),
    ("  fox  ", "_ fox _"),
    ("a.b c", "a.b c"),
    ("nul.1", "_nul.1"),
    ("NUL", "_NUL"),
    ("Con", "_Con"),
    ("aux .x", "_aux .x"),
    ("aux x", "aux x"),
    ("con .", "_con _"),
    ("con", "_con"),
    ("conin$", "_conin$"),
    ("CONOUT$.txt", "_CONOUT$.txt"),
    ("conin", "conin"),
    ("COM1", "_COM1"),
    ("com0", "_com0"),
    ("lpt9.csv", "_lpt9.csv"),
    ("COM¹", "_COM¹"),
    ("lpt² .a", "_lpt² .a"),
    ("com³x", "com³x"),
    ("com⁴", "com⁴"),
    ("com¼", "com¼"),
    ("COM10", "COM10"),
    ("com", "com"),
    ("prné", "prné"),
    (" con", "_con"),
    (".nul", "_nul"),
    ("nul,1", "nul_1"),
    ("Prn  ", "_Prn _"),
    (
        "xxxxxxxxxxxxxxxxxxxxxxxxxxxxxxxx",
        "xxxxxxxxxxxxxxxxxxxxxxxxxxxxxxxx",
    ),
    (
        "xxxxxxxxxxxxxxxxxxxxxxxxxxxxxxxxx",
        "xxxxxxxxxxxxxxxxxxxxxxxxxxxxxxxx",
    ),
    (
        "xxxxxxxxxxxxxxxxxxxxxxxxxxxxxxxé",
        "xxxxxxxxxxxxxxxxxxxxxxxxxxxxxxx",
    ),
    (
        "xxxxxxxxxxxxxxxxxxxxxxxxxxxxxxé",
        "xxxxxxxxxxxxxxxxxxxxxxxxxxxxxxé",
    ),
    (
        "xxxxxxxxxxxxxxxxxxxxxxxxxxxxxx€",
        "xxxxxxxxxxxxxxxxxxxxxxxxxxxxxx",
    ),
    (
        "xxxxxxxxxxxxxxxxxxxxxxxxxxxxx€",
        "xxxxxxxxxxxxxxxxxxxxxxxxxxxxx€",
    ),
    (
        "xxxxxxxxxxxxxxxxxxxxxxxxxxxxxxx🦊",
        "xxxxxxxxxxxxxxxxxxxxxxxxxxxxxxx",
    ),
    (
        "xxxxxxxxxxxxxxxxxxxxxxxxxxxx🦊",
        "xxxxxxxxxxxxxxxxxxxxxxxxxxxx🦊",
    ),
    (
        "xxxxxxxxxxxxxxxxxxxxxxxxxxxxx🦊",
        "xxxxxxxxxxxxxxxxxxxxxxxxxxxxx",
    ),
    (
        "xxxxxxxxxxxxxxxxxxxxxxxxxxxxxxx.y",
        "xxxxxxxxxxxxxxxxxxxxxxxxxxxxxxx_",
    ),
    (
        "xxxxxxxxxxxxxxxxxxxxxxxxxxxxxxx y",
        "xxxxxxxxxxxxxxxxxxxxxxxxxxxxxxx_",
    ),
    (
        "xxxxxxxxxxxxxxxxxxxxxxxxxxxxxx.é",
        "xxxxxxxxxxxxxxxxxxxxxxxxxxxxxx_",
    ),
    (
        "con                             .x",
        "_con                           _",
    ),
    (
        "nul.xxxxxxxxxxxxxxxxxxxxxxxxxxxxxxxxxxxxxxxx",
        "_nul.xxxxxxxxxxxxxxxxxxxxxxxxxxx",
    ),
    ("ééééééééééééééééé", "éééééééééééééééé"),
    ("🦊🦊🦊🦊🦊🦊🦊🦊🦊", "🦊🦊🦊🦊🦊🦊🦊🦊"),
    ("a=b", "a=b"),
    ("'=x", "'=x"),
    ("côn", "côn"),
    ("AUK", "AUK"),
    ("", ""),
];

// Lists of texts, as names.
fn names_of(alloc: Global, texts: &[&str]) -> Result<Vec<Vec<u8>>, OutOfMemory> {
    let mut names = Vec::new(alloc);
    for text in texts {
        names.push(Vec::from_slice(alloc, text.as_bytes())?)?;
    }
    Ok(names)
}

// Checks the names of the files of animals.
fn expect_names(
    rt: &impl Abort,
    alloc: Global,
    texts: &[&str],
    expected: &[&str],
) -> Result<(), Fail> {
    let names = names_of(alloc, texts)?;
    match file_names(alloc, &names) {
        Ok(own) => assert!(rt; own == names_of(alloc, expected)?, "{texts:?}"),
        Err(fault) => assert!(rt; false, "{texts:?}: {fault:?}"),
    }
    Ok(())
}

#[test]
fn a_name_becomes_that_of_a_file(rt: HostRuntime) -> Result<(), Fail> {
    for (name, expected) in CLEAN {
        let own = file_name(rt.alloc(), name.as_bytes())?;
        assert!(&rt; own.as_slice() == expected.as_bytes(), "{name:?}");
    }
    Ok(())
}

#[test]
fn names_that_fold_alike_are_numbered(rt: HostRuntime) -> Result<(), Fail> {
    let alloc = rt.alloc();
    expect_names(
        &rt,
        alloc,
        &["Fox", "fox", "FOX"],
        &["Fox", "fox_2", "FOX_3"],
    )?;
    expect_names(
        &rt,
        alloc,
        &["fox", "Fox", "fox_2", "FOX_2"],
        &["fox", "Fox_3", "fox_2", "FOX_2_2"],
    )?;
    expect_names(
        &rt,
        alloc,
        &["é", "e\u{301}", "E\u{301}"],
        &["é", "e\u{301}_2", "E\u{301}_3"],
    )?;
    expect_names(
        &rt,
        alloc,
        &["a", "A", "a_2", "A_2", "a_3", "é", "e\u{301}", "E\u{301}"],
        &[
            "a",
            "A_4",
            "a_2",
            "A_2_2",
            "a_3",
            "é",
            "e\u{301}_2",
            "E\u{301}_3",
        ],
    )?;
    expect_names(
        &rt,
        alloc,
        &["Straße", "STRASSE", "strasse_2"],
        &["Straße", "STRASSE_3", "strasse_2"],
    )?;
    expect_names(
        &rt,
        alloc,
        &[
            "xxxxxxxxxxxxxxxxxxxxxxxxxxxxxxxx",
            "XXXXXXXXXXXXXXXXXXXXXXXXXXXXXXXX",
            "XXXXXXXXXXXXXXXXXXXXXXXXXXXXXXXx",
        ],
        &[
            "xxxxxxxxxxxxxxxxxxxxxxxxxxxxxxxx",
            "XXXXXXXXXXXXXXXXXXXXXXXXXXXXXX_2",
            "XXXXXXXXXXXXXXXXXXXXXXXXXXXXXX_3",
        ],
    )?;
    expect_names(
        &rt,
        alloc,
        &[
            "XXXXXXXXXXXXXXXXXXXXXXXXXXXXéab",
            "xxxxxxxxxxxxxxxxxxxxxxxxxxxxéAB",
            "xxxxxxxxxxxxxxxxxxxxxxxxxxxxxéa",
            "XXXXXXXXXXXXXXXXXXXXXXXXXXXXXéa",
        ],
        &[
            "XXXXXXXXXXXXXXXXXXXXXXXXXXXXéab",
            "xxxxxxxxxxxxxxxxxxxxxxxxxxxxé_2",
            "xxxxxxxxxxxxxxxxxxxxxxxxxxxxxéa",
            "XXXXXXXXXXXXXXXXXXXXXXXXXXXXX_2",
        ],
    )?;
    expect_names(&rt, alloc, &["Σ", "σ", "ς"], &["Σ", "σ_2", "ς_3"])?;
    expect_names(&rt, alloc, &["가", "가"], &["가", "가_2"])?;
    expect_names(&rt, alloc, &["a", "b", "c"], &["a", "b", "c"])?;
    expect_names(&rt, alloc, &["q̣̇", "Q̣̇"], &["q̣̇", "Q̣̇_2"])?;
    expect_names(
        &rt,
        alloc,
        &["nul", "NUL", "_Nul"],
        &["_nul", "_NUL_2", "_Nul_3"],
    )?;
    expect_names(&rt, alloc, &["K", "k", "K"], &["K", "k_2", "K_3"])?;
    expect_names(&rt, alloc, &["İ", "i̇"], &["İ", "i̇_2"])?;
    Ok(())
}

// By the rules alone: a list of no names, capital and small letters that Unicode has since its version 16, and bytes
// that are no UTF-8.
#[test]
fn names_are_compared_by_newer_signs_too(rt: HostRuntime) -> Result<(), Fail> {
    let alloc = rt.alloc();
    expect_names(&rt, alloc, &[], &[])?;
    expect_names(
        &rt,
        alloc,
        &["\u{10d50}", "\u{10d70}"],
        &["\u{10d50}", "\u{10d70}_2"],
    )?;
    let no_texts = [
        Vec::from_slice(alloc, b"a\xff")?,
        Vec::from_slice(alloc, b"A\xff")?,
    ];
    let own = file_names(alloc, &no_texts);
    match own {
        Ok(own) => assert!(&rt; own.as_slice() == no_texts.as_slice(), "no UTF-8"),
        Err(_) => assert!(&rt; false, "no UTF-8"),
    }
    Ok(())
}

// By the rules alone.
#[test]
fn two_animals_of_one_name_are_refused(rt: HostRuntime) -> Result<(), Fail> {
    let alloc = rt.alloc();
    for (texts, first, second) in [
        (["a/b", "x", "a:b", "a?b"].as_slice(), 0, 2),
        (["fox", "a/b", "Fox", "fox_2", "a_b"].as_slice(), 1, 4),
        (["x", "fox", "y", "fox"].as_slice(), 1, 3),
        (["", "."].as_slice(), 2, 2),
    ] {
        let names = names_of(alloc, texts)?;
        let is_refused = file_names(alloc, &names) == Err(NamesFault::Same { first, second });
        assert!(&rt; is_refused == (first < second), "{texts:?}");
    }
    Ok(())
}

#[test]
fn each_allocation_of_a_name_may_fail(rt: HostRuntime) -> Result<(), Fail> {
    let mut is_refused = false;
    for number in 1..MANY_ALLOCATIONS {
        let refusing = Refusing::new(rt.alloc(), number);
        if file_name(&refusing, b"nul.1").is_ok() {
            assert!(&rt; !refusing.has_refused(), "at allocation {number}");
            break;
        }
        assert!(&rt; refusing.has_refused(), "at allocation {number}");
        is_refused = true;
    }
    assert!(&rt; is_refused, "none was refused");
    Ok(())
}

// By the rules alone: names of which each ten thousandth differs from one before it in a capital letter.
#[test]
fn a_hundred_thousand_names_are_told_apart(rt: HostRuntime) -> Result<(), Fail> {
    let alloc = rt.alloc();
    let mut names = Vec::new(alloc);
    for number in 0..100_000_u32 {
        let name = if number % 10_000 == 9_999 {
            format!(in alloc; "FOX {}", number - 1)?
        } else {
            format!(in alloc; "fox {number}")?
        };
        names.push(name.into_bytes())?;
    }
    let Ok(own) = file_names(alloc, &names) else {
        assert!(&rt; false, "refused");
        return Ok(());
    };
    assert!(&rt; own.len() == names.len(), "the number of names");
    for (number, (file, name)) in own.iter().zip(&names).enumerate() {
        let is_numbered = number % 10_000 == 9_999;
        assert!(&rt;
            file.len() == name.len() + if is_numbered { 2 } else { 0 },
            "{number}"
        );
        assert!(&rt; file.starts_with(name.as_slice()), "{number}");
    }
    Ok(())
}
