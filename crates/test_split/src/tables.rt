// Tests of tables of text. What is expected was read by Python's `csv`, which takes quotes where a table has none: which
// of them are refused is by the rules of tables.

use csv::ByteRecord;
use split_table::{Table, TableFault};
use std::alloc::{AllocError, Global};
use std::process::Abort;
use std::test::Fail;

// More records than any table here has.
const MANY_RECORDS: u32 = 100;

// Appends a record, each field between brackets.
fn show(text: &mut Vec<u8>, record: &ByteRecord) -> Result<(), AllocError> {
    for field in record.iter() {
        text.extend_from_slice(b"[")?;
        text.extend_from_slice(field)?;
        text.extend_from_slice(b"]")?;
    }
    Ok(())
}

// The titles and the records of a table, each behind a blank.
fn shown(alloc: Global, table: &mut Table<'_>) -> Result<Vec<u8>, Fail> {
    let mut text = Vec::new(alloc);
    show(&mut text, table.titles())?;
    for _record in 0..MANY_RECORDS {
        if !table.advance()? {
            break;
        }
        text.extend_from_slice(b" ")?;
        show(&mut text, table.current())?;
    }
    Ok(text)
}

// Checks what tables have.
fn expect_shown(rt: &impl Abort, alloc: Global, cases: &[(&[u8], &[u8])]) -> Result<(), Fail> {
    for (text, expected) in cases {
        let mut table = Table::new(alloc, text)?;
        let found = shown(alloc, &mut table)?;
        assert!(rt; found.as_slice() == *expected, "{text:?}");
    }
    Ok(())
}

// Checks why texts are no tables.
fn expect_faults(rt: &impl Abort, alloc: Global, cases: &[(&[u8], TableFault)]) {
    for (text, fault) in cases {
        let found = Table::new(alloc, text).err();
        assert!(rt; found == Some(*fault), "{text:?}");
    }
}

#[test]
fn the_line_of_titles_says_what_parts_fields(rt: HostRuntime) -> Result<(), Fail> {
    expect_shown(
        &rt,
        rt.alloc(),
        &[
            (b"id,x,y\nfox,1,2\n", b"[id][x][y] [fox][1][2]"),
            (b"id;x;y\nfox;1;2\n", b"[id][x][y] [fox][1][2]"),
            (b"id\tx\ty\nfox\t1\t2\n", b"[id][x][y] [fox][1][2]"),
            (b"id;x,y\nfox;1,2\n", b"[id][x,y] [fox][1,2]"),
            (b"id,x;y\nfox,1;2\n", b"[id][x;y] [fox][1;2]"),
            (b"id\tx,y\nfox\t1,2\n", b"[id\tx][y] [fox\t1][2]"),
            (b"id\tx;y\nfox\t1;2\n", b"[id\tx][y] [fox\t1][2]"),
            (b"id\nfox;1,2\t3\n", b"[id] [fox;1][2\t3]"),
            (b"id x\nfox,1\n", b"[id x] [fox][1]"),
            (b";\n,;\n", b"[][] [,][]"),
            (b"\t\n1\t2\n", b"[][] [1][2]"),
            (b"\n\r\n\rid;x\nfox,1;2\n", b"[id][x] [fox,1][2]"),
        ],
    )
}

#[test]
fn a_byte_order_mark_is_passed_over(rt: HostRuntime) -> Result<(), Fail> {
    expect_shown(
        &rt,
        rt.alloc(),
        &[
            (
                b"\xef\xbb\xbfid;x\nf\xc3\xbcchsin;1\n",
                b"[id][x] [f\xc3\xbcchsin][1]",
            ),
            (b"\xef\xbb\xbf\n\nid,x\na,1\n", b"[id][x] [a][1]"),
            (b"\xef\xbb\xbf\"id\",x\na,1\n", b"[id][x] [a][1]"),
            (
                b"id,\xef\xbb\xbfx\n\xef\xbb\xbfa,1\n",
                b"[id][\xef\xbb\xbfx] [\xef\xbb\xbfa][1]",
            ),
            (b"\xef\xbb\xbf\xef\xbb\xbfid,x\n", b"[\xef\xbb\xbfid][x]"),
        ],
    )
}

#[test]
fn lines_have_three_ends_or_none(rt: HostRuntime) -> Result<(), Fail> {
    expect_shown(
        &rt,
        rt.alloc(),
        &[
            (b"id,x\na,1\nb,2\n", b"[id][x] [a][1] [b][2]"),
            (b"id,x\r\na,1\r\nb,2\r\n", b"[id][x] [a][1] [b][2]"),
            (b"id,x\ra,1\rb,2\r", b"[id][x] [a][1] [b][2]"),
            (b"id,x\r\na,1\nb,2\rc,3", b"[id][x] [a][1] [b][2] [c][3]"),
            (b"id,x", b"[id][x]"),
            (b"id,x\na,1", b"[id][x] [a][1]"),
            (b"id,x\na,", b"[id][x] [a][]"),
            (b"id,x\na", b"[id][x] [a]"),
            (b"id,x\n,", b"[id][x] [][]"),
            (b"id,x\n\"a\"", b"[id][x] [a]"),
            (b",", b"[][]"),
        ],
    )
}

#[test]
fn blank_lines_are_passed_over(rt: HostRuntime) -> Result<(), Fail> {
    expect_shown(
        &rt,
        rt.alloc(),
        &[
            (b"\n\nid,x\n\n\na,1\n\nb,2\n\n", b"[id][x] [a][1] [b][2]"),
            (
                b"\r\n\r\nid,x\r\n\r\na,1\r\n\r\n\r\nb,2\r\n\r\n",
                b"[id][x] [a][1] [b][2]",
            ),
            (b"\r\rid,x\r\ra,1\r\r", b"[id][x] [a][1]"),
            (b"id,x\n \n,\n\"\"\n", b"[id][x] [ ] [][] []"),
            (b" \n", b"[ ]"),
            (b"\"\"\n", b"[]"),
        ],
    )
}

#[test]
fn records_may_have_any_number_of_fields(rt: HostRuntime) -> Result<(), Fail> {
    expect_shown(
        &rt,
        rt.alloc(),
        &[(b"id,x\na,1,2\nb\n,,,\n", b"[id][x] [a][1][2] [b] [][][][]")],
    )
}

#[test]
fn fields_may_stand_between_quotes(rt: HostRuntime) -> Result<(), Fail> {
    expect_shown(
        &rt,
        rt.alloc(),
        &[
            (
                b"id,x\n\"a,b\",1\n\"a\nb\",2\n",
                b"[id][x] [a,b][1] [a\nb][2]",
            ),
            (
                b"id,x\n\"say \"\"hi\"\"\",1\n\"\"\"\",2\n\"\",3\n",
                b"[id][x] [say \"hi\"][1] [\"][2] [][3]",
            ),
            (b"\"i\"\"d\",\"x\n\"\n\"a\",\"1\"\n", b"[i\"d][x\n] [a][1]"),
            (b"id;x\n\"a;b,c\";\"1,5\"\n", b"[id][x] [a;b,c][1,5]"),
            (b"id\tx\n\"a\tb\"\t1\n", b"[id][x] [a\tb][1]"),
            (b"id,x\n\" a \", 1 \n", b"[id][x] [ a ][ 1 ]"),
            (b"id,x\n\"a\"\r\n\"b\"\r\"c\"\n", b"[id][x] [a] [b] [c]"),
            (
                b"id,x\n\"\n\n\",1\n\"a\r\nb\",2\n\"a\rb\",3\n",
                b"[id][x] [\n\n][1] [a\r\nb][2] [a\rb][3]",
            ),
        ],
    )
}

// Python's `csv` takes these, but for those of which something stands behind the last quote, where it is strict.
#[test]
fn stray_quotes_are_refused(rt: HostRuntime) {
    expect_faults(
        &rt,
        rt.alloc(),
        &[
            (b"id,x\na\"b,1\n", TableFault::StrayQuote { record: 1 }),
            (
                b"id,x\na,\"561000\"0\n",
                TableFault::StrayQuote { record: 1 },
            ),
            (
                b"id,x\na,1\n\nb,\"561000\"0\n",
                TableFault::StrayQuote { record: 2 },
            ),
            (
                b"\r\nid,x\r\n\r\na,1\r\n\"b\r\n\",2\r\nc\"\"d,2\r\n",
                TableFault::StrayQuote { record: 3 },
            ),
            (b"id,x\na, \"1\"\n", TableFault::StrayQuote { record: 1 }),
            (b"id,x\n\"a\" ,1\n", TableFault::StrayQuote { record: 1 }),
            (b"id,x\n\"a\";1\n", TableFault::StrayQuote { record: 1 }),
            (b"i\"d,x\na,1\n", TableFault::StrayQuote { record: 0 }),
            (b"\"id\"x,y\na,1\n", TableFault::StrayQuote { record: 0 }),
            (
                b"\xef\xbb\xbf\"a;b\",c\nd,e\n",
                TableFault::StrayQuote { record: 0 },
            ),
            (
                b"id,x\na\"b,1\nc,\"d\n",
                TableFault::StrayQuote { record: 1 },
            ),
        ],
    );
}

#[test]
fn quotes_without_an_end_are_refused(rt: HostRuntime) {
    expect_faults(
        &rt,
        rt.alloc(),
        &[
            (b"\"", TableFault::OpenQuote { record: 0 }),
            (b"\"id,x\n", TableFault::OpenQuote { record: 0 }),
            (b"id,x\n\"a,1\n", TableFault::OpenQuote { record: 1 }),
            (b"id,x\na,1\nb,\"", TableFault::OpenQuote { record: 2 }),
            (b"id,x\ra,1\r\rb,\"\r", TableFault::OpenQuote { record: 2 }),
            (
                b"id,x\n\"a\nb\",1\n\n\"c",
                TableFault::OpenQuote { record: 2 },
            ),
            (b"id,x\n\"a\"\"", TableFault::OpenQuote { record: 1 }),
            (b"id,x\n\"a\"\"b\n", TableFault::OpenQuote { record: 1 }),
        ],
    );
}

#[test]
fn a_text_without_a_line_has_no_titles(rt: HostRuntime) {
    expect_faults(
        &rt,
        rt.alloc(),
        &[
            (b"", TableFault::NoTitles),
            (b"\n", TableFault::NoTitles),
            (b"\r\n\r\r\n\n", TableFault::NoTitles),
            (b"\xef\xbb\xbf", TableFault::NoTitles),
            (b"\xef\xbb\xbf\r\n", TableFault::NoTitles),
        ],
    );
}

#[test]
fn titles_stay_and_the_end_comes_again(rt: HostRuntime) -> Result<(), Fail> {
    let alloc = rt.alloc();
    let mut table = Table::new(alloc, b"id,x\na,1\n")?;
    assert!(&rt; table.current().is_empty(), "no record was read");
    assert!(&rt; table.advance()?, "a record");
    assert!(&rt; !table.advance()?, "the end");
    assert!(&rt; !table.advance()?, "the end again");
    let found = shown(alloc, &mut table)?;
    assert!(&rt; found.as_slice() == b"[id][x]".as_slice(), "the titles");
    Ok(())
}

// The fields lie over the ends of what is read at once.
#[test]
fn long_fields_are_read_whole(rt: HostRuntime) -> Result<(), Fail> {
    let alloc = rt.alloc();
    let mut text = Vec::from_slice(alloc, b"id,x\n\"")?;
    for _pair in 0..20_000 {
        text.extend_from_slice(b"\"\"\r\n,")?;
    }
    text.extend_from_slice(b"\",1\n")?;
    let mut table = Table::new(alloc, &text)?;
    assert!(&rt; table.advance()?, "the record");
    let name = table.current().get(0).unwrap_or(b"");
    assert!(&rt; name.len() == 80_000, "its length");
    assert!(&rt;
        name.chunks_exact(4)
            .all(|chunk| chunk == b"\"\r\n,".as_slice()),
        "its bytes"
    );
    assert!(&rt;
        table.current().get(1) == Some(b"1".as_slice()),
        "and another"
    );
    assert!(&rt; !table.advance()?, "the end");
    Ok(())
}
