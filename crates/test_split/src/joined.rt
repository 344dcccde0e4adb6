// Several texts as the text of one table.

use split_join::{JoinFault, join, place_of};
use split_table::TableFault;
use std::test::Fail;

// What texts come to.
fn joined(rt: &HostRuntime, texts: &[&[u8]]) -> Result<Vec<u8>, Fail> {
    let joined = join(rt.alloc(), texts)?;
    Ok(joined.text)
}

// Why they come to nothing.
fn fault_of(rt: &HostRuntime, texts: &[&[u8]]) -> Option<JoinFault> {
    match join(rt.alloc(), texts) {
        Ok(_) => None,
        Err(fault) => Some(fault),
    }
}

#[test]
fn records_stand_one_table_after_the_other(rt: HostRuntime) -> Result<(), Fail> {
    let text = joined(
        &rt,
        &[
            b"animal,x,y\nfox,1,2\n\nfox,\"3\",4",
            b"\xEF\xBB\xBFanimal,x,y\r\n\"the \"\"old\"\" one\",5,6\r\n",
            b"animal,x,y\n",
            b"\"animal\",x,y\nfox,\"a\nb\",8,9\n",
        ],
    )?;
    let expected = b"animal,x,y\nfox,1,2\nfox,3,4\n\"the \"\"old\"\" one\",5,6\nfox,\"a\nb\",8,9\n";
    assert!(&rt; text.as_slice() == expected.as_slice(), "four texts");
    Ok(())
}

#[test]
fn records_of_each_are_counted(rt: HostRuntime) -> Result<(), Fail> {
    let joined = join(
        rt.alloc(),
        &[b"a;b\n1,5;2\n3;4\n", b"a;b\n", b"a;b\n\n5;6\n7\n8;\n"],
    )?;
    assert!(&rt;
        joined.counts.as_slice() == [2, 0, 3].as_slice(),
        "three texts"
    );
    assert!(&rt; joined.has_commas, "commas before decimals");
    assert!(&rt;
        joined.text.as_slice() == b"a,b\n\"1,5\",2\n3,4\n5,6\n7\n8,\n".as_slice(),
        "written with commas"
    );
    Ok(())
}

#[test]
fn texts_that_are_not_alike_are_refused(rt: HostRuntime) -> Result<(), Fail> {
    let first = b"a,b\n1,2\n".as_slice();
    let titles = fault_of(&rt, &[first, first, b"a,c\n1,2\n"]);
    assert!(&rt;
        titles == Some(JoinFault::Titles { text: 2 }),
        "another title"
    );
    let more = fault_of(&rt, &[first, b"a,b,c\n1,2,3\n"]);
    assert!(&rt;
        more == Some(JoinFault::Titles { text: 1 }),
        "one title more"
    );
    let sign = fault_of(&rt, &[first, b"a;b\n1;2\n"]);
    assert!(&rt;
        sign == Some(JoinFault::Separator { text: 1 }),
        "another sign"
    );
    let open = fault_of(&rt, &[b"a,b\n1,2\n3,\"4\n", b"a,b\n5,6\"\n"]);
    let fault = TableFault::OpenQuote { record: 2 };
    assert!(&rt;
        open == Some(JoinFault::Table { text: 0, fault }),
        "a quote that the next text would close"
    );
    let none = fault_of(&rt, &[first, b"\n\n"]);
    let fault = TableFault::NoTitles;
    assert!(&rt;
        none == Some(JoinFault::Table { text: 1, fault }),
        "no titles"
    );
    let odd = b"\"a,\";b\n1;2\n".as_slice();
    assert!(&rt;
        fault_of(&rt, &[odd, odd]).is_some(),
        "a title with a comma before a semicolon"
    );
    let tab = b"a;b\n1;2\n".as_slice();
    assert!(&rt; fault_of(&rt, &[tab, tab]).is_none(), "semicolons");
    Ok(())
}

#[test]
fn a_record_has_its_place(rt: HostRuntime) -> Result<(), Fail> {
    let counts = [2, 0, 3];
    for (record, place) in [
        (1, (0, 1)),
        (2, (0, 2)),
        (3, (2, 1)),
        (5, (2, 3)),
        (6, (3, 1)),
    ] {
        assert!(&rt; place_of(&counts, record) == place, "record {record}");
    }
    Ok(())
}
