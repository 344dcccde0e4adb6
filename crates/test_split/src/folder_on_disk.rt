// Tests of a folder that the system makes, below one of their own.

use split_folder::{Folder, FolderFault, NewFile, Step, SystemFolder, write_folder};
use std::alloc::Global;
use std::io::ErrorKind;
use std::process::Abort;
use std::rt::Files;
use std::test::Fail;
use std::{fs, io, process};

const FILES: [NewFile<'static>; 2] = [
    NewFile {
        name: "vixen.csv",
        text: b"animal,second,easting,northing\n",
    },
    NewFile {
        name: "Füchsin 1.csv",
        text: b"\xFF\0\n",
    },
];

// An empty folder for a test.
fn empty_folder(rt: &HostRuntime, test: &str) -> Result<String, Fail> {
    let alloc = rt.alloc();
    let process = process::id(rt.process());
    let folder = format!(in alloc; "/tmp/test_split-{process}-{test}")?;
    if fs::exists(rt, folder.as_str())? {
        fs::remove_dir_all(rt, folder.as_str())?;
    }
    fs::create_dir(rt, folder.as_str())?;
    Ok(folder)
}

// How many things a folder has.
fn count_in<R: Files + AllocGlobal + Clone + Drop>(rt: &R, folder: &str) -> Result<u32, Fail> {
    let mut count: u32 = 0;
    for entry in fs::read_dir(rt, folder)? {
        entry?;
        count = count.saturating_add(1);
    }
    Ok(count)
}

// Checks that a folder has the files, byte for byte, and nothing else.
fn expect_files<R: Files + AllocGlobal + Abort + Clone + Drop>(
    rt: &R,
    folder: &str,
) -> Result<(), Fail> {
    let alloc = rt.alloc();
    for file in &FILES {
        let text = fs::read(rt, format!(in alloc; "{folder}/{}", file.name)?.as_str())?;
        assert!(rt; text.as_slice() == file.text, "{}", file.name);
    }
    assert!(rt; count_in(rt, folder)? == 2, "nothing else");
    Ok(())
}

// Checks that writing a folder fails at this step, for this reason, and that nothing of it is left.
fn expect_fault<R: Files + AllocGlobal + Abort>(
    rt: &R,
    path: &str,
    files: &[NewFile<'_>],
    at: Step,
    kind: ErrorKind,
) -> Result<(), Fail> {
    let mut folder = SystemFolder::new(rt, path);
    let fault = write_folder(&mut folder, files).err().ok_or("no fault")?;
    let FolderFault::Failed { step, error, left } = fault else {
        return Err(Fail::from("another fault"));
    };
    assert!(rt; step == at && left.is_none(), "{path}: {step:?}");
    assert!(rt; error.kind() == kind, "{path}: {error}");
    Ok(())
}

#[test]
fn files_are_written_and_parents_are_made(rt: HostRuntime) -> Result<(), Fail> {
    let alloc = rt.alloc();
    let root = empty_folder(&rt, "whole")?;
    let path = format!(in alloc; "{root}/a/b//tracks/")?;
    let mut folder = SystemFolder::new(&rt, path.as_str());
    assert!(&rt; !folder.is_there()?, "not yet");
    assert!(&rt; write_folder(&mut folder, &FILES).is_ok(), "it is written");
    assert!(&rt; folder.is_there()?, "it is there");
    expect_files(&rt, path.as_str())?;
    assert!(&rt;
        count_in(&rt, format!(in alloc; "{root}/a/b")?.as_str())? == 1,
        "alone"
    );
    expect_fault(
        &rt,
        path.as_str(),
        &[],
        Step::Make,
        ErrorKind::AlreadyExists,
    )?;
    expect_files(&rt, path.as_str())?;
    fs::remove_dir_all(&rt, root.as_str())?;
    Ok(())
}

#[test]
fn nothing_is_replaced(rt: HostRuntime) -> Result<(), Fail> {
    let alloc = rt.alloc();
    let root = empty_folder(&rt, "there")?;
    let there = ErrorKind::AlreadyExists;
    let file = format!(in alloc; "{root}/file")?;
    fs::write(&rt, file.as_str(), b"mine".as_slice())?;
    expect_fault(&rt, file.as_str(), &FILES, Step::Make, there)?;
    let below = format!(in alloc; "{file}/tracks")?;
    expect_fault(
        &rt,
        below.as_str(),
        &FILES,
        Step::Make,
        ErrorKind::NotADirectory,
    )?;
    let link = format!(in alloc; "{root}/link")?;
    std::os::unix::fs::symlink(&rt, "nowhere", link.as_str())?;
    expect_fault(&rt, link.as_str(), &FILES, Step::Make, there)?;
    let below = format!(in alloc; "{link}/tracks")?;
    expect_fault(
        &rt,
        below.as_str(),
        &FILES,
        Step::Make,
        ErrorKind::NotADirectory,
    )?;
    expect_fault(&rt, root.as_str(), &FILES, Step::Make, there)?;
    expect_fault(&rt, "//", &FILES, Step::Make, there)?;
    let no_name = format!(in alloc; "{root}/none/..")?;
    expect_fault(
        &rt,
        no_name.as_str(),
        &FILES,
        Step::Make,
        ErrorKind::InvalidInput,
    )?;
    expect_fault(&rt, "", &FILES, Step::Make, ErrorKind::InvalidInput)?;
    assert!(&rt;
        fs::read(&rt, file.as_str())?.as_slice() == b"mine".as_slice(),
        "the file"
    );
    assert!(&rt; count_in(&rt, root.as_str())? == 2, "nothing else");
    fs::remove_dir_all(&rt, root.as_str())?;
    Ok(())
}

// A name longer than a file system takes is refused by the system.
fn long_name(alloc: Global) -> Result<String, Fail> {
    let mut name = String::new(alloc);
    for _ in 0..300 {
        name.push('x')?;
    }
    Ok(name)
}

#[test]
fn nothing_is_left_where_a_file_fails(rt: HostRuntime) -> Result<(), Fail> {
    let alloc = rt.alloc();
    let root = empty_folder(&rt, "left")?;
    let name = long_name(alloc)?;
    let files = [
        FILES[0],
        NewFile {
            name: name.as_str(),
            text: b"",
        },
    ];
    let path = format!(in alloc; "{root}/tracks")?;
    expect_fault(
        &rt,
        path.as_str(),
        &files,
        Step::Add(1),
        ErrorKind::InvalidFilename,
    )?;
    let path = format!(in alloc; "{root}/a/b/tracks")?;
    expect_fault(
        &rt,
        path.as_str(),
        &files,
        Step::Add(1),
        ErrorKind::InvalidFilename,
    )?;
    let path = format!(in alloc; "{root}/c/{name}/tracks")?;
    expect_fault(
        &rt,
        path.as_str(),
        &FILES,
        Step::Make,
        ErrorKind::InvalidFilename,
    )?;
    assert!(&rt; count_in(&rt, root.as_str())? == 0, "nothing is left");
    fs::remove_dir_all(&rt, root.as_str())?;
    Ok(())
}

// The kind of the error of a call that failed.
fn kind_of(answer: io::Result<()>) -> Option<ErrorKind> {
    match answer {
        Ok(()) => None,
        Err(error) => Some(error.kind()),
    }
}

#[test]
fn what_appears_meanwhile_stays(rt: HostRuntime) -> Result<(), Fail> {
    let alloc = rt.alloc();
    let root = empty_folder(&rt, "meanwhile")?;
    let path = format!(in alloc; "{root}/a/tracks")?;
    let mut folder = SystemFolder::new(&rt, path.as_str());
    folder.make()?;
    folder.add("vixen.csv", b"1")?;
    let again = kind_of(folder.add("vixen.csv", b"2"));
    assert!(&rt; again == Some(ErrorKind::AlreadyExists), "a file is new");
    fs::create_dir(&rt, path.as_str())?;
    let finished = kind_of(folder.finish());
    assert!(&rt;
        finished == Some(ErrorKind::AlreadyExists),
        "a folder appeared"
    );
    folder.remove()?;
    assert!(&rt; count_in(&rt, path.as_str())? == 0, "it stays as it was");
    assert!(&rt;
        count_in(&rt, format!(in alloc; "{root}/a")?.as_str())? == 1,
        "alone"
    );
    fs::remove_dir_all(&rt, root.as_str())?;
    Ok(())
}

#[test]
fn what_another_run_left_stays(rt: HostRuntime) -> Result<(), Fail> {
    let alloc = rt.alloc();
    let root = empty_folder(&rt, "part")?;
    let left = format!(in alloc; "{root}/.tracks.part-1")?;
    fs::create_dir(&rt, left.as_str())?;
    fs::write(
        &rt,
        format!(in alloc; "{left}/fox.csv")?.as_str(),
        b"".as_slice(),
    )?;
    let path = format!(in alloc; "{root}/tracks")?;
    let mut folder = SystemFolder::new(&rt, path.as_str());
    assert!(&rt; write_folder(&mut folder, &FILES).is_ok(), "it is written");
    expect_files(&rt, path.as_str())?;
    assert!(&rt; count_in(&rt, left.as_str())? == 1, "what was left");
    assert!(&rt; count_in(&rt, root.as_str())? == 2, "nothing else");
    fs::remove_dir_all(&rt, root.as_str())?;
    Ok(())
}
