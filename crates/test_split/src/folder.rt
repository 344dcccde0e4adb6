// Tests of a folder that is written whole or not at all: in memory, where each call fails in turn.

ghost use Rattle.std.specs.Prelude.{◌≡◌, ◌++◌, [], ◌∷◌, None, Err, IfOk, OnErr, OnOk, Some, false, if◌then◌else◌, map, vec_len};
ghost use Rattle.std.specs.Option.{option_map};
ghost use Rattle.split_folder.specs.Folder.{File, begun, in_place, nothing};

use split_folder::{Folder, FolderFault, NewFile, Step, write_folder};
use std::alloc::{AllocError, Global};
use std::io;
use std::io::ErrorKind;
use std::process::Abort;
use std::test::Fail;

// A file that was added.
#[derive(Drop)]
struct Kept {
    name: Vec<u8>,
    text: Vec<u8>,
}

// A step that failed, and why.
#[derive(Clone, Copy)]
struct Failure {
    step: Step,
    error: io::Error,
}

// A folder in memory, of which all is known.
#[derive(Drop)]
struct Memory {
    alloc: Global,
    is_made: bool,
    is_in_place: bool,
    files: Vec<Kept>,
    failure: Option<Failure>,
    left: Option<io::Error>,
    calls: u32,
    // The call that fails, the first being 1, and whether the next one fails too.
    fails_at: u32,
    fails_twice: bool,
}

impl Memory {
    fn new(alloc: Global, fails_at: u32, fails_twice: bool) -> Memory
        ensures made { result.is_made ≡ false }
        ensures failure { result.failure ≡ None }
        ensures left { result.left ≡ None }
    {
        Memory {
            alloc,
            is_made: false,
            is_in_place: false,
            files: Vec::new(alloc),
            failure: None,
            left: None,
            calls: 0,
            fails_at,
            fails_twice,
        }
    }

    // What this call comes to: the first that fails finds no space, and the next is not permitted.
    fn next(&mut self) -> io::Result<()>
        ensures { self.new ≡ record self.old { calls = self.new.calls } }
    {
        self.calls = self.calls.saturating_add(1);
        if self.calls == self.fails_at {
            return Err(io::Error::from(ErrorKind::StorageFull));
        }
        if self.fails_twice && self.calls > self.fails_at {
            return Err(io::Error::from(ErrorKind::PermissionDenied));
        }
        Ok(())
    }

    // Keeps that a step failed.
    fn fail(&mut self, step: Step, error: io::Error) -> io::Result<()>
        ensures failure { self.new ≡ record self.old { failure = Some (record { step = step; error = error }) } }
        ensures error { result ≡ Err error }
    {
        self.failure = Some(Failure { step, error });
        Err(error)
    }

    // The step that adds one more file.
    fn next_file(&self) -> Step
        ensures { result ≡ Step.Add (vec_len self.now.files) }
    {
        Step::Add(self.files.len())
    }

    // Keeps a file.
    fn keep(&mut self, name: &str, text: &[u8]) -> io::Result<()>
        ensures others { self.new
            ≡ record self.old { calls = self.new.calls; files = self.new.files } }
        ensures added { OnOk result (map {B = File} (λ file. (file.name.items, file.text.items)) self.new.files.items
            ≡ map {B = File} (λ file. (file.name.items, file.text.items)) self.old.files.items
            ++ (name.now, text.now) ∷ []) }
        ensures kept { OnErr result (self.new.files.items ≡ self.old.files.items) }
    {
        self.next()?;
        let name = copy(self.alloc, name.as_bytes())?;
        let text = copy(self.alloc, text)?;
        self.files.push(Kept { name, text })?;
        Ok(())
    }
}

// A copy of bytes.
fn copy(alloc: Global, bytes: &[u8]) -> Result<Vec<u8>, AllocError>
    ensures { IfOk result (λ copy. copy.items ≡ bytes.now) }
{
    let mut copy = Vec::new(alloc);
    copy.extend_from_slice(bytes)?;
    Ok(copy)
}

impl Folder for Memory {
    ghost state = { λ memory. Some (record {
      held = if memory.is_made then (if memory.is_in_place then in_place (map {B = File} (λ file. (file.name.items, file.text.items)) memory.files.items) else begun (map {B = File} (λ file. (file.name.items, file.text.items)) memory.files.items)) else nothing;
      failure = option_map (λ failure. (failure.step, failure.error)) memory.failure;
      left = memory.left;
    }) };

    fn make(&mut self) -> io::Result<()> {
        if let Err(error) = self.next() {
            return self.fail(Step::Make, error);
        }
        self.is_made = true;
        self.is_in_place = false;
        self.files.clear();
        Ok(())
    }

    fn add(&mut self, name: &str, text: &[u8]) -> io::Result<()> {
        match self.keep(name, text) {
            Ok(()) => Ok(()),
            Err(error) => {
                let step = self.next_file();
                self.fail(step, error)
            }
        }
    }

    fn finish(&mut self) -> io::Result<()> {
        if let Err(error) = self.next() {
            return self.fail(Step::Finish, error);
        }
        self.is_in_place = true;
        Ok(())
    }

    fn remove(&mut self) -> io::Result<()> {
        if let Err(error) = self.next() {
            self.left = Some(error);
            return Err(error);
        }
        self.is_made = false;
        self.left = None;
        Ok(())
    }
}

const FILES: [NewFile<'static>; 3] = [
    NewFile {
        name: "vixen.csv",
        text: b"animal,second,easting,northing\nvixen,0,562000,0\n",
    },
    NewFile {
        name: "Füchsin 1.csv",
        text: b"\xFF\0\n",
    },
    NewFile {
        name: "split.txt",
        text: b"",
    },
];

// Whether a folder is in its place and has these files, in this order, and no other.
fn has_files(memory: &Memory, files: &[NewFile<'_>]) -> bool {
    memory.is_made
        && memory.is_in_place
        && memory.files.len() == files.len()
        && memory.files.iter().zip(files).all(|(kept, file)| {
            kept.name.as_slice() == file.name.as_bytes() && kept.text.as_slice() == file.text
        })
}

#[test]
fn a_folder_has_the_files_that_are_handed_in(rt: HostRuntime) {
    let mut memory = Memory::new(rt.alloc(), 0, false);
    assert!(rt; write_folder(&mut memory, &FILES).is_ok());
    assert!(rt; has_files(&memory, &FILES) && memory.calls == 5);
    let mut memory = Memory::new(rt.alloc(), 0, false);
    assert!(rt; write_folder(&mut memory, &[]).is_ok());
    assert!(rt;
        has_files(&memory, &[]) && memory.calls == 2,
        "with no file"
    );
}

// The step of a call, where three files are added.
fn step_of(call: u32) -> Step {
    match call {
        1 => Step::Make,
        2 => Step::Add(0),
        3 => Step::Add(1),
        4 => Step::Add(2),
        _ => Step::Finish,
    }
}

#[test]
fn nothing_is_left_where_a_call_fails(rt: HostRuntime) -> Result<(), Fail> {
    for call in 1..=5 {
        let mut memory = Memory::new(rt.alloc(), call, false);
        let fault = write_folder(&mut memory, &FILES).err().ok_or("no fault")?;
        let FolderFault::Failed { step, error, left } = fault else {
            return Err(Fail::from("another fault"));
        };
        assert!(&rt; step == step_of(call), "the step of call {call}");
        assert!(&rt;
            error.kind() == ErrorKind::StorageFull,
            "why call {call} failed"
        );
        assert!(&rt;
            left.is_none() && !memory.is_made,
            "call {call} left nothing"
        );
        assert!(&rt;
            memory.calls == call.saturating_add(1),
            "no call but the removal"
        );
    }
    Ok(())
}

#[test]
fn what_is_left_is_told_where_removing_fails_too(rt: HostRuntime) -> Result<(), Fail> {
    for call in 1..=5 {
        let mut memory = Memory::new(rt.alloc(), call, true);
        let fault = write_folder(&mut memory, &FILES).err().ok_or("no fault")?;
        let FolderFault::Failed { step, error, left } = fault else {
            return Err(Fail::from("another fault"));
        };
        assert!(&rt; step == step_of(call), "the step of call {call}");
        assert!(&rt;
            error.kind() == ErrorKind::StorageFull,
            "why call {call} failed"
        );
        let left = left.ok_or("nothing is left")?;
        assert!(&rt;
            left.kind() == ErrorKind::PermissionDenied,
            "why call {call} left it"
        );
        assert!(&rt; !memory.is_in_place, "call {call}");
    }
    Ok(())
}

// The fault of three files of these names, for which no call is made.
fn fault_of(rt: &impl Abort, alloc: Global, names: [&str; 3]) -> Result<FolderFault, Fail> {
    let files = [
        NewFile {
            name: names[0],
            text: b"1",
        },
        NewFile {
            name: names[1],
            text: b"2",
        },
        NewFile {
            name: names[2],
            text: b"3",
        },
    ];
    let mut memory = Memory::new(alloc, 0, false);
    let fault = write_folder(&mut memory, &files).err().ok_or("no fault")?;
    assert!(rt; memory.calls == 0, "no call");
    Ok(fault)
}

#[test]
fn names_that_no_file_can_have_are_refused_first(rt: HostRuntime) -> Result<(), Fail> {
    for name in ["", ".", "..", "/", "a/b", "a/", "/a", "a\0b", "\0"] {
        let fault = fault_of(&rt, rt.alloc(), ["a", name, "."])?;
        assert!(&rt; matches!(fault, FolderFault::BadName { file: 1 }), "{name}");
    }
    for name in ["...", ".a", "a.", " ", "a\\b", "Ärger über 'x'.csv"] {
        let file = NewFile { name, text: b"" };
        let mut memory = Memory::new(rt.alloc(), 0, false);
        assert!(&rt; write_folder(&mut memory, &[file]).is_ok(), "{name}");
    }
    Ok(())
}

#[test]
fn two_files_of_one_name_are_refused_first(rt: HostRuntime) -> Result<(), Fail> {
    for (names, file, before) in [
        (["a", "a", "a"], 1, 0),
        (["a", "b", "a"], 2, 0),
        (["b", "a", "a"], 2, 1),
    ] {
        let fault = fault_of(&rt, rt.alloc(), names)?;
        let FolderFault::SameName {
            file: second,
            before: first,
        } = fault
        else {
            return Err(Fail::from("another fault"));
        };
        assert!(&rt; second == file && first == before, "{}", names[1]);
    }
    Ok(())
}
