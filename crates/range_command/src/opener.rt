// Where files are opened by their paths.

ghost use Rattle.std.specs.Prelude.{IfErr, IfOk, List, None, Option, Result, ℕ};
ghost use Rattle.range_command.specs.Opener.{Found, IsNotOpened, IsOpened};

use crate::reason::reason_of;
use range_pump::FileSource;
use std::alloc::{AllocError, Global};
use std::fs::{File, OpenFile};
use std::io;
use std::rt::Files;

// The number that Linux gives to an operation on a folder that only files have.
const IS_A_DIRECTORY: i32 = 21;

/// Why a file is not opened.
#[derive(Drop)]
pub enum OpenFault {
    /// An allocation failed.
    OutOfMemory,
    /// It cannot be opened to be read, for this reason.
    Refused(String),
}

/// Where files are opened by their paths: by the system, or in a folder in memory.
pub trait Opener {
    type File: FileSource;

    /// What a path comes to, where that is known.
    ghost finds: { Self → List ℕ → Found } = { λ _ _. None };

    /// The file of this path, opened to be read.
    fn open(&self, alloc: Global, path: &str) -> Result<Self::File, OpenFault>
        ensures opened { IfOk result
            (λ file. IsOpened (finds self.now path.now) (Self.File.remaining file)) }
        ensures refused { IfErr result (IsNotOpened (finds self.now path.now)) };
}

/// The files of the system, of which no contract knows what they hold.
#[derive(Drop)]
pub struct SystemFiles<'a, R> {
    runtime: &'a R,
}

impl<'a, R> SystemFiles<'a, R> {
    pub fn new(runtime: &'a R) -> SystemFiles<'a, R> {
        SystemFiles { runtime }
    }
}

impl<R: Files<File = File>> Opener for SystemFiles<'_, R> {
    type File = File;

    fn open(&self, alloc: Global, path: &str) -> Result<File, OpenFault> {
        match open(self.runtime, path) {
            Ok(file) => Ok(file),
            Err(error) => Err(refused(alloc, &error)),
        }
    }
}

// The file, opened. A folder can be opened too, but not read.
fn open<R: Files<File = File>>(rt: &R, path: &str) -> io::Result<File> {
    let file = File::open(rt, path)?;
    if file.metadata()?.is_dir() {
        return Err(io::Error::from_raw_os_error(IS_A_DIRECTORY));
    }
    Ok(file)
}

// What the system's error says.
fn refused(alloc: Global, error: &io::Error) -> OpenFault {
    match reason_of(alloc, error) {
        Ok(reason) => OpenFault::Refused(reason),
        Err(AllocError) => OpenFault::OutOfMemory,
    }
}
