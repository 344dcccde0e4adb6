// Commands as the program obeys them, over files that the system has.

use crate::line::line;
use range_command::{Outlet, Output, SystemFiles, obey};
use range_pump::{FileSource, FreeGate, ThreadRuntime};
use std::fs::File;
use std::process::Abort;
use std::rt::Files;
use std::test::Fail;

/// The words over an input end with this status and this text, which is empty where they are obeyed.
pub(crate) fn expect_ended<
    R: ThreadRuntime + Files<File = File> + AllocGlobal + Abort,
    S: FileSource,
    W: Outlet,
>(rt: &R, words: &[&str], input: S, out: &mut Output<W>, ended: (u8, &str)) -> Result<(), Fail> {
    let alloc = rt.alloc();
    let (words, files) = (line(alloc, words)?, SystemFiles::new(rt));
    let (status, text) = match obey(rt, &files, words.as_slice(), input, &FreeGate, out) {
        Ok(()) => (0, String::new(alloc)),
        Err(refusal) => (refusal.status(), format!(in alloc; "{refusal}")?),
    };
    assert!(rt; (status, text.as_str()) == ended, "{status}: {text}");
    Ok(())
}
