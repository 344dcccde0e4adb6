//! Makes each call that reads, follows, judges or reports once, over two small files, and prints what it
//! answers: a line a call. With ample memory these are the lines of the file `stdout`. The script
//! `hostile/allocations.py` makes each allocation and each start of a thread of this program fail in turn; each line is then
//! as it was, or says that the call ran out of memory.
#![tactic(auto)]

mod files;
mod follow_calls;
mod pump_call;
mod read_call;

use follow_calls::{analyse_files, follow_files};
use pump_call::pump_file;
use read_call::read_file;
use std::io;

fn main(rt: HostRuntime) -> io::Result<()> {
    let alloc = rt.alloc();
    read_file(&rt, alloc)?;
    pump_file(&rt, alloc)?;
    follow_files(&rt, alloc)?;
    analyse_files(&rt, alloc)
}
