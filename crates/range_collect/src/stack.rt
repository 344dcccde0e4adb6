// The stacks of the threads of lines and pumps.

use core::thread::Stack;

// In bytes. The system's own size, of 8 MB a thread, would keep half a gigabyte of addresses for 64 files.
const STACK_SIZE: usize = 262_144;

// The stack of the thread of a line or of a pump, of a quarter of a megabyte.
pub(crate) fn small_stack() -> Stack {
    Stack::new().stack_size(STACK_SIZE)
}
