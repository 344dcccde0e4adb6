// The limits of a run.

/// The most fixes of a block: 1024.
pub const BLOCK_LIMIT: u32 = 1024;

/// The most messages that a line may be opened to hold: 64.
pub const DEPTH_LIMIT: u32 = 64;

/// The most files of a run, and so of a line: 64.
pub const FILE_LIMIT: u32 = 64;

/// The most levels of a command: 8.
pub const LEVEL_COUNT_LIMIT: usize = 8;

/// The greatest level of a percent polygon, in per cent: 100.
pub const LEVEL_LIMIT: u8 = 100;

/// The most workers of a run: 8.
pub const WORKER_LIMIT: u32 = 8;
