// What stands for an option that the words do not give.

/// The levels.
pub(crate) const DEFAULT_LEVELS: &str = "50,95,100";

/// The unit of coordinates.
pub(crate) const DEFAULT_UNIT: &str = "m";

/// How many fixes a block has at most.
pub(crate) const DEFAULT_BLOCK: u32 = 256;

/// How many messages a line holds at most.
pub(crate) const DEFAULT_DEPTH: u32 = 4;

/// How many workers there are.
pub(crate) const DEFAULT_WORKERS: u32 = 2;
