// What `--version` says behind the program's name.

/// The project's version, and the sum of the logic that it was proved in, as `rt version` says it.
pub const VERSION: &str = "1.0.0 (logic dac8208d650f15bf)";
