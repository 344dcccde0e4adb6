// What can be heard of the threads.

/// Hears of each message, in the thread that sends or takes it. It is for tests, in which threads meet
/// at these calls; no contract says when they come.
pub trait Gate: Sync {
    /// Before a block or a mark of the file is sent, `place` of whose fixes were sent before.
    fn before_send(&self, file: u32, place: u64);

    /// After a message of the file was taken and its estimator has it, `place` being the fixes before it.
    fn after_take(&self, file: u32, place: u64);
}

/// The gate that does nothing.
#[derive(Clone, Copy)]
pub struct FreeGate;

impl Gate for FreeGate {
    fn before_send(&self, _file: u32, _place: u64) {}

    fn after_take(&self, _file: u32, _place: u64) {}
}
