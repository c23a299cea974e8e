use a64_inst::Trap;
use gr_base::Bytes;

/// Where a run stands after its steps.
#[derive(Clone, Copy, Debug, PartialEq, Eq)]
pub enum RunEnd {
    /// All steps were done, and more may follow.
    Running,
    /// The program exited with this status.
    Exit(u8),
    /// The machine stopped with no exit.
    Trap(Trap),
}

/// What is seen of a run: the steps that were done, an exit or a trap being one, and the bytes written.
#[derive(Debug, Drop)]
pub struct RunReport {
    pub steps: u64,
    pub end: RunEnd,
    pub output: Bytes,
}
