use a64_inst::Trap;
use gr_base::Bytes;
use sym_expr::{Cause, Point};
use uuid::Uuid;

/// Where a run stands after its steps.
#[derive(Clone, Copy, Debug, PartialEq, Eq)]
pub enum SymEnd {
    /// All steps were done, and more may follow.
    Running,
    /// The program exited with this status.
    Exit(u8),
    /// The machine stopped with no exit.
    Trap(Trap),
    /// What comes at this point isn't defined, for this cause.
    Stuck(Point, Cause),
}

/// What is seen of a run: the steps that were done, an exit or a trap being one and a stuck one none, and the
/// bytes written.
#[derive(Debug, Drop)]
pub struct SymReport {
    pub steps: u64,
    pub end: SymEnd,
    pub output: Bytes,
}

/// What a machine comes to next: the point that has the next word, or the last one reached where there is no
/// word; the word; the interval of that point; and, where the word's expression names a point of code, this
/// target and its interval.
#[derive(Clone, Copy, Debug, PartialEq, Eq)]
pub struct Next {
    pub point: Point,
    pub word: Option<u32>,
    pub from: Uuid,
    pub to: Option<Uuid>,
    pub target: Option<Point>,
}
