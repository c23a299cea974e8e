use a64_inst::Trap;
use sym_expr::Cause;

/// How an instruction goes on behind an operation.
#[derive(Clone, Copy, Debug, PartialEq, Eq)]
pub enum Flow {
    /// With the next operation.
    On,
    /// It is done, and the place is that of the next instruction.
    Placed,
    /// The program has exited with this status.
    Exit(u8),
    Trap(Trap),
    Stuck(Cause),
}
