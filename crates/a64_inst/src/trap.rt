//! Why a machine stops with no exit.

/// Why a machine stops with no exit.
#[derive(Clone, Copy, Debug, PartialEq, Eq)]
pub enum Trap {
    /// The word is in no row of the instruction table.
    Undecoded,
    /// BRK, with its immediate.
    Break(u16),
    /// UDF, with its immediate.
    Udf(u16),
    /// A system call that there is not.
    BadCall,
    /// An access to memory that is not there.
    Fault,
    /// More output than a run may write.
    OutputFull,
}
