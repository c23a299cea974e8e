use gr_base::{AuxFault, Text};
use uuid::Uuid;

/// What is wrong with an IR, in the order of precedence. Intervals and blocks are named by their identifiers.
#[derive(Debug, Drop)]
pub enum CheckFault {
    /// The identifier is held by an earlier node.
    DupUuid(Uuid),
    /// The interval has a block with neither code nor data.
    BareBlock(Uuid),
    /// A reference of the first node names an identifier that no node has.
    Dangling(Uuid, Uuid),
    /// A reference of the first node names a node of a wrong kind or module.
    WrongKind(Uuid, Uuid),
    /// The ordinal isn't below this number of modules.
    NoModule(u64),
    /// The instruction set and the byte order aren't those of the profile.
    NotA64(i32, i32),
    /// The loaded section has thread-local storage.
    ThreadLocal(Uuid),
    /// The sizes of the loaded intervals add up to this sum, which is too large.
    Large(u128),
    /// The interval's contents are longer than its size.
    ContentsLong(Uuid),
    /// The block doesn't end inside its interval.
    BlockOutside(Uuid),
    /// The second block begins before the first one's end.
    Overlap(Uuid, Uuid),
    /// The offset or the size of the code block isn't a multiple of 4.
    CodeAlign(Uuid),
    /// There is no entry in a loaded section.
    NoEntry,
    /// The table isn't decoded.
    Aux(Text, AuxFault),
    /// The table names an offset past the size of the block or interval.
    BadPlace(Text, Uuid, u64),
    /// The expression at the offset of the interval has a flag that isn't plain.
    Flag(Uuid, u64, i32),
    /// No operand takes the expression at the offset of the interval.
    BadOperand(Uuid, u64),
    /// The expression at the offset of the interval has a wrong target.
    BadTarget(Uuid, u64),
}

/// Why a node isn't added.
#[derive(Clone, Copy, Debug, PartialEq, Eq)]
pub enum AddFault {
    /// A node of the graph holds the identifier.
    Taken(Uuid),
}
