/// One record of a message.
#[derive(Clone, Copy, Debug, PartialEq, Eq)]
pub struct Record {
    /// The place of its first byte.
    pub place: u64,
    /// The field number, which may be larger than Protocol Buffers' own limit.
    pub field: u64,
    pub load: Load,
}

/// What a record carries.
#[derive(Clone, Copy, Debug, PartialEq, Eq)]
pub enum Load {
    /// Wire type 0.
    Varint(u64),
    /// Wire type 1: eight bytes, the low one first.
    Eight(u64),
    /// Wire type 2: a run of bytes.
    Run(Span),
    /// Wire type 5: four bytes, the low one first.
    Four(u32),
}

/// The place of the first byte of a run, and how many bytes it has.
#[derive(Clone, Copy, Debug, PartialEq, Eq)]
pub struct Span {
    pub start: u64,
    pub len: u64,
}

/// What stands at the front of bytes to which more may come.
#[derive(Clone, Copy, Debug, PartialEq, Eq)]
pub enum Scan {
    /// A record, and how many bytes it has.
    Whole(Record, u64),
    /// No record yet: more bytes may complete one.
    Short,
}
