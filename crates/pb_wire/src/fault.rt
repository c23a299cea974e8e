/// The first record of a message that can't be completed.
#[derive(Clone, Copy, Debug, PartialEq, Eq)]
pub struct WireFault {
    /// The place of the record's first byte.
    pub place: u64,
    pub reason: WireReason,
}

/// Why a record can't be completed: the first reason in the order key, field number, wire type, payload.
#[derive(Clone, Copy, Debug, PartialEq, Eq)]
pub enum WireReason {
    /// A varint has ten bytes without an end, or a tenth byte above 1.
    Varint,
    /// The record doesn't end inside its message.
    Truncated,
    /// A wire type other than 0, 1, 2 and 5.
    WireType,
    /// Field number 0.
    FieldZero,
}
