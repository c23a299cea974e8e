use uuid::Uuid;

/// Why a program can't be linked under a layout. An interval, an offset in it and a value name an
/// expression that doesn't fit.
#[derive(Clone, Copy, Debug, PartialEq, Eq)]
pub enum LinkFault {
    /// The bytes of all intervals and of the stack are more than 2^24: so many.
    TooBig(u64),
    /// A symbol stands for nothing that is loaded.
    Undefined(Uuid),
    /// The value is outside the range of its operand or bytes.
    Range(Uuid, u64, i128),
    /// The value isn't a multiple of the unit.
    Unaligned(Uuid, u64, i128),
}
