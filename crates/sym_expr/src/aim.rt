use uuid::Uuid;

/// What kind of thing a target is: all that matters of it where it is asked whether an expression may
/// name it.
#[derive(Clone, Copy, Debug, PartialEq, Eq)]
pub enum Aim {
    Number,
    /// A data block.
    Data,
    /// A point of code, in the interval of this identifier.
    Code(Uuid),
    Undefined,
}
