/// Why the symbolic machine does not go on.
#[derive(Clone, Copy, Debug, PartialEq, Eq)]
pub enum Cause {
    /// An operation has no meaning for its values.
    Value,
    /// An access passes its object.
    Outside,
    /// Bytes form no value that can be loaded.
    Mixed,
    /// A flag that is needed isn't known.
    Flag,
    /// There is no word.
    Fell,
    /// A target is formed without an expression.
    Plain,
    /// A symbol has no definition.
    Undefined,
}
