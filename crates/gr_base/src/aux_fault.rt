/// What is wrong with the bytes of an auxiliary table of a parsed type, and where: each carries the
/// offset in the table's bytes.
#[derive(Clone, Copy, Debug, PartialEq, Eq)]
pub enum AuxFault {
    /// The unit that begins here doesn't fit.
    Short(u64),
    /// The first byte left over.
    Rest(u64),
    /// A truth value that is neither 0 nor 1.
    BadBool(u64),
    /// An index past the parts of the variant.
    BadVariant(u64),
    /// A string's content that isn't UTF-8.
    BadUtf8(u64),
    /// A set member or mapping key that equals an earlier one.
    Duplicate(u64),
}
