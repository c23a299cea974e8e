use gr_base::Bytes;

/// What the operand of a word names in place of a number.
#[derive(Debug, Drop)]
pub enum Named {
    /// Nothing: the operand is a number.
    Nothing,
    /// A label, by its text, and so many bytes from it.
    Label(Bytes, i64),
}
