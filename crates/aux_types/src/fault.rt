/// Why a text names no type, and where: each carries the offset in the text.
#[derive(Clone, Copy, Debug, PartialEq, Eq)]
pub enum TypeFault {
    /// A type, `<`, `,`, `>` or the end was expected here.
    NotAType(u64),
    /// The bracket that opens here is one too many.
    Deep(u64),
}
