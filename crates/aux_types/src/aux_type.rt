use sqlite_items::{Boxed, Items};

/// The type of an auxiliary table, or of a part of one.
#[derive(Debug, Drop)]
pub enum AuxType {
    /// A text.
    Str,
    Bool,
    /// An identifier.
    Id,
    /// An address.
    Addr,
    /// A place in a node: its identifier and an offset.
    Offset,
    I8,
    I16,
    I32,
    I64,
    U8,
    U16,
    U32,
    U64,
    /// A number of four bytes whose bits are carried unread.
    Four,
    /// A number of eight bytes whose bits are carried unread.
    Eight,
    Sequence(Boxed<AuxType>),
    Set(Boxed<AuxType>),
    /// From keys of the first type to values of the second.
    Mapping(Boxed<AuxType>, Boxed<AuxType>),
    Tuple(Items<AuxType>),
    Variant(Items<AuxType>),
}
