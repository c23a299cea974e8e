use crate::point::Point;
use uuid::Uuid;

/// What a symbol plus an offset names.
#[derive(Clone, Copy, Debug, PartialEq, Eq)]
pub enum Target {
    Number(u64),
    /// A data block and an offset in it, modulo 2^64.
    Address(Uuid, u64),
    Code(Point),
    /// A symbol that stands for nothing that is loaded.
    Undefined(Uuid),
}
