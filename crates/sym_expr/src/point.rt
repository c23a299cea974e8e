use uuid::Uuid;

/// A point of a program: at an offset of a code block, behind the first j words inserted there.
#[derive(Clone, Copy, Debug, PartialEq, Eq)]
pub struct Point {
    pub block: Uuid,
    pub offset: u64,
    pub j: u64,
}
