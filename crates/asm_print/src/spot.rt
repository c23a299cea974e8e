use uuid::Uuid;

/// Where a block begins and ends: its interval, and the offsets in it. The end may be past every offset.
#[derive(Clone, Copy, Debug, PartialEq, Eq)]
pub struct Spot {
    pub interval: Uuid,
    pub start: u128,
    pub end: u128,
}
