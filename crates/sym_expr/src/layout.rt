use gr_base::Seq;
use uuid::Uuid;

/// The addresses of intervals and the place of the stack, in bytes.
#[derive(Debug, Drop)]
pub struct Layout {
    pub places: Seq<PlaceAt>,
    pub stack_at: u64,
    pub stack_size: u64,
}

/// An interval and its address.
#[derive(Clone, Copy, Debug, PartialEq, Eq)]
pub struct PlaceAt {
    pub interval: Uuid,
    pub at: u64,
}

/// What has a place in memory.
#[derive(Clone, Copy, Debug, PartialEq, Eq)]
pub enum Spot {
    Stack,
    Interval(Uuid),
}

/// A spot where a layout puts it, with its size in bytes and its alignment.
#[derive(Clone, Copy, Debug, PartialEq, Eq)]
pub struct PlacedSpot {
    pub spot: Spot,
    pub at: u64,
    pub size: u64,
    pub align: u64,
}
