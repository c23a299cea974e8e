use gr_base::Seq;
use uuid::Uuid;

/// What a layout must find room for: the intervals of the loaded sections, in module order.
#[derive(Debug, Drop)]
pub struct Shape {
    pub spots: Seq<ShapeSpot>,
}

/// An interval: its size in bytes, its alignment, and its old address modulo 4096, where it had an
/// address that suits the alignment.
#[derive(Clone, Copy, Debug, PartialEq, Eq)]
pub struct ShapeSpot {
    pub interval: Uuid,
    pub size: u64,
    pub align: u64,
    pub residue: Option<u64>,
}
