use gr_base::{Bytes, Seq};

/// What the bytes of an image begin with.
pub const MAGIC: [u8; 8] = *b"GRIMG001";

/// A program that is ready to run: where it begins, its stack, which holds zeros, and its bytes.
#[derive(Debug, Drop)]
pub struct Image {
    pub entry: u64,
    pub stack_at: u64,
    pub stack_size: u64,
    pub segments: Seq<Segment>,
}

/// Bytes and the address of the first.
#[derive(Debug, Drop)]
pub struct Segment {
    pub at: u64,
    pub bytes: Bytes,
}
