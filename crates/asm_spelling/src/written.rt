use gr_base::{Bytes, Seq};

/// A text, and the bits of a word that it gives when it is read.
#[derive(Debug, Drop)]
pub struct Written {
    pub text: Bytes,
    pub bits: u32,
}

/// The texts of a line, and the bits that they give together.
#[derive(Debug, Drop)]
pub struct Texts {
    pub texts: Seq<Bytes>,
    pub bits: u32,
}
