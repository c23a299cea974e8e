ghost use Rattle.std.specs.Prelude.{◌+◌, ◌-◌, ◌^◌, ◌≤◌, length};

/// The run of a record: the place of its first byte, and its bytes.
#[derive(Clone, Copy)]
pub struct Run<'a> {
    pub start: u64,
    pub bytes: &'a [u8],
    ghost fits: { start + length bytes.now ≤ 2 ^ 64 - 1 },
}

/// What a record carries.
#[derive(Clone, Copy)]
pub enum Carried<'a> {
    Number(u64),
    Bytes(Run<'a>),
    /// A number of fixed size, which no field has.
    Fixed,
}

/// A record of a message, with the bytes to which it refers.
#[derive(Clone, Copy)]
pub struct Piece<'a> {
    pub place: u64,
    pub number: u64,
    pub carried: Carried<'a>,
}
